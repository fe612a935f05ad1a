// A roll kept in the plainest way, to compare with: for each number that was struck, how many saves were kept
// then, and none for one that stands. Going back to a save lets stand again what was struck since.
use refusal::Refusal;

#[derive(Drop)]
pub(crate) struct Plain {
    most: u32,
    size: u32,
    kept: u8,
    struck: [Option<u8>; 4096],
}

impl Plain {
    pub(crate) fn new(most: u32) -> Plain {
        Plain {
            most,
            size: 0,
            kept: 0,
            struck: [None; 4096],
        }
    }

    pub(crate) fn begin(&mut self, n: u32) -> Result<(), Refusal> {
        if n > self.most {
            return Err(Refusal::AboveMost);
        }
        self.size = n;
        self.kept = 0;
        self.struck = [None; 4096];
        Ok(())
    }

    pub(crate) fn stands(&self, k: u32) -> bool {
        k < self.size && self.struck.get(k as usize) == Some(&None)
    }

    pub(crate) fn strike(&mut self, k: u32) -> bool {
        match self.struck.get_mut(k as usize) {
            Some(struck) if k < self.size && struck.is_none() => {
                *struck = Some(self.kept);
                true
            }
            _ => false,
        }
    }

    pub(crate) fn save(&mut self) -> Result<(), Refusal> {
        if self.kept >= 32 {
            return Err(Refusal::NoSaveFree);
        }
        self.kept += 1;
        Ok(())
    }

    pub(crate) fn back(&mut self) -> Result<(), Refusal> {
        if self.kept == 0 {
            return Err(Refusal::NoSaveKept);
        }
        for struck in self.struck.iter_mut() {
            if *struck == Some(self.kept) {
                *struck = None;
            }
        }
        self.kept -= 1;
        Ok(())
    }

    pub(crate) fn size(&self) -> u32 {
        self.size
    }

    pub(crate) fn count(&self) -> u32 {
        (0..self.size).filter(|k| self.stands(*k)).count() as u32
    }

    pub(crate) fn kept(&self) -> u32 {
        u32::from(self.kept)
    }

    pub(crate) fn free(&self) -> u32 {
        32u32.saturating_sub(self.kept())
    }

    pub(crate) fn first_from(&self, place: u32) -> Option<u32> {
        (place..self.size).find(|k| self.stands(*k))
    }
}
