ghost use Rattle.std.specs.Prelude.{◌≡◌, ℕ, ◌<◌, ◌≤◌, false, ◌||◌, ◌==◌, nat_eq};
ghost use Rattle.model.specs.Tests.{all_below};
ghost use Rattle.std.specs.List.{list_any};
ghost use Rattle.plan_reader.specs.Marks.{marked};

// Which of 32 settings are named by the tables so far.
#[derive(Clone, Copy)]
pub(crate) struct Named {
    marks: [bool; 32],
}

impl Named {
    pub(crate) fn none() -> Self
        ensures { (s : ℕ) → marked result s ≡ false }
    {
        Named { marks: [false; 32] }
    }

    // Marks one setting too.
    fn mark(&mut self, setting: u8)
        ensures { (s : ℕ) → s < 32 → marked self.new s ≡ (marked self.old s || s == setting) }
    {
        if setting < 32 {
            self.marks[usize::from(setting)] = true;
        }
    }

    // Marks the settings of a scope too.
    pub(crate) fn add(&mut self, scope: &[u8])
        ensures { (s : ℕ) → s < 32 → marked self.new s ≡ (marked self.old s || list_any (nat_eq s) scope.now) }
    {
        for setting in scope {
            self.mark(*setting);
        }
    }

    // Whether each setting below `n` is marked.
    pub(crate) fn has_all(&self, n: u8) -> bool
        requires { n ≤ 32 }
        ensures { result ≡ all_below n (marked self.now) }
    {
        self.marks[..usize::from(n)].iter().all(|mark| *mark)
    }
}
