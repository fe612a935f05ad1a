ghost use Rattle.std.specs.Prelude.{◌≡◌, ◌*◌, ◌/◌, ◌<◌, ◌≤◌, length, slice_index, take};
ghost use Rattle.plan_format.specs.Bits.{bits, number_at};
ghost use Rattle.plan_format.specs.Reading.{number as number_of, number_below, padded, ranged as ranged_of};
ghost use Rattle.plan_reader.specs.Outcomes.{Reads};

use crate::reader::Reader;
use refusal::Refusal;

// More bytes than any plan file has. Nothing depends on the rest of a file, as `plan_format::reads_no_further` says.
const MOST: usize = 65_536;

impl<'a> Reader<'a> {
    // At the front of a file, of which it holds the first `MOST` bytes.
    pub(crate) fn new(file: &'a [u8]) -> Self
        ensures front { result.file.now ≡ take MOST file.now }
        ensures place { result.place ≡ 0 }
    {
        Reader {
            file: &file[..MOST.min(file.len())],
            place: 0,
        }
    }

    pub(crate) fn place(&self) -> u32
        ensures { result ≡ self.now.place }
    {
        self.place
    }

    // The place after the last bit.
    fn end(&self) -> u32
        ensures { result ≡ 8 * length self.now.file.now }
    {
        8 * (self.file.len() as u32) // at most 65,536 bytes
    }

    // The bit at a place of the file.
    fn bit(&self, place: u32) -> u8
        requires { place < 8 * length self.now.file.now }
        ensures { result ≡ slice_index (bits self.now.file.now) place }
    {
        let byte = self.file[(place / 8) as usize];
        byte >> (7 - place % 8) & 1
    }

    // The byte at an index, or 0 past the end.
    fn byte(&self, i: u32) -> u8
        ensures { result ≡ slice_index self.now.file.now i }
    {
        self.file.get(i as usize).copied().unwrap_or(0)
    }

    // The number that the three bytes from the place's own on spell: whatever starts at the place and has up to 16 bits
    // lies in them.
    fn three_bytes(&self) -> u32
        ensures { result ≡ number_at (bits self.now.file.now) (8 * (self.now.place / 8)) 24 }
    {
        let first = self.place / 8;
        let high = u32::from(self.byte(first));
        let middle = u32::from(self.byte(first + 1));
        let low = u32::from(self.byte(first + 2));
        (high * 256 + middle) * 256 + low
    }

    // The number of `width` bits.
    pub(crate) fn number(&mut self, width: u32) -> Result<u16, Refusal>
        requires { width ≤ 16 }
        ensures { Reads self.old self.new result (λ b. number_of b width) }
    {
        let place = self.place;
        let after = place + width;
        if after > self.end() {
            return Err(Refusal::CutShort(place));
        }
        let past = 24 - place % 8 - width; // the bits after the number
        let value = (self.three_bytes() >> past) % (1 << width);
        self.place = after;
        Ok(value as u16) // of at most 16 bits
    }

    // The number of `width` bits, from `low` to `high`.
    pub(crate) fn ranged(&mut self, width: u32, low: u16, high: u16) -> Result<u16, Refusal>
        requires { width ≤ 16 }
        ensures { Reads self.old self.new result (λ b. ranged_of b width low high) }
    {
        let place = self.place;
        let value = self.number(width)?;
        if value < low || value > high {
            return Err(Refusal::OutOfRange(place));
        }
        Ok(value)
    }

    // The number of 5 bits, below `n`.
    pub(crate) fn below(&mut self, n: u8) -> Result<u8, Refusal>
        ensures { Reads self.old self.new result (λ b. number_below b n) }
    {
        let place = self.place;
        let value = self.number(5)?;
        if value >= u16::from(n) {
            return Err(Refusal::OutOfRange(place));
        }
        Ok(value as u8) // below n
    }

    // Whether fewer than eight bits follow, all 0.
    pub(crate) fn is_padded(&self) -> bool
        ensures { result ≡ padded (bits self.now.file.now) self.now.place }
    {
        let end = self.end();
        end - self.place < 8 && (self.place..end).all(|p| self.bit(p) == 0)
    }
}
