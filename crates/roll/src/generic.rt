// Calls on any kinds of rolls: they rest on the interface alone.
ghost use Rattle.std.specs.Prelude.{◌≡◌};
ghost use Rattle.roll.specs.Calls.{after_begin_both, begin_both_answer};
ghost use Rattle.roll.specs.Meaning.{stood_of, struck_all};

use crate::interface::Roll;
use refusal::Refusal;

// Begins the one roll with n numbers and the other with k, or neither: both sizes are compared with the
// most of their kind before either roll is begun.
pub fn begin_both<R: Roll, V: Roll>(
    rows: &mut R,
    values: &mut V,
    n: u32,
    k: u32,
) -> Result<(), Refusal>
    ensures answer { result ≡ begin_both_answer R.Roll.MOST V.Roll.MOST n k }
    ensures rows { R.Roll.meaning rows.new ≡ after_begin_both R.Roll.MOST V.Roll.MOST n k n (R.Roll.meaning rows.old) }
    ensures values { V.Roll.meaning values.new ≡ after_begin_both R.Roll.MOST V.Roll.MOST n k k (V.Roll.meaning values.old) }
{
    if n > R::MOST || k > V::MOST {
        return Err(Refusal::AboveMost);
    }
    rows.begin(n)?;
    values.begin(k)
}

// Strikes every number of the list, and answers how many of them stood.
pub fn strike_all<R: Roll>(roll: &mut R, numbers: &[u32]) -> u32
    ensures answer { result ≡ stood_of (R.Roll.meaning roll.old) numbers.now }
    ensures after { R.Roll.meaning roll.new ≡ struck_all (R.Roll.meaning roll.old) numbers.now }
{
    let mut stood = 0;
    for k in numbers {
        if roll.strike(*k) {
            stood += 1;
        }
    }
    stood
}
