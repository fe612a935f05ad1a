// Long random scripts of calls, on each kind beside a plain roll.
use crate::calls::Call;
use crate::plain::Plain;
use ordered_roll::OrderedRoll;
use packed_roll::PackedRoll;
use roll::Roll;
use std::process::Abort;

// A fixed sequence of numbers that look random (xorshift).
#[derive(Drop)]
struct Random {
    state: u32,
}

impl Random {
    fn next(&mut self) -> u32 {
        let mut x = self.state;
        x ^= x << 13;
        x ^= x >> 17;
        x ^= x << 5;
        self.state = x;
        x
    }

    // A number below n, or 0.
    fn below(&mut self, n: u32) -> u32 {
        let x = self.next();
        if n == 0 { 0 } else { x % n }
    }
}

// Sizes at the ends of words and of the kinds.
const SIZES: [u32; 16] = [
    0, 1, 2, 63, 64, 65, 127, 128, 129, 1000, 1023, 1024, 1025, 4095, 4096, 4097,
];

// A call: mostly strikes, up to a little beyond the size; `saves` of 300 are saves, 60 are saves or returns, and
// one is a begin.
fn choose(random: &mut Random, saves: u32, size: u32) -> Call {
    let x = random.below(300);
    if x < saves {
        Call::Save
    } else if x < 60 {
        Call::Back
    } else if x < 61 {
        Call::Begin(SIZES[(random.next() % 16) as usize])
    } else {
        Call::Strike(random.below(size.saturating_add(3)))
    }
}

// Makes the call, which is data since it was drawn, on both, which then answer and tell the same.
fn call_both<R: Roll>(rt: &impl Abort, roll: &mut R, plain: &mut Plain, call: Call) {
    match call {
        Call::Begin(n) => assert_eq!(rt; roll.begin(n), plain.begin(n)),
        Call::Strike(k) => assert_eq!(rt; roll.strike(k), plain.strike(k)),
        Call::Save => assert_eq!(rt; roll.save(), plain.save()),
        Call::Back => assert_eq!(rt; roll.back(), plain.back()),
    }
    assert_eq!(rt; roll.size(), plain.size());
    assert_eq!(rt; roll.count(), plain.count());
    assert_eq!(rt; roll.kept(), plain.kept());
    assert_eq!(rt; roll.free(), plain.free());
}

fn same_numbers<R: Roll>(rt: &impl Abort, roll: &R, plain: &Plain) {
    for k in 0..4100 {
        assert!(rt; roll.stands(k) == plain.stands(k));
        assert_eq!(rt; roll.first_from(k), plain.first_from(k));
    }
}

fn script<R: Roll + Drop>(rt: &impl Abort, seed: u32, saves: u32, calls: u32) {
    let mut random = Random { state: seed };
    let mut roll = R::new();
    let mut plain = Plain::new(R::MOST);
    for i in 0..calls {
        let call = choose(&mut random, saves, plain.size());
        call_both(rt, &mut roll, &mut plain, call);
        let place = random.below(plain.size().saturating_add(2));
        assert_eq!(rt; roll.first_from(place), plain.first_from(place));
        if i % 500 == 0 {
            same_numbers(rt, &roll, &plain);
        }
    }
}

// With as many saves as returns, and with so many more that all 32 are soon kept.
fn scripts<R: Roll + Drop>(rt: &impl Abort) {
    for seed in 1..9 {
        script::<R>(rt, seed, 30, 5000);
        script::<R>(rt, seed, 50, 5000);
    }
}

#[test]
fn packed_scripts(rt: HostRuntime) {
    scripts::<PackedRoll>(&rt);
}

#[test]
fn ordered_scripts(rt: HostRuntime) {
    scripts::<OrderedRoll>(&rt);
}
