// Worked examples, each on both kinds.
use crate::calls::Returned::{Answered, Struck};
use crate::calls::{Call, Returned, Seen, make};
use ordered_roll::OrderedRoll;
use packed_roll::PackedRoll;
use refusal::Refusal::{AboveMost, NoSaveFree, NoSaveKept};
use roll::{Roll, begin_both, strike_all};
use std::process::Abort;

const DONE: Returned = Answered(Ok(()));

// A call, what it returns, and size, count, kept and free after it.
type Row = (Call, Returned, u32, u32, u32, u32);

fn table<R: Roll>(rt: &impl Abort, roll: &mut R, rows: &[Row]) {
    for &(call, returned, size, count, kept, free) in rows {
        assert_eq!(rt;
            make(roll, call),
            Seen {
                returned,
                size,
                count,
                kept,
                free,
            }
        );
    }
}

// 65 numbers: strike 63, save, strike 64, back: 64 numbers stand, 63 is out.
fn goes_back<R: Roll + Drop>(rt: &impl Abort) {
    let mut roll = R::new();
    table(
        rt,
        &mut roll,
        &[
            (Call::Begin(65), DONE, 65, 65, 0, 32),
            (Call::Strike(63), Struck(true), 65, 64, 0, 32),
            (Call::Save, DONE, 65, 64, 1, 31),
            (Call::Strike(64), Struck(true), 65, 63, 1, 31),
            (Call::Strike(64), Struck(false), 65, 63, 1, 31),
            (Call::Back, DONE, 65, 64, 0, 32),
        ],
    );
    assert!(rt; !roll.stands(63));
    assert!(rt; roll.stands(64));
}

// 32 saves are kept and the next is declined; after a back there is room for one again, as often as wanted.
fn keeps_32_saves<R: Roll + Drop>(rt: &impl Abort) {
    let mut roll = R::new();
    for kept in 0..32 {
        let seen = Seen {
            returned: DONE,
            size: 0,
            count: 0,
            kept: kept + 1,
            free: 31 - kept,
        };
        assert_eq!(rt; make(&mut roll, Call::Save), seen);
    }
    for _ in 0..100 {
        table(
            rt,
            &mut roll,
            &[
                (Call::Save, Answered(Err(NoSaveFree)), 0, 0, 32, 0),
                (Call::Save, Answered(Err(NoSaveFree)), 0, 0, 32, 0),
                (Call::Back, DONE, 0, 0, 31, 1),
                (Call::Save, DONE, 0, 0, 32, 0),
            ],
        );
    }
    for back in 0..32 {
        let seen = Seen {
            returned: DONE,
            size: 0,
            count: 0,
            kept: 31 - back,
            free: back + 1,
        };
        assert_eq!(rt; make(&mut roll, Call::Back), seen);
    }
    table(
        rt,
        &mut roll,
        &[(Call::Back, Answered(Err(NoSaveKept)), 0, 0, 0, 32)],
    );
}

// Each of 32 saves has one number fewer; going back gives them back one by one.
fn goes_back_32_times<R: Roll + Drop>(rt: &impl Abort) {
    let mut roll = R::new();
    assert_eq!(rt; roll.begin(130), Ok(()));
    for k in 0..32 {
        assert_eq!(rt; roll.save(), Ok(()));
        assert!(rt; roll.strike(4 * k));
        assert_eq!(rt; roll.first_from(4 * k), Some(4 * k + 1));
    }
    for back in 0..32 {
        assert!(rt; !roll.stands(124 - 4 * back));
        let seen = Seen {
            returned: DONE,
            size: 130,
            count: 99 + back,
            kept: 31 - back,
            free: back + 1,
        };
        assert_eq!(rt; make(&mut roll, Call::Back), seen);
        assert!(rt; roll.stands(124 - 4 * back));
    }
    assert_eq!(rt; roll.first_from(0), Some(0));
}

// Without a save there is no way back: on a new roll, on one begun, and after the last save.
fn needs_a_save<R: Roll + Drop>(rt: &impl Abort) {
    let mut roll = R::new();
    table(
        rt,
        &mut roll,
        &[
            (Call::Back, Answered(Err(NoSaveKept)), 0, 0, 0, 32),
            (Call::Begin(10), DONE, 10, 10, 0, 32),
            (Call::Back, Answered(Err(NoSaveKept)), 10, 10, 0, 32),
            (Call::Save, DONE, 10, 10, 1, 31),
            (Call::Strike(3), Struck(true), 10, 9, 1, 31),
            (Call::Back, DONE, 10, 10, 0, 32),
            (Call::Strike(4), Struck(true), 10, 9, 0, 32),
            (Call::Back, Answered(Err(NoSaveKept)), 10, 9, 0, 32),
        ],
    );
}

// The most of the kind is taken; one more is declined, and alters nothing.
fn begins_up_to<R: Roll + Drop>(rt: &impl Abort, most: u32) {
    assert_eq!(rt; R::MOST, most);
    let last = most.saturating_sub(1);
    let more = most.saturating_add(1);
    let mut roll = R::new();
    table(
        rt,
        &mut roll,
        &[
            (Call::Begin(most), DONE, most, most, 0, 32),
            (Call::Strike(last), Struck(true), most, last, 0, 32),
            (Call::Save, DONE, most, last, 1, 31),
            (
                Call::Begin(more),
                Answered(Err(AboveMost)),
                most,
                last,
                1,
                31,
            ),
            (
                Call::Begin(u32::MAX),
                Answered(Err(AboveMost)),
                most,
                last,
                1,
                31,
            ),
        ],
    );
    assert_eq!(rt; roll.first_from(last), None);
}

// Begin on a used roll forgets all strikes and saves, whether the size grows or falls.
fn begins_again<R: Roll + Drop>(rt: &impl Abort) {
    let mut roll = R::new();
    table(
        rt,
        &mut roll,
        &[
            (Call::Begin(100), DONE, 100, 100, 0, 32),
            (Call::Strike(5), Struck(true), 100, 99, 0, 32),
            (Call::Save, DONE, 100, 99, 1, 31),
            (Call::Strike(70), Struck(true), 100, 98, 1, 31),
            (Call::Begin(6), DONE, 6, 6, 0, 32),
            (Call::Strike(6), Struck(false), 6, 6, 0, 32),
            (Call::Strike(70), Struck(false), 6, 6, 0, 32),
            (Call::Back, Answered(Err(NoSaveKept)), 6, 6, 0, 32),
            (Call::Begin(100), DONE, 100, 100, 0, 32),
            (Call::Strike(5), Struck(true), 100, 99, 0, 32),
            (Call::Strike(70), Struck(true), 100, 98, 0, 32),
            (Call::Begin(0), DONE, 0, 0, 0, 32),
            (Call::Strike(0), Struck(false), 0, 0, 0, 32),
        ],
    );
    assert_eq!(rt; roll.first_from(0), None);
}

// Strikes at the ends of words, at the last number, and beyond the size.
fn strikes_at_the_ends<R: Roll + Drop>(rt: &impl Abort) {
    let mut roll = R::new();
    table(
        rt,
        &mut roll,
        &[
            (Call::Begin(130), DONE, 130, 130, 0, 32),
            (Call::Strike(0), Struck(true), 130, 129, 0, 32),
            (Call::Strike(0), Struck(false), 130, 129, 0, 32),
            (Call::Strike(63), Struck(true), 130, 128, 0, 32),
            (Call::Strike(64), Struck(true), 130, 127, 0, 32),
            (Call::Strike(129), Struck(true), 130, 126, 0, 32),
            (Call::Strike(129), Struck(false), 130, 126, 0, 32),
            (Call::Strike(130), Struck(false), 130, 126, 0, 32),
            (Call::Strike(191), Struck(false), 130, 126, 0, 32),
            (Call::Strike(192), Struck(false), 130, 126, 0, 32),
            (Call::Strike(1024), Struck(false), 130, 126, 0, 32),
            (Call::Strike(4096), Struck(false), 130, 126, 0, 32),
            (Call::Strike(u32::MAX), Struck(false), 130, 126, 0, 32),
        ],
    );
}

// The first number from a place on, across words.
fn finds_the_first<R: Roll + Drop>(rt: &impl Abort) {
    let mut roll = R::new();
    assert_eq!(rt; roll.first_from(0), None);
    assert_eq!(rt; roll.begin(300), Ok(()));
    for k in 0..300 {
        if k != 0 && k != 63 && k != 64 && k != 200 && k != 299 {
            assert!(rt; roll.strike(k));
        }
    }
    let places = [
        (0, 0),
        (1, 63),
        (62, 63),
        (63, 63),
        (64, 64),
        (65, 200),
        (128, 200),
        (200, 200),
        (201, 299),
        (299, 299),
    ];
    for (place, first) in places {
        assert_eq!(rt; roll.first_from(place), Some(first));
    }
    assert_eq!(rt; roll.first_from(300), None);
    assert_eq!(rt; roll.first_from(5000), None);
    assert_eq!(rt; roll.first_from(u32::MAX), None);
}

// Two rolls are begun or neither, and a list of numbers is struck at once.
fn serves_generic_calls<R: Roll + Drop, V: Roll + Drop>(rt: &impl Abort) {
    let mut rows = R::new();
    let mut values = V::new();
    assert_eq!(rt;
        begin_both(&mut rows, &mut values, R::MOST.saturating_add(1), 7),
        Err(AboveMost)
    );
    assert_eq!(rt;
        begin_both(&mut rows, &mut values, 7, V::MOST.saturating_add(1)),
        Err(AboveMost)
    );
    assert_eq!(rt; rows.size() + values.size(), 0);
    assert_eq!(rt;
        begin_both(&mut rows, &mut values, R::MOST, V::MOST),
        Ok(())
    );
    assert_eq!(rt; rows.size(), R::MOST);
    assert_eq!(rt; values.size(), V::MOST);
    assert_eq!(rt; begin_both(&mut rows, &mut values, 70, 40), Ok(()));
    assert_eq!(rt; strike_all(&mut rows, &[0, 69, 70, 0, 64, 1000]), 3);
    assert_eq!(rt; strike_all(&mut values, &[]), 0);
    assert_eq!(rt; (rows.count(), values.count()), (67, 40));
}

fn each<R: Roll + Drop>(rt: &impl Abort, most: u32) {
    goes_back::<R>(rt);
    keeps_32_saves::<R>(rt);
    goes_back_32_times::<R>(rt);
    needs_a_save::<R>(rt);
    begins_up_to::<R>(rt, most);
    begins_again::<R>(rt);
    strikes_at_the_ends::<R>(rt);
    finds_the_first::<R>(rt);
}

#[test]
fn packed_examples(rt: HostRuntime) {
    each::<PackedRoll>(&rt, 4096);
}

#[test]
fn ordered_examples(rt: HostRuntime) {
    each::<OrderedRoll>(&rt, 1024);
}

#[test]
fn refusals_have_numbers(rt: HostRuntime) {
    assert_eq!(rt; AboveMost.number(), 9);
    assert_eq!(rt; NoSaveFree.number(), 11);
    assert_eq!(rt; NoSaveKept.number(), 12);
}

#[test]
fn generic_calls(rt: HostRuntime) {
    serves_generic_calls::<PackedRoll, OrderedRoll>(&rt);
    serves_generic_calls::<OrderedRoll, PackedRoll>(&rt);
    serves_generic_calls::<PackedRoll, PackedRoll>(&rt);
    serves_generic_calls::<OrderedRoll, OrderedRoll>(&rt);
}
