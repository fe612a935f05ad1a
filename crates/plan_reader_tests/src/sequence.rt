// Files with several faults: the first in the sequence is told.
use crate::files::{Answer, FileBits};
use plan_reader::check;
use refusal::Refusal;
use std::alloc::{AllocError, Global};
use std::test::Fail;

#[test]
fn first_number_first(rt: HostRuntime) {
    for (first, second, expected) in [
        (2, 0, Refusal::OutOfRange(0)),
        (2, 255, Refusal::OutOfRange(0)),
        (1, 0, Refusal::OutOfRange(8)),
        (1, 255, Refusal::OutOfRange(8)),
        (1, 4, Refusal::CutShort(14)),
    ] {
        assert_eq!(rt; check(&[first, second]), Err(expected));
    }
}

// One table on two settings of two values each, with two rows.
fn two_rows(heap: Global, first: [u16; 2], second: [u16; 2]) -> Result<Answer, AllocError> {
    let mut bits = FileBits::new(heap);
    bits.header(2, 2, 1)?;
    bits.table(&[0, 1], 2)?;
    bits.numbers(&first)?;
    bits.numbers(&second)?;
    bits.checked()
}

#[test]
fn row_is_judged_after_its_values(rt: HostRuntime) -> Result<(), Fail> {
    for (first, second, expected) in [
        ([1, 0], [0, 1], Refusal::NotAscending(65)),
        ([1, 0], [0, 2], Refusal::OutOfRange(70)),
        ([1, 2], [0, 0], Refusal::OutOfRange(60)),
    ] {
        assert_eq!(rt; two_rows(rt.alloc(), first, second)?, Err(expected));
    }
    Ok(())
}

// Eight full tables of 512 rows, and the head of one more.
fn head_after_4096_rows(heap: Global, rows: u16) -> Result<Answer, AllocError> {
    let mut bits = FileBits::new(heap);
    bits.header(2, 32, 9)?;
    for _ in 0..8 {
        bits.pairs(512)?;
    }
    bits.table(&[0, 1], rows)?;
    bits.checked()
}

#[test]
fn row_count_is_judged_before_the_rows_so_far(rt: HostRuntime) -> Result<(), Fail> {
    for (rows, expected) in [
        (2, Refusal::TooManyRows(41197)),
        (512, Refusal::TooManyRows(41197)),
        (513, Refusal::OutOfRange(41197)),
    ] {
        assert_eq!(rt; head_after_4096_rows(rt.alloc(), rows)?, Err(expected));
    }
    Ok(())
}

#[test]
fn names_are_judged_before_the_padding(rt: HostRuntime) -> Result<(), Fail> {
    let mut bits = FileBits::new(rt.alloc());
    bits.header(2, 1, 1)?;
    bits.table(&[1], 0)?;
    bits.number(16, 0xFFFF)?;
    assert_eq!(rt; bits.checked()?, Err(Refusal::Unnamed(50)));
    Ok(())
}
