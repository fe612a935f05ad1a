// Each count and number at its ends.
use crate::files::{Answer, FileBits, accepted};
use refusal::Refusal;
use std::alloc::{AllocError, Global};
use std::test::Fail;

#[test]
fn edition(rt: HostRuntime) -> Result<(), Fail> {
    for edition in [0, 2, 255] {
        let mut bits = FileBits::new(rt.alloc());
        bits.number(8, edition)?;
        assert_eq!(rt; bits.checked()?, Err(Refusal::OutOfRange(0)));
    }
    Ok(())
}

// As many tables, each on one setting and without rows.
fn singles(heap: Global, settings: u16, values: u16, tables: u16) -> Result<Answer, AllocError> {
    let mut bits = FileBits::new(heap);
    bits.header(settings, values, tables)?;
    for setting in 0..tables {
        bits.table(&[setting], 0)?;
    }
    bits.checked()
}

#[test]
fn settings_values_and_tables(rt: HostRuntime) -> Result<(), Fail> {
    for (settings, values, tables, expected) in [
        (0, 1, 1, Err(Refusal::OutOfRange(8))),
        (1, 0, 1, Err(Refusal::OutOfRange(14))),
        (1, 1, 0, Err(Refusal::OutOfRange(20))),
        (1, 1, 1, accepted(1, 1, 0, 1, 0)),
        (2, 32, 2, accepted(2, 2, 0, 64, 0)),
        (1, 33, 1, Err(Refusal::OutOfRange(14))),
        (16, 2, 16, accepted(16, 16, 0, 32, 0)),
        (17, 2, 17, Err(Refusal::OutOfRange(116))),
    ] {
        assert_eq!(rt; singles(rt.alloc(), settings, values, tables)?, expected);
    }
    Ok(())
}

// Four tables on eight settings each, with one row.
fn eights(heap: Global, settings: u16) -> Result<Answer, AllocError> {
    let mut bits = FileBits::new(heap);
    bits.header(settings, 1, 4)?;
    for scope in [
        [0, 1, 2, 3, 4, 5, 6, 7],
        [8, 9, 10, 11, 12, 13, 14, 15],
        [16, 17, 18, 19, 20, 21, 22, 23],
        [24, 25, 26, 27, 28, 29, 30, 31],
    ] {
        bits.table(&scope, 1)?;
        bits.numbers(&[0; 8])?;
    }
    bits.checked()
}

#[test]
fn most_settings(rt: HostRuntime) -> Result<(), Fail> {
    let heap = rt.alloc();
    assert_eq!(rt; eights(heap, 32)?, accepted(32, 4, 4, 32, 32));
    assert_eq!(rt; eights(heap, 33)?, Err(Refusal::OutOfRange(8)));
    Ok(())
}

#[test]
fn widths(rt: HostRuntime) -> Result<(), Fail> {
    let mut none = FileBits::new(rt.alloc());
    none.header(1, 1, 1)?;
    none.table(&[], 0)?;
    assert_eq!(rt; none.checked()?, Err(Refusal::OutOfRange(25)));
    let mut nine = FileBits::new(rt.alloc());
    nine.header(9, 1, 1)?;
    nine.table(&[0, 1, 2, 3, 4, 5, 6, 7, 8], 0)?;
    assert_eq!(rt; nine.checked()?, Err(Refusal::OutOfRange(73)));
    Ok(())
}

// One table on one setting of `values` values, with one row.
fn one_row(heap: Global, values: u16, setting: u16, value: u16) -> Result<Answer, AllocError> {
    let mut bits = FileBits::new(heap);
    bits.header(1, values, 1)?;
    bits.table(&[setting], 1)?;
    bits.numbers(&[value])?;
    bits.checked()
}

#[test]
fn setting_numbers_and_values(rt: HostRuntime) -> Result<(), Fail> {
    for (values, setting, value, expected) in [
        (5, 1, 0, Err(Refusal::OutOfRange(29))),
        (5, 31, 0, Err(Refusal::OutOfRange(29))),
        (5, 0, 4, accepted(1, 1, 1, 5, 8)),
        (5, 0, 5, Err(Refusal::OutOfRange(44))),
        (32, 0, 31, accepted(1, 1, 1, 32, 8)),
    ] {
        assert_eq!(rt; one_row(rt.alloc(), values, setting, value)?, expected);
    }
    Ok(())
}

// As many full tables of 512 rows, and one more table.
fn full_tables(heap: Global, full: u16, more: u16) -> Result<Answer, AllocError> {
    let mut bits = FileBits::new(heap);
    bits.header(2, 32, full.wrapping_add(1))?;
    for _ in 0..full {
        bits.pairs(512)?;
    }
    bits.pairs(more)?;
    bits.checked()
}

#[test]
fn rows(rt: HostRuntime) -> Result<(), Fail> {
    for (full, more, expected) in [
        (0, 0, accepted(2, 1, 0, 64, 0)),
        (0, 512, accepted(2, 1, 512, 64, 4096)),
        (0, 513, Err(Refusal::OutOfRange(45))),
        (0, 1023, Err(Refusal::OutOfRange(45))),
        (7, 512, accepted(2, 8, 4096, 64, 32768)),
        (8, 0, accepted(2, 9, 4096, 64, 32768)),
        (8, 1, Err(Refusal::TooManyRows(41197))),
        (8, 512, Err(Refusal::TooManyRows(41197))),
    ] {
        assert_eq!(rt; full_tables(rt.alloc(), full, more)?, expected);
    }
    Ok(())
}
