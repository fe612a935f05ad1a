// Files that are no plan files, and why.
use crate::files::{Answer, FileBits, P, accepted};
use plan_reader::check;
use refusal::Refusal;
use std::alloc::{AllocError, Global};
use std::test::Fail;

// The number in which P ends when it is cut to so many bytes.
const CUTS: [u32; 21] = [
    0, 8, 14, 20, 32, 37, 46, 51, 61, 71, 76, 86, 95, 100, 110, 120, 125, 135, 140, 150, 160,
];

#[test]
fn cut_short(rt: HostRuntime) {
    for (bytes, place) in CUTS.iter().enumerate() {
        assert_eq!(rt; check(&P[..bytes]), Err(Refusal::CutShort(*place)));
    }
    assert_eq!(rt; check(&P), accepted(3, 2, 6, 6, 48));
}

#[test]
fn not_padded(rt: HostRuntime) -> Result<(), Fail> {
    for last in [0x09, 0x0C, 0x0A] {
        let mut file = P;
        file[20] = last;
        assert_eq!(rt; check(&file), Err(Refusal::NotPadded(165)));
    }
    let mut longer = P.to_vec(rt.alloc())?;
    longer.push(0)?;
    assert_eq!(rt; check(longer.as_slice()), Err(Refusal::NotPadded(165)));
    longer.push(1)?;
    assert_eq!(rt; check(longer.as_slice()), Err(Refusal::NotPadded(165)));
    Ok(())
}

// A file whose bits fill its bytes, 64 of them, and then more bytes.
fn whole_bytes(heap: Global, after: &[u16]) -> Result<Answer, AllocError> {
    let mut bits = FileBits::new(heap);
    bits.header(1, 32, 1)?;
    bits.table(&[0], 4)?;
    bits.numbers(&[0, 1, 2, 31])?;
    for byte in after {
        bits.number(8, *byte)?;
    }
    bits.checked()
}

#[test]
fn byte_after_whole_bytes(rt: HostRuntime) -> Result<(), Fail> {
    assert_eq!(rt; whole_bytes(rt.alloc(), &[])?, accepted(1, 1, 4, 32, 32));
    for byte in [0, 0x80] {
        assert_eq!(rt;
            whole_bytes(rt.alloc(), &[byte])?,
            Err(Refusal::NotPadded(64))
        );
    }
    Ok(())
}

// One table on settings of three values each, with rows for three of them.
fn table_of_three(heap: Global, scope: &[u16], rows: &[[u16; 3]]) -> Result<Answer, AllocError> {
    let mut bits = FileBits::new(heap);
    bits.header(3, 3, 1)?;
    bits.table(scope, (rows.len() & 511) as u16)?;
    for row in rows {
        bits.numbers(row)?;
    }
    bits.checked()
}

#[test]
fn scopes(rt: HostRuntime) -> Result<(), Fail> {
    for (scope, expected) in [
        ([0, 1, 2], accepted(3, 1, 0, 9, 0)),
        ([0, 1, 1], Err(Refusal::NotAscending(51))),
        ([0, 2, 1], Err(Refusal::NotAscending(51))),
        ([1, 0, 2], Err(Refusal::NotAscending(46))),
        ([0, 0, 2], Err(Refusal::NotAscending(46))),
    ] {
        assert_eq!(rt; table_of_three(rt.alloc(), &scope, &[])?, expected);
    }
    Ok(())
}

#[test]
fn rows(rt: HostRuntime) -> Result<(), Fail> {
    for (rows, expected) in [
        ([[0, 0, 0], [0, 1, 0], [1, 0, 0]], accepted(3, 1, 3, 9, 24)),
        (
            [[0, 2, 1], [0, 2, 1], [1, 0, 0]],
            Err(Refusal::NotAscending(81)),
        ),
        (
            [[1, 0, 0], [0, 2, 2], [1, 0, 0]],
            Err(Refusal::NotAscending(81)),
        ),
        (
            [[0, 0, 0], [0, 1, 2], [0, 1, 1]],
            Err(Refusal::NotAscending(96)),
        ),
        (
            [[0, 0, 2], [0, 1, 1], [0, 1, 1]],
            Err(Refusal::NotAscending(96)),
        ),
    ] {
        assert_eq!(rt; table_of_three(rt.alloc(), &[0, 1, 2], &rows)?, expected);
    }
    Ok(())
}

#[test]
fn unnamed(rt: HostRuntime) -> Result<(), Fail> {
    for scope in [[0, 1], [0, 2], [1, 2]] {
        assert_eq!(rt;
            table_of_three(rt.alloc(), &scope, &[])?,
            Err(Refusal::Unnamed(61))
        );
    }
    Ok(())
}
