use plan_reader::{Numbers, check};
use refusal::Refusal;
use std::alloc::{AllocError, Global};

// What `check` answers.
pub(crate) type Answer = Result<Numbers, Refusal>;

// Plan P: three settings of two values each; table 0 on 0, 1 with the rows 00, 01, 11; table 1 on
// 0, 1, 2 with the rows 000, 011, 101.
pub(crate) const P: [u8; 21] = [
    0x01, 0x0C, 0x20, 0x82, 0x11, 0x00, 0x20, 0x18, 0x00, 0x00, 0x84, 0x26, 0x00, 0x88, 0x03, 0x00,
    0x00, 0x00, 0x84, 0x20, 0x08,
];

pub(crate) fn accepted(settings: u32, tables: u32, rows: u32, values: u32, cells: u32) -> Answer {
    Ok(Numbers {
        settings,
        tables,
        rows,
        values,
        cells,
    })
}

// Eight bits as one byte, the first as its most significant bit. Where there are fewer, zero bits
// follow them.
fn byte_of(bits: &[bool]) -> u8 {
    (0..8).fold(
        0,
        |byte, i| byte << 1 | u8::from(bits.get(i) == Some(&true)),
    )
}

// A file that is built from numbers, most significant bit first.
#[derive(Drop)]
pub(crate) struct FileBits {
    bits: Vec<bool>,
}

impl FileBits {
    pub(crate) fn new(heap: Global) -> Self {
        FileBits {
            bits: Vec::new(heap),
        }
    }

    pub(crate) fn number(&mut self, width: u32, value: u16) -> Result<(), AllocError> {
        self.bits
            .extend((0..width).rev().map(|i| value.rotate_right(i) & 1 == 1))
    }

    // Numbers of 5 bits: setting numbers or values.
    pub(crate) fn numbers(&mut self, values: &[u16]) -> Result<(), AllocError> {
        for value in values {
            self.number(5, *value)?;
        }
        Ok(())
    }

    // Edition, setting count, the same value count for each setting, and the table count.
    pub(crate) fn header(
        &mut self,
        settings: u16,
        values: u16,
        tables: u16,
    ) -> Result<(), AllocError> {
        self.number(8, 1)?;
        self.number(6, settings)?;
        for _ in 0..settings {
            self.number(6, values)?;
        }
        self.number(5, tables)
    }

    // A table up to its row count.
    pub(crate) fn table(&mut self, scope: &[u16], rows: u16) -> Result<(), AllocError> {
        self.number(4, (scope.len() & 15) as u16)?;
        self.numbers(scope)?;
        self.number(10, rows)
    }

    // A table on the settings 0 and 1 with the first `rows` pairs of 32 values each.
    pub(crate) fn pairs(&mut self, rows: u16) -> Result<(), AllocError> {
        self.table(&[0, 1], rows)?;
        for row in 0..rows {
            self.number(10, row)?;
        }
        Ok(())
    }

    // Checks the file, padded to whole bytes.
    pub(crate) fn checked(&self) -> Result<Answer, AllocError> {
        let heap = *self.bits.allocator();
        let bytes: Vec<u8> = self.bits.chunks(8).map(byte_of).collect(heap)?;
        Ok(check(bytes.as_slice()))
    }
}
