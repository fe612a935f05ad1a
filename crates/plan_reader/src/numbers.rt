// How large the plan of a file is.
#[derive(Clone, Copy, Debug, PartialEq, Eq)]
pub struct Numbers {
    pub settings: u32,
    pub tables: u32,
    pub rows: u32,
    pub values: u32,
    // The cells to reserve for opening the file.
    pub cells: u32,
}
