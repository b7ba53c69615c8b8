//! Columns that are kept.

/// A column that is kept, and the numbers of two rows that show that it is needed.
#[derive(Clone, Copy)]
pub struct Kept {
    /// The number of the column.
    pub column: usize,
    /// The number of the row among the ones.
    pub one: usize,
    /// The number of the row among the zeros.
    pub zero: usize,
}
