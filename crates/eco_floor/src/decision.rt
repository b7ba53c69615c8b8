//! Decisions.

/// A decision on a column.
#[derive(Clone, Copy)]
pub(crate) enum Decision {
    /// The set has the column.
    Taken(usize),
    /// The set hasn't the column.
    Left(usize),
}
