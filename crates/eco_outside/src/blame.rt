/// The answer for which a store remembers a file's name.
#[derive(Clone, Copy, PartialEq, Eq)]
pub enum Blame {
    /// A read that answered `Failed`.
    ReadFailed,
    /// A read that answered `TooLong`.
    ReadTooLong,
    /// A write that answered `Failed`.
    WriteFailed,
}
