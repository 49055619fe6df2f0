//! What a host made of a part of its table.

/// What a host made of a part of its table.
#[derive(Clone, Copy, Debug, PartialEq, Eq)]
pub enum Applied {
    /// Parts are missing.
    Part,
    /// All parts of the epoch stand.
    Active,
    /// A later epoch was seen before, or the part's epoch was given up.
    Old,
}
