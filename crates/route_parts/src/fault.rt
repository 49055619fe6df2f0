//! Why bytes are no body.

/// Why bytes can't be read as a part of a table, or as its acknowledgement.
#[derive(Clone, Copy, Debug, PartialEq, Eq)]
pub enum BodyFault {
    /// They are none.
    Malformed,
    /// Memory ran out for bytes that are a body.
    NoMemory,
}
