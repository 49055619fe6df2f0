//! The numbers of a part.

/// The numbers in front of a part: they name its table and its place among the parts.
#[derive(Clone, Copy)]
pub(crate) struct Head {
    pub(crate) epoch: u32,
    pub(crate) mapper: u16,
    pub(crate) dst: u16,
    pub(crate) part: u8,
    pub(crate) parts: u8,
}
