//! Why a message isn't offered.

/// A message that a connection refuses.
#[derive(Clone, Copy, Debug, PartialEq, Eq)]
pub enum OfferRefusal {
    /// It needs a number above the greatest, 4,294,967,294.
    Spent,
    /// There is no memory for it.
    NoMemory,
}
