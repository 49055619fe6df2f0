//! A message between two ports.

use crate::blob::Blob;

/// A message as its sender handed it over.
#[derive(Debug, Drop)]
pub struct Message {
    /// The sending port.
    pub sport: u8,
    /// The receiving port.
    pub dport: u8,
    /// 0 or 1.
    pub prio: u8,
    /// Its bytes; a message that is accepted has at most 65,528.
    pub body: Blob,
}
