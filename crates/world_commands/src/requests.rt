//! A message that a client asks to be sent.

use fab_world::PortAt;

/// A message to be sent.
#[derive(Clone, Copy)]
pub struct SendRequest {
    /// Where it is to go.
    pub to: PortAt,
    /// Its priority: 0 or 1.
    pub prio: u8,
    /// Its length in bytes.
    pub len: u32,
    /// Of what its bytes are made.
    pub seed: u8,
}
