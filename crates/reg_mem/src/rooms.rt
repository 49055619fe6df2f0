//! Rooms of buffers in which nothing was written, kept for later buffers.

ghost use Rattle.std.specs.Prelude.{◌≡◌, ◌≤◌, [], vec_capacity, IfOk};

use std::alloc::{AllocError, Global};

// The most rooms that are kept: as many buffers as a port provides.
const MOST_KEPT: usize = 64;

/// Rooms that were taken for buffers of zeros which ended as they began. A later buffer takes one of them, so that
/// memory isn't given back and asked for again. Contracts see nothing of them.
#[derive(Drop)]
pub struct Rooms {
    kept: Vec<Vec<u8>>,
}

impl Rooms {
    /// None are kept. It takes no memory, and keeps none before room was taken from it.
    pub fn new(alloc: Global) -> Rooms {
        Rooms {
            kept: Vec::new(alloc),
        }
    }

    /// Room for so many bytes: the one that was kept last, where it has enough, or a new one.
    pub(crate) fn take(&mut self, alloc: Global, len: usize) -> Result<Vec<u8>, AllocError>
        ensures empty { IfOk result (λ room. room.items ≡ []) }
        ensures room { IfOk result (λ room. len ≤ vec_capacity room) }
    {
        if let Some(room) = self.kept.pop() {
            if room.is_empty() && len <= room.capacity() {
                return Ok(room);
            }
        }
        if self.kept.capacity() < MOST_KEPT {
            self.kept.reserve(MOST_KEPT)?;
        }
        Vec::with_capacity(alloc, len)
    }

    /// Keeps a room, or lets it go where enough are kept. It takes no memory.
    pub(crate) fn keep(&mut self, room: Vec<u8>) {
        if self.kept.len() < self.kept.capacity() {
            self.kept.push_reserved(room);
        }
    }
}
