//! The bytes of a message.

ghost use Rattle.std.specs.Prelude.{◌≡◌, ◌≤◌, ◌++◌, [], length, take, true, IfOk, IfErr, OnOk, OnErr, IfSome};
ghost use Rattle.gm_defs.specs.Blob.{counted, held_bytes, IsWithin};

use crate::counting::{counted_bytes, goes_on};
use std::alloc::{AllocError, AllocFailed, Global};
use std::marker::Model;
use std::sync::Arc;

/// Bytes that are kept whole. Contracts see the list of them.
///
/// Several blobs can be fronts of one block, so that the bytes lie in memory once. Bytes that count up, as those of a
/// client's message do, lie in the program, and a blob of them takes no memory.
#[derive(Debug, Drop)]
pub struct Blob {
    held: Held,
}

// Where the bytes are.
#[derive(Debug, Drop)]
pub(crate) enum Held {
    // They are the blob's own.
    Own(Vec<u8>),
    // So many bytes in front of a block that other blobs can see too.
    Front(Arc<Vec<u8>, Global>, usize),
    // They count up from this one, and are so many.
    Counted(u8, usize),
}

impl Model for Blob {
    ghost use Rattle.std.specs.Prelude.{ℕ, List};

    ghost Value = { List ℕ };

    ghost use Rattle.gm_defs.specs.Blob.{held_bytes, IsWithin};

    ghost view = { λ b. held_bytes b.held };

    ghost invariant = { λ b. IsWithin b.held };
}

impl Blob {
    /// The blob of these bytes. Takes no memory.
    pub fn new(bytes: Vec<u8>) -> Blob
        ensures { result ≡ bytes.items }
    {
        Blob {
            held: Held::Own(bytes),
        }
    }

    /// The blob of these bytes, in a block of which others can be fronts. It copies none. Running out of memory hands
    /// the bytes back.
    pub fn shared(alloc: Global, bytes: Vec<u8>) -> Result<Blob, AllocFailed<Vec<u8>>>
        ensures ok { IfOk result (λ b. b ≡ bytes.items) }
        ensures handed_back { IfErr result (λ e. e.value.items ≡ bytes.items) }
    {
        let len = bytes.len();
        Ok(Blob {
            held: Held::Front(Arc::new(alloc, bytes)?, len),
        })
    }

    /// The blob of so many bytes that count up from one, modulo 256. Takes no memory.
    pub fn counted(first: u8, len: usize) -> Blob
        requires { len ≤ 65536 }
        ensures { result ≡ counted first len }
    {
        Blob {
            held: Held::Counted(first, len),
        }
    }

    /// The blob of no bytes. Takes no memory.
    pub fn empty() -> Blob
        ensures { result ≡ [] }
    {
        Blob::counted(0, 0)
    }

    /// Another blob, of the first so many bytes. It copies them only where they are this blob's own.
    pub fn front(&self, alloc: Global, len: usize) -> Result<Blob, AllocError>
        requires { len ≤ length self.now }
        ensures { IfOk result (λ b. b ≡ take len self.now) }
    {
        match &self.held {
            Held::Own(bytes) => Ok(Blob::new(bytes[..len].to_vec(alloc)?)),
            Held::Front(block, _) => Ok(Blob {
                held: Held::Front(Arc::try_clone(block)?, len),
            }),
            Held::Counted(first, _) => Ok(Blob::counted(*first, len)),
        }
    }

    /// Puts bytes after its own. No memory is taken as long as all of them count up; else room is, for so many more at
    /// once. Running out of memory changes nothing.
    pub fn append(&mut self, alloc: Global, part: &[u8], more: usize) -> Result<(), AllocError>
        ensures ok { OnOk result (self.new ≡ self.old ++ part.now) }
        ensures err { OnErr result (self.new ≡ self.old) }
    {
        if let Some(longer) = self.counted_with(part) {
            *self = longer;
            return Ok(());
        }
        match &mut self.held {
            Held::Own(bytes) => {
                bytes.reserve(part.len().saturating_add(more))?;
                bytes.extend_from_slice(part)
            }
            Held::Front(..) | Held::Counted(..) => self.write_out(alloc, part, more),
        }
    }

    // The blob with these bytes after its own, where all of them count up.
    fn counted_with(&self, part: &[u8]) -> Option<Blob>
        ensures { IfSome result (λ b. self.now ++ part.now ≡ b) }
    {
        let Held::Counted(first, len) = &self.held else {
            return None;
        };
        match goes_on(*first, *len, part) {
            Some(first) => Some(Blob::counted(first, *len + part.len())),
            None => None,
        }
    }

    // Copies the bytes, puts others after them, and takes room for so many more.
    fn write_out(&mut self, alloc: Global, part: &[u8], more: usize) -> Result<(), AllocError>
        ensures ok { OnOk result (self.new ≡ self.old ++ part.now) }
        ensures err { OnErr result (self.new ≡ self.old) }
    {
        let mut bytes = self.bytes().to_vec(alloc)?;
        bytes.reserve(part.len().saturating_add(more))?;
        bytes.extend_from_slice(part)?;
        *self = Blob::new(bytes);
        Ok(())
    }

    /// Its bytes.
    pub fn bytes(&self) -> &[u8]
        ensures { result.now ≡ self.now }
    {
        match &self.held {
            Held::Own(bytes) => bytes,
            Held::Front(block, len) => &block[..*len],
            Held::Counted(first, len) => counted_bytes(*first, *len),
        }
    }
}
