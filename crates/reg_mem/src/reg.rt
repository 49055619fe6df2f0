//! A registered buffer.

ghost use Rattle.std.specs.Prelude.{◌≡◌, ◌+◌, ◌≤◌, length, replicate, take, IfOk};
ghost use Rattle.gm_defs.specs.Blob.{counted};
ghost use Rattle.reg_mem.specs.Written.{written};

use crate::held::{Held, MOST_ZEROS, into_bytes, into_shared, write};
use crate::rooms::Rooms;
use gm_defs::Blob;
use std::alloc::{AllocError, Global};
use std::marker::Model;
use std::mem;

// From so many bytes on a message shares its buffer's: a page, below which the room costs as much as a copy.
const SHARED_FROM: usize = 4_096;

/// Bytes that are registered. Contracts see the list of them.
///
/// A buffer must be spent, by [`deregister`] or [`release`], and it can't be cloned; so at any time one owner has it.
pub struct Reg {
    held: Held,
}

impl Model for Reg {
    ghost use Rattle.std.specs.Prelude.{ℕ, List};

    ghost Value = { List ℕ };

    ghost use Rattle.reg_mem.specs.Held.{held_bytes, HasRoom};

    ghost view = { λ r. held_bytes r.held };

    ghost invariant = { λ r. HasRoom r.held };
}

/// Registers bytes as a buffer. Takes no memory.
pub fn register(v: Vec<u8>) -> Reg
    ensures { result ≡ v.items }
{
    Reg { held: Held::Own(v) }
}

/// A buffer of so many zeros. Up to 65,536 of them aren't written before something else is: until then the buffer takes
/// room, and no more.
pub fn zeroed(alloc: Global, len: usize) -> Result<Reg, AllocError>
    ensures { IfOk result (λ r. r ≡ replicate len 0) }
{
    let held = if len > MOST_ZEROS {
        Held::Own(vec![in alloc; 0u8; len]?)
    } else {
        Held::Zeros(len as u32, Vec::with_capacity(alloc, len)?)
    };
    Ok(Reg { held })
}

/// A buffer of so many zeros, none of which is written before something else is. Its room is one that an earlier buffer
/// left, or a new one.
pub fn zeroed_in(alloc: Global, len: usize, rooms: &mut Rooms) -> Result<Reg, AllocError>
    requires { len ≤ 65536 }
    ensures { IfOk result (λ r. r ≡ replicate len 0) }
{
    let room = rooms.take(alloc, len)?;
    Ok(Reg {
        held: Held::Zeros(len as u32, room),
    })
}

/// A buffer of so many bytes that count up from one, modulo 256, as those of a client's message do. None of them is
/// written before something else is: until then the buffer takes room, and no more.
pub fn counted(alloc: Global, first: u8, len: usize) -> Result<Reg, AllocError>
    requires { len ≤ 65536 }
    ensures { IfOk result (λ r. r ≡ counted first len) }
{
    let room = Vec::with_capacity(alloc, len)?;
    Ok(Reg {
        held: Held::Counted(first, len as u32, room),
    })
}

/// Gives the bytes of a buffer back. Takes no memory: where a message shares them, they are copied into the room that
/// was taken for that.
pub fn deregister(r: Reg) -> Vec<u8>
    ensures { result.items ≡ r }
{
    let Reg { held } = r;
    into_bytes(held)
}

/// Lets a buffer go with its bytes, which nobody wants. Copies none.
pub fn release(r: Reg) {
    let Reg { held: _ } = r;
}

/// Lets a buffer go, as [`release`] does. The room of zeros that weren't written is kept for later buffers.
pub fn release_into(r: Reg, rooms: &mut Rooms) {
    let Reg { held } = r;
    if let Held::Zeros(_, room) = held {
        rooms.keep(room);
    }
}

impl Reg {
    /// The buffer's bytes.
    pub fn bytes(&self) -> &[u8]
        ensures { result.now ≡ self.now }
    {
        self.held.bytes()
    }

    /// Writes bytes into the buffer from a place on, which must fit. The other bytes stay, and so do those of the
    /// messages that shared them.
    pub fn fill(&mut self, at: usize, b: &[u8])
        requires { at + length b.now ≤ length self.old }
        ensures { self.new ≡ written self.old at b.now }
    {
        write(&mut self.held, at, b);
    }

    /// The message of the buffer's first so many bytes. A long one shares them with the buffer, and the memory that it
    /// takes is room for the buffer's bytes, into which nothing is written before they part; a short one is a copy.
    pub fn message(&mut self, alloc: Global, len: usize) -> Result<Blob, AllocError>
        requires { len ≤ length self.old }
        ensures front { IfOk result (λ m. m ≡ take len self.old) }
        ensures stays { self.new ≡ self.old }
    {
        if len >= SHARED_FROM {
            let held = mem::replace(&mut self.held, Held::Own(Vec::new(alloc)));
            let (held, done) = into_shared(alloc, held);
            self.held = held;
            if !done {
                return Err(AllocError);
            }
        }
        self.held.front(alloc, len)
    }
}
