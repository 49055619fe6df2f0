//! The bytes of a client's buffers, as they are made.

ghost use Rattle.std.specs.Prelude.{◌≡◌, ◌≤◌, IfOk};
ghost use Rattle.gm_defs.specs.Body.{message_limit};
ghost use Rattle.world_defs.specs.Client.{client_bytes, empty_buffer};

use gm_defs::counted_bytes;
use reg_mem::{Reg, Rooms, counted, zeroed, zeroed_in};
use std::alloc::{AllocError, Global};

/// The bytes of a client's message: the first is the seed, and each is one more than the one before it, modulo 256.
pub fn client_bytes(alloc: Global, len: u32, seed: u8) -> Result<Vec<u8>, AllocError>
    requires { len ≤ message_limit }
    ensures { IfOk result (λ v. v.items ≡ client_bytes len seed) }
{
    counted_bytes(seed, len as usize).to_vec(alloc)
}

/// A new buffer of the bytes of a client's message, none of which is written yet.
pub fn client_buffer(alloc: Global, len: u32, seed: u8) -> Result<Reg, AllocError>
    requires { len ≤ message_limit }
    ensures { IfOk result (λ r. r ≡ client_bytes len seed) }
{
    counted(alloc, seed, len as usize)
}

/// A new buffer of zeros, as many as its size has room for, none of which is written yet.
pub fn zero_buffer(alloc: Global, size: u8) -> Result<Reg, AllocError>
    requires least { 4 ≤ size }
    requires greatest { size ≤ 16 }
    ensures { IfOk result (λ r. r ≡ empty_buffer size) }
{
    zeroed(alloc, (1usize << size).saturating_sub(8))
}

/// The same, in room that an earlier buffer left, where there is some.
pub fn zero_buffer_in(alloc: Global, size: u8, rooms: &mut Rooms) -> Result<Reg, AllocError>
    requires least { 4 ≤ size }
    requires greatest { size ≤ 16 }
    ensures { IfOk result (λ r. r ≡ empty_buffer size) }
{
    zeroed_in(alloc, (1usize << size).saturating_sub(8), rooms)
}
