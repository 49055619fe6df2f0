//! Where the bytes of a buffer are.

ghost use Rattle.std.specs.Prelude.{◌≡◌, ◌+◌, ◌≤◌, ◌++◌, [], length, replicate, take, true, IfOk, vec_capacity};
ghost use Rattle.reg_mem.specs.Written.{written};
ghost use Rattle.reg_mem.specs.Held.{held_bytes, HasRoom, IsRoomy, is_own};

use gm_defs::{Blob, counted_bytes};
use std::alloc::{AllocError, Global};
use std::mem;

/// How many zeros can be held unwritten.
pub(crate) const MOST_ZEROS: usize = 65_536;

// How many zeros are written at once.
const PIECE: usize = 1_024;

static ZEROS: [u8; MOST_ZEROS] = [0; MOST_ZEROS];

/// The bytes of a buffer. Where they lie elsewhere there is room for them, in which nothing is, should one be written.
#[derive(Drop)]
pub(crate) enum Held {
    /// They are the buffer's own.
    Own(Vec<u8>),
    /// So many zeros, of which none was written.
    Zeros(u32, Vec<u8>),
    /// They count up from this one, are so many, and none was written.
    Counted(u8, u32, Vec<u8>),
    /// Messages share them.
    Shared(Box<Sharing>),
}

/// Bytes that messages share, and room for them.
#[derive(Drop)]
pub(crate) struct Sharing {
    whole: Blob,
    room: Vec<u8>,
}

impl Held {
    /// The bytes.
    pub(crate) fn bytes(&self) -> &[u8]
        requires { HasRoom self.now }
        ensures { result.now ≡ held_bytes self.now }
    {
        match self {
            Held::Own(bytes) => bytes,
            Held::Zeros(len, _room) => zeros(*len as usize),
            Held::Counted(first, len, _room) => counted_bytes(*first, *len as usize),
            Held::Shared(both) => both.whole.bytes(),
        }
    }

    /// A blob of the first so many bytes, which shares them where messages do, and takes no memory where they count up.
    pub(crate) fn front(&self, alloc: Global, len: usize) -> Result<Blob, AllocError>
        requires room { HasRoom self.now }
        requires front { len ≤ length (held_bytes self.now) }
        ensures { IfOk result (λ b. b ≡ take len (held_bytes self.now)) }
    {
        match self {
            Held::Own(_) | Held::Zeros(..) => Ok(Blob::new(self.bytes()[..len].to_vec(alloc)?)),
            Held::Counted(first, all, _room) => {
                Blob::counted(*first, *all as usize).front(alloc, len)
            }
            Held::Shared(both) => both.whole.front(alloc, len),
        }
    }
}

/// The same bytes, so that messages can share them, and whether there was memory for that.
pub(crate) fn into_shared(alloc: Global, held: Held) -> (Held, bool)
    requires { HasRoom held }
    ensures bytes { held_bytes result.0 ≡ held_bytes held }
    ensures room { HasRoom result.0 }
{
    match held {
        Held::Own(bytes) => share(alloc, bytes),
        Held::Zeros(len, mut room) => share(alloc, zero_filled(&mut room, len as usize)),
        Held::Counted(first, len, room) => (Held::Counted(first, len, room), true),
        Held::Shared(both) => (Held::Shared(both), true),
    }
}

// Takes room for bytes, and puts them where messages can share them.
fn share(alloc: Global, bytes: Vec<u8>) -> (Held, bool)
    ensures bytes { held_bytes result.0 ≡ bytes.items }
    ensures room { HasRoom result.0 }
{
    match Vec::with_capacity(alloc, bytes.len()) {
        Ok(room) => match Blob::shared(alloc, bytes) {
            Ok(whole) => share_in(alloc, Sharing { whole, room }),
            Err(failed) => (Held::Own(failed.value), false),
        },
        Err(_) => (Held::Own(bytes), false),
    }
}

// Puts bytes with the room for them where a buffer finds both; or writes them there where there is no memory for that.
fn share_in(alloc: Global, both: Sharing) -> (Held, bool)
    requires { IsRoomy both }
    ensures bytes { held_bytes result.0 ≡ both.whole }
    ensures room { HasRoom result.0 }
{
    match Box::new(alloc, both) {
        Ok(both) => (Held::Shared(both), true),
        Err(failed) => (Held::Own(parted(failed.value)), false),
    }
}

// Bytes that messages share, in the room that was taken for them.
fn parted(both: Sharing) -> Vec<u8>
    requires { IsRoomy both }
    ensures { result.items ≡ both.whole }
{
    let Sharing { whole, mut room } = both;
    filled(&mut room, whole.bytes())
}

/// The bytes, in the buffer's own memory. Takes no memory.
pub(crate) fn into_bytes(held: Held) -> Vec<u8>
    requires { HasRoom held }
    ensures { result.items ≡ held_bytes held }
{
    match held {
        Held::Own(bytes) => bytes,
        Held::Zeros(len, mut room) => zero_filled(&mut room, len as usize),
        Held::Counted(first, len, mut room) => {
            filled(&mut room, counted_bytes(first, len as usize))
        }
        Held::Shared(both) => parted(Box::into_inner(both)),
    }
}

/// Writes bytes from a place on. Takes no memory: the buffer parts from the messages that share its bytes.
pub(crate) fn write(held: &mut Held, at: usize, b: &[u8])
    requires room { HasRoom held.old }
    requires fits { at + length b.now ≤ length (held_bytes held.old) }
    ensures bytes { held_bytes held.new ≡ written (held_bytes held.old) at b.now }
    ensures room { HasRoom held.new }
{
    part(held);
    match held {
        Held::Own(bytes) => bytes[at..at + b.len()].copy_from_slice(b),
        Held::Zeros(..) | Held::Counted(..) | Held::Shared(..) => unreachable!(),
    }
}

// Parts from the messages that share the bytes, and writes out what wasn't written.
fn part(held: &mut Held)
    requires { HasRoom held.old }
    ensures bytes { held_bytes held.new ≡ held_bytes held.old }
    ensures own { is_own held.new ≡ true }
{
    match held {
        Held::Own(_) => {}
        Held::Zeros(len, room) => {
            let bytes = zero_filled(room, *len as usize);
            *held = Held::Own(bytes);
        }
        Held::Counted(first, len, room) => {
            let bytes = filled(room, counted_bytes(*first, *len as usize));
            *held = Held::Own(bytes);
        }
        Held::Shared(both) => {
            let both = &mut **both;
            let bytes = filled(&mut both.room, both.whole.bytes());
            *held = Held::Own(bytes);
        }
    }
}

// Bytes, in the room that was taken for them.
fn filled(room: &mut Vec<u8>, bytes: &[u8]) -> Vec<u8>
    requires empty { room.old.items ≡ [] }
    requires room { length bytes.now ≤ vec_capacity room.old }
    ensures { result.items ≡ bytes.now }
{
    let mut whole = Vec::new(*room.allocator());
    mem::swap(room, &mut whole);
    match whole.extend_from_slice(bytes) {
        Ok(()) => whole,
        Err(_) => unreachable!(),
    }
}

// So many zeros, in the room that was taken for them. They are written piece by piece: a short piece is written by wide
// stores.
fn zero_filled(room: &mut Vec<u8>, len: usize) -> Vec<u8>
    requires empty { room.old.items ≡ [] }
    requires room { len ≤ vec_capacity room.old }
    requires few { len ≤ 65536 }
    ensures { result.items ≡ replicate len 0 }
{
    let mut whole = Vec::new(*room.allocator());
    mem::swap(room, &mut whole);
    'zeroing: while whole.len() < len {
        let count = (len - whole.len()).min(PIECE);
        append_zeros(&mut whole, count);
    }
    whole
}

// So many zeros after others, where there is room for them.
fn append_zeros(whole: &mut Vec<u8>, count: usize)
    requires few { count ≤ 65536 }
    requires room { length whole.old.items + count ≤ vec_capacity whole.old }
    ensures zeros { whole.new.items ≡ whole.old.items ++ replicate count 0 }
    ensures capacity { vec_capacity whole.old ≤ vec_capacity whole.new }
{
    match whole.extend_from_slice(zeros(count)) {
        Ok(()) => {}
        Err(_) => unreachable!(),
    }
}

// So many zeros. They lie in the program, and take no memory.
fn zeros(len: usize) -> &'static [u8]
    requires { len ≤ 65536 }
    ensures { result.now ≡ replicate len 0 }
{
    &ZEROS[..len]
}
