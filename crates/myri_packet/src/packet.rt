//! A packet: reading it, stripping it, flipping it.

ghost use Rattle.std.specs.Prelude.{◌≡◌, ◌<◌, ◌≤◌, ◌++◌, ◌∷◌, [], length, nat_eq, IfOk, IfErr, OnOk, OnErr, OnSome};
ghost use Rattle.std.specs.Prelude.{IfNone, None, Some, IsSome, ◌+◌, ◌*◌};
ghost use Rattle.net_defs.specs.Refusal.{Refuses};
ghost use Rattle.packet_defs.specs.Packet.{head, crc_byte, difference, front_turn, stripped, with_crc};
ghost use Rattle.packet_defs.specs.Burst.{flipped, masked};
ghost use Rattle.myri_packet.specs.Refusals.{wire_refusal, flip_refusal};

use bytes::{Buf, BytesMut};
use crc_eight::crc;
use packet_defs::turn_of;
use std::alloc::{AllocError, Global};
use std::marker::Model;

/// The most bytes of a packet: 64 route bytes, the type, a payload of 1,040 bytes, and the CRC.
pub const MAX_BYTES: usize = 1107;

/// Why bytes are no packet. The first that holds is named.
#[derive(Clone, Copy, Debug, PartialEq, Eq)]
pub enum WireFault {
    /// There are none, so there is no CRC.
    Empty,
    /// There are more than 1,107.
    TooLong,
    /// Memory ran out for bytes that are a packet.
    NoMemory,
}

/// Why a packet can't be flipped so. The first that holds is named.
#[derive(Clone, Copy, Debug, PartialEq, Eq)]
pub enum FlipRefusal {
    /// The pattern is 0.
    NoPattern,
    /// The pattern's last bit lies past the packet's end.
    OutOfPacket,
    /// A flip takes no memory as packets stand now, each with bytes of its own.
    NoMemory,
}

/// From 1 to 1,107 bytes, of which the last is the CRC. Contracts see the list of them.
///
/// What is kept of the CRC is how far it is from the one that is due. No strip changes that, so a packet that was built
/// has its CRC without a computation, at every switch.
#[derive(Drop)]
pub struct Packet {
    // The head's bytes. A strip reads the front one off: no byte moves, and no memory is taken.
    head: BytesMut,
    // The difference between the CRC and the one due to the head.
    difference: u8,
}

impl Model for Packet {
    ghost use Rattle.std.specs.Prelude.{List, ℕ, ◌≤◌, length};
    ghost use Rattle.myri_packet.specs.Kept.{wire_of};

    ghost Value = { List ℕ };

    ghost view = { λ p. wire_of p.head.items p.difference };

    ghost invariant = { λ p. length p.head.items ≤ 1106 };
}

impl Packet {
    /// The packet of these bytes, whatever they say.
    pub fn from_wire(alloc: Global, bytes: &[u8]) -> Result<Packet, WireFault>
        ensures ok { IfOk result (λ p. p ≡ bytes.now) }
        ensures refused { Refuses (wire_refusal bytes.now) WireFault.NoMemory result }
    {
        if bytes.is_empty() {
            return Err(WireFault::Empty);
        }
        if bytes.len() > MAX_BYTES {
            return Err(WireFault::TooLong);
        }
        let last = bytes.len() - 1;
        match BytesMut::copy_from_slice(alloc, &bytes[..last]) {
            Ok(head) => Ok(Packet::with_check(head, bytes[last])),
            Err(_) => Err(WireFault::NoMemory),
        }
    }

    // The packet of a head, with the CRC that is due to it.
    pub(crate) fn of_head(head: Vec<u8>) -> Packet
        requires { length head.items < MAX_BYTES }
        ensures { result ≡ with_crc head.items }
    {
        Packet {
            head: BytesMut::from_vec(head),
            difference: 0,
        }
    }

    /// The packet of no head: what a packet is before it is written.
    pub fn unwritten(alloc: Global) -> Packet
        ensures { result ≡ with_crc [] }
    {
        Packet {
            head: BytesMut::new(alloc),
            difference: 0,
        }
    }

    /// Becomes the packet of a head, with the CRC that is due to it, in the buffer that it has. Where memory runs out
    /// it is as unwritten.
    pub fn write(&mut self, head: &[u8]) -> Result<(), AllocError>
        requires { length head.now < MAX_BYTES }
        ensures ok { OnOk result (self.new ≡ with_crc head.now) }
        ensures err { OnErr result (self.new ≡ with_crc []) }
    {
        self.difference = 0;
        self.head.clear();
        self.head.extend_from_slice(head)
    }

    // The packet of a head, with this CRC.
    fn with_check(head: BytesMut, check: u8) -> Packet
        requires { length head.items < MAX_BYTES }
        ensures { result ≡ head.items ++ check ∷ [] }
    {
        let difference = check ^ crc(head.as_slice());
        Packet { head, difference }
    }

    /// How many bytes it has.
    pub fn size(&self) -> usize
        ensures bytes { result ≡ length self.now }
        ensures some { 0 < result }
        ensures few { result ≤ MAX_BYTES }
    {
        self.head.len() + 1
    }

    /// All its bytes but the CRC.
    pub fn head(&self) -> &[u8]
        ensures { result.now ≡ head self.now }
    {
        self.head.as_slice()
    }

    /// The CRC that it carries.
    pub fn crc_byte(&self) -> u8
        ensures { result ≡ crc_byte self.now }
    {
        crc(self.head()) ^ self.difference
    }

    /// Whether the CRC that it carries is the one that is due.
    pub(crate) fn is_sound(&self) -> bool
        ensures { result ≡ nat_eq (difference self.now) 0 }
    {
        self.difference == 0
    }

    /// Another packet of the same bytes.
    pub fn copy(&self, alloc: Global) -> Result<Packet, AllocError>
        ensures { IfOk result (λ p. p ≡ self.now) }
    {
        Ok(Packet {
            head: BytesMut::copy_from_slice(alloc, self.head())?,
            difference: self.difference,
        })
    }

    /// The turn that it takes next: none where the head is empty, or begins with no route byte.
    pub fn front_turn(&self) -> Option<i8>
        ensures { result ≡ front_turn self.now }
    {
        match self.head() {
            [] => None,
            [byte, ..] => turn_of(*byte),
        }
    }

    /// Reads the route byte off the front and takes its contribution out of the CRC, so that a difference stays as it
    /// is. Answers the byte's turn; none exactly where the head is empty or its first byte is no route byte, and then
    /// the packet stays whole.
    pub fn strip(&mut self) -> Option<i8>
        ensures turn { result ≡ front_turn self.old }
        ensures stripped { OnSome result (self.new ≡ stripped self.old) }
        ensures whole { IfNone result (self.new ≡ self.old) }
        ensures difference { difference self.new ≡ difference self.old }
    {
        let turn = self.front_turn();
        if turn.is_some() {
            self.strip_front();
        }
        turn
    }

    /// The same of a packet that is known to have a turn in front.
    pub fn strip_turn(&mut self)
        requires { IsSome (front_turn self.old) }
        ensures { self.new ≡ stripped self.old }
    {
        self.strip_front();
    }

    /// Flips the packet's bit `bit + i` where bit i of the pattern is 1, both counted from the most significant bit
    /// of a first byte. The last byte is the CRC. Refused in this order: `NoPattern`, `OutOfPacket`; it hands the
    /// packet back.
    pub fn flip(self, bit: u32, pattern: u8) -> Result<Packet, (Packet, FlipRefusal)>
        ensures ok { IfOk result (λ p. (flip_refusal self bit pattern ≡ None) × (p ≡ flipped self bit pattern)) }
        ensures refused { IfErr result (λ e. (flip_refusal self bit pattern ≡ Some e.1) × (e.0 ≡ self)) }
    {
        match self.flip_refusal(bit, pattern) {
            Some(refusal) => Err((self, refusal)),
            None => Ok(self.flipped(bit as usize, pattern)),
        }
    }

    // Why it can't be flipped so.
    fn flip_refusal(&self, bit: u32, pattern: u8) -> Option<FlipRefusal>
        ensures { result ≡ flip_refusal self.now bit pattern }
    {
        if pattern == 0 {
            Some(FlipRefusal::NoPattern)
        } else if bit as usize + 7 < 8 * self.size() {
            None
        } else {
            Some(FlipRefusal::OutOfPacket)
        }
    }

    // The packet with the burst in it.
    fn flipped(self, bit: usize, pattern: u8) -> Packet
        requires { bit + 7 < 8 * length self }
        ensures { result ≡ flipped self bit pattern }
    {
        let mut check = self.crc_byte();
        let Packet {
            mut head,
            difference: _,
        } = self;
        flip_bits(head.as_mut_slice(), &mut check, bit, pattern);
        Packet::with_check(head, check)
    }

    // Reads the front byte off. The CRC loses its contribution, and so does the one that is due.
    fn strip_front(&mut self)
        requires { 2 ≤ length self.old }
        ensures { self.new ≡ stripped self.old }
    {
        Buf::advance(&mut self.head, 1);
    }
}

// Flips the bits of a burst, which lie in one byte or in two neighbours. The last byte stands apart.
fn flip_bits(head: &mut [u8], check: &mut u8, bit: usize, pattern: u8)
    ensures { head.new ++ check.new ∷ [] ≡ flipped (head.old ++ check.old ∷ []) bit pattern }
{
    let spread = u16::from(pattern) << (8 - bit % 8);
    add_at(head, check, bit / 8, (spread / 256) as u8);
    add_at(head, check, bit / 8 + 1, (spread % 256) as u8);
}

// Adds a mask to the byte at a place, if it is there. The last byte stands apart.
fn add_at(head: &mut [u8], check: &mut u8, place: usize, mask: u8)
    ensures { head.new ++ check.new ∷ [] ≡ masked (head.old ++ check.old ∷ []) place mask }
{
    if place < head.len() {
        head[place] ^= mask;
    } else if place == head.len() {
        *check ^= mask;
    }
}
