//! From bytes to values.

ghost use Rattle.std.specs.Prelude.{◌≡◌, ◌+◌, ◌≤◌, length, true, IfOk, nat_eq};
ghost use Rattle.std.specs.Int.{w16, w32};
ghost use Rattle.gm_defs.specs.Body.{number_at, begins_with, head_in, ack_in, part_in, is_prio, is_head, is_offset};
ghost use Rattle.gm_defs.specs.Body.{is_frame, is_ack, decode};
ghost use Rattle.gm_frame.specs.Written.{IsWritten};

use crate::{ACK, ACK_LENGTH, FRAME, FRAME_LENGTH, VERSION};
use gm_defs::{Ack, FrameHead, GmBody, Malformed, PIECE, bodies_were_written};
use gm_tokens::MESSAGE_LIMIT;

/// What a body says. `Malformed` exactly where it is outside the grammar.
pub fn decode(b: &[u8]) -> Result<GmBody, Malformed>
    ensures exact { result ≡ decode b.now }
    ensures written { IfOk result (λ body. IsWritten body b.now) }
{
    bodies_were_written();
    if is_frame(b) {
        Ok(GmBody::Frame(head_in(b)))
    } else if is_ack(b) {
        Ok(GmBody::Ack(ack_in(b)))
    } else {
        Err(Malformed)
    }
}

/// The bytes of a frame's fragment.
pub fn part_of(b: &[u8]) -> &[u8]
    requires { is_frame b.now ≡ true }
    ensures { result.now ≡ part_in b.now }
{
    &b[FRAME_LENGTH..]
}

// Whether a body is a frame.
fn is_frame(b: &[u8]) -> bool
    ensures { result ≡ is_frame b.now }
{
    b.len() >= FRAME_LENGTH && begins_with(FRAME, b) && is_head(&head_in(b)) && has_part(b)
}

// Whether as many bytes stand after a frame's head as it says.
fn has_part(b: &[u8]) -> bool
    requires { FRAME_LENGTH ≤ length b.now }
    ensures { result ≡ nat_eq (length (part_in b.now)) (head_in b.now).len }
{
    b.len() - FRAME_LENGTH == usize::from(u16_at(b, 21))
}

// Whether a body is an acknowledgement.
fn is_ack(b: &[u8]) -> bool
    ensures { result ≡ is_ack b.now }
{
    b.len() == ACK_LENGTH && begins_with(ACK, b) && is_prio(ack_in(b).prio)
}

// The kind and the version in front.
fn begins_with(kind: u8, b: &[u8]) -> bool
    requires { 2 ≤ length b.now }
    ensures { result ≡ begins_with kind b.now }
{
    b[0] == kind && b[1] == VERSION
}

// The head that stands in a body.
fn head_in(b: &[u8]) -> FrameHead
    requires { FRAME_LENGTH ≤ length b.now }
    ensures { result ≡ head_in b.now }
{
    FrameHead {
        src: u16_at(b, 2),
        dst: u16_at(b, 4),
        sport: b[6],
        dport: b[7],
        prio: b[8],
        seq: u32_at(b, 9),
        total: u32_at(b, 13),
        offset: u32_at(b, 17),
        len: u16_at(b, 21),
    }
}

// The acknowledgement that stands in a body.
fn ack_in(b: &[u8]) -> Ack
    requires { ACK_LENGTH ≤ length b.now }
    ensures { result ≡ ack_in b.now }
{
    Ack {
        src: u16_at(b, 2),
        dst: u16_at(b, 4),
        prio: b[6],
        next: u32_at(b, 7),
    }
}

// Whether a head is by the rules.
fn is_head(h: &FrameHead) -> bool
    ensures { result ≡ is_head h.now }
{
    h.sport < 8
        && h.dport < 8
        && is_prio(h.prio)
        && h.seq < u32::MAX
        && h.total <= MESSAGE_LIMIT
        && is_offset(h.total, h.offset)
        && u32::from(h.len) == h.total.saturating_sub(h.offset).min(PIECE)
}

// Whether a number is a priority.
fn is_prio(prio: u8) -> bool
    ensures { result ≡ is_prio prio }
{
    prio < 2
}

// Whether a fragment of a message of this length may begin there.
fn is_offset(total: u32, offset: u32) -> bool
    ensures { result ≡ is_offset total offset }
{
    offset % PIECE == 0
        && if total == 0 {
            offset == 0
        } else {
            offset < total
        }
}

// The number of two bytes at a place.
fn u16_at(b: &[u8], at: usize) -> u16
    requires { at + 2 ≤ length b.now }
    ensures { result ≡ number_at w16 b.now at 2 }
{
    u16::from_be_bytes([b[at], b[at + 1]])
}

// The number of four bytes at a place.
fn u32_at(b: &[u8], at: usize) -> u32
    requires { at + 4 ≤ length b.now }
    ensures { result ≡ number_at w32 b.now at 4 }
{
    u32::from_be_bytes([b[at], b[at + 1], b[at + 2], b[at + 3]])
}
