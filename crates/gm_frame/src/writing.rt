//! From values to bytes.

ghost use Rattle.std.specs.Prelude.{◌≡◌, ◌<◌, ◌≤◌, ◌^◌, ◌++◌, length, true, IfOk, OnOk};
ghost use Rattle.gm_defs.specs.declared.frame.GmBody.TheVariants.{Frame, Ack as Acknowledges};
ghost use Rattle.gm_defs.specs.Body.{is_prio, is_head, head_bytes, frame_bytes, ack_bytes, decode};

use crate::{ACK, ACK_LENGTH, FRAME, FRAME_LENGTH, VERSION};
use gm_defs::{Ack, FrameHead, bodies_are_read};
use std::alloc::{AllocError, Global};

/// The body of a frame: its head and the bytes of its fragment, which are as many as the head says.
pub fn encode_frame(alloc: Global, h: &FrameHead, part: &[u8]) -> Result<Vec<u8>, AllocError>
    requires by_rules { is_head h.now ≡ true }
    requires part { length part.now ≡ h.now.len }
    ensures bytes { IfOk result (λ body. body.items ≡ frame_bytes h.now part.now) }
    ensures read { IfOk result (λ body. decode body.items ≡ Ok (Frame h.now)) }
{
    bodies_are_read();
    let mut body = Vec::with_capacity(alloc, FRAME_LENGTH + part.len())?;
    append_frame(&mut body, h, part)?;
    Ok(body)
}

/// The same after other bytes, as the front of a packet: so it needs no buffer of its own.
pub fn append_frame(bytes: &mut Vec<u8>, h: &FrameHead, part: &[u8]) -> Result<(), AllocError>
    requires by_rules { is_head h.now ≡ true }
    requires part { length part.now ≡ h.now.len }
    ensures bytes { OnOk result (bytes.new.items ≡ bytes.old.items ++ frame_bytes h.now part.now) }
    ensures few { length (frame_bytes h.now part.now) ≤ 1039 }
    ensures fit { (h.now.src < 2 ^ 16) × (h.now.dst < 2 ^ 16) }
{
    bytes.extend_from_slice(&bytes_of_head(h))?;
    bytes.extend_from_slice(part)?;
    Ok(())
}

// A frame without its fragment.
fn bytes_of_head(h: &FrameHead) -> [u8; FRAME_LENGTH]
    ensures bytes { result ≡ head_bytes h.now }
    ensures fit { (h.now.src < 2 ^ 16) × (h.now.dst < 2 ^ 16) }
{
    let (src, dst) = (h.src, h.dst);
    let [s0, s1] = src.to_be_bytes();
    let [d0, d1] = dst.to_be_bytes();
    let [n0, n1, n2, n3] = h.seq.to_be_bytes();
    let [t0, t1, t2, t3] = h.total.to_be_bytes();
    let [o0, o1, o2, o3] = h.offset.to_be_bytes();
    let [l0, l1] = h.len.to_be_bytes();
    [
        FRAME, VERSION, s0, s1, d0, d1, h.sport, h.dport, h.prio, n0, n1, n2, n3, t0, t1, t2, t3,
        o0, o1, o2, o3, l0, l1,
    ]
}

/// The body of an acknowledgement, which is of one of the priorities.
pub fn encode_ack(alloc: Global, a: &Ack) -> Result<Vec<u8>, AllocError>
    requires by_rules { is_prio a.now.prio ≡ true }
    ensures bytes { IfOk result (λ body. body.items ≡ ack_bytes a.now) }
    ensures read { IfOk result (λ body. decode body.items ≡ Ok (Acknowledges a.now)) }
{
    bodies_are_read();
    let mut body = Vec::with_capacity(alloc, ACK_LENGTH)?;
    append_ack(&mut body, a)?;
    Ok(body)
}

/// The same after other bytes, as the front of a packet: so it needs no buffer of its own.
pub fn append_ack(bytes: &mut Vec<u8>, a: &Ack) -> Result<(), AllocError>
    requires by_rules { is_prio a.now.prio ≡ true }
    ensures bytes { OnOk result (bytes.new.items ≡ bytes.old.items ++ ack_bytes a.now) }
    ensures few { length (ack_bytes a.now) ≡ 11 }
    ensures fit { (a.now.src < 2 ^ 16) × (a.now.dst < 2 ^ 16) × (a.now.next < 2 ^ 32) }
{
    bytes.extend_from_slice(&bytes_of_ack(a))
}

// The bytes of an acknowledgement.
fn bytes_of_ack(a: &Ack) -> [u8; ACK_LENGTH]
    ensures bytes { result ≡ ack_bytes a.now }
    ensures fit { (a.now.src < 2 ^ 16) × (a.now.dst < 2 ^ 16) × (a.now.next < 2 ^ 32) }
{
    let Ack {
        src,
        dst,
        prio,
        next,
    } = *a;
    let [s0, s1] = src.to_be_bytes();
    let [d0, d1] = dst.to_be_bytes();
    let [n0, n1, n2, n3] = next.to_be_bytes();
    [ACK, VERSION, s0, s1, d0, d1, prio, n0, n1, n2, n3]
}
