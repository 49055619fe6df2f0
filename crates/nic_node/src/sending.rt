//! The packet that a host sends next.

ghost use Rattle.std.specs.Prelude.{◌≡◌, ◌<◌, ◌≤◌, ◌+◌, ℕ, is_some, option_map, length, take, drop, true, Some};
ghost use Rattle.std.specs.Prelude.{[], IfOk, OnOk, OnErr};
ghost use Rattle.packet_defs.specs.Packet.{packet_of, head_of};
ghost use Rattle.gm_defs.specs.Body.{is_prio, is_head, frame_bytes, ack_bytes};
ghost use Rattle.world_defs.specs.Node.{owed_on, due_frame, due_on, to_send, packet_for, lane_at};
ghost use Rattle.gm_conn.specs.Lane.{head_of_frame, ticket_of};
ghost use Rattle.nic_node.specs.Held.{in_state};
ghost use Rattle.nic_node.specs.Sending.{chosen, once_sent, after_first};

use crate::next::NextSend;
use crate::node::NicNode;
use gm_conn::{Ack, DueFrame, FrameHead};
use gm_frame::{append_ack, append_frame};
use myri_packet::{Kind, Packet, type_bytes};
use net_defs::Walk;
use packet_defs::push_turns;
use std::alloc::{AllocError, Global};

impl NicNode {
    /// Whether it has something to send.
    pub fn has_to_send(&self) -> bool
        ensures { result ≡ is_some (to_send self.now.host self.now.state) }
    {
        self.next_send().is_some()
    }

    /// The packet of what it sends first, injected under a number. None exactly where it has nothing to send, and then
    /// no memory is asked for. It stays as it is: see [`NicNode::staged`].
    pub fn stage(&self, alloc: Global, number: u64) -> Result<Option<Packet>, AllocError>
        ensures packet { IfOk result (λ packet. packet ≡ option_map (packet_for self.now.host number)
            (to_send self.now.host self.now.state)) }
        ensures wanting { OnErr result (is_some (to_send self.now.host self.now.state) ≡ true) }
    {
        match self.next_send() {
            Some(next) => Ok(Some(self.packet_of(alloc, next, number)?)),
            None => Ok(None),
        }
    }

    // The packet of something that it has to send, in a buffer of its own.
    fn packet_of(&self, alloc: Global, next: NextSend, number: u64) -> Result<Packet, AllocError>
        requires { is_some (chosen self.now.host self.now.state next) ≡ true }
        ensures { IfOk result (λ packet. Some packet ≡ option_map (packet_for self.now.host number)
            (chosen self.now.host self.now.state next)) }
    {
        let mut packet = Packet::unwritten(alloc);
        let mut bytes = Vec::new(alloc);
        self.write_packet(alloc, next, number, &mut bytes, &mut packet)?;
        Ok(packet)
    }

    /// A packet becomes the one of something that the host has to send, injected under a number, in the buffer that it
    /// has. A message's bytes are put together in the vector, whatever that holds. The host stays as it is: see
    /// [`NicNode::sent_as`]. Where memory runs out, the packet may be any.
    pub fn write_packet(
        &self,
        alloc: Global,
        next: NextSend,
        number: u64,
        bytes: &mut Vec<u8>,
        packet: &mut Packet,
    ) -> Result<(), AllocError>
        requires { is_some (chosen self.now.host self.now.state next) ≡ true }
        ensures { OnOk result (Some packet.new ≡ option_map (packet_for self.now.host number)
            (chosen self.now.host self.now.state next)) }
    {
        match next {
            NextSend::Item => self.write_item(alloc, number, packet),
            NextSend::Answer(lane) => self.write_answer(lane, bytes, packet),
            NextSend::Fragment(lane) => self.write_fragment(lane, bytes, packet),
        }
    }

    /// What it sends first counts as sent. Nothing changes where it has nothing to send.
    pub fn staged(&mut self)
        ensures { self.new ≡ in_state self.old (after_first self.old) }
    {
        match self.next_send() {
            Some(next) => self.sent_as(next),
            None => {}
        }
    }

    /// Something that it has to send counts as sent.
    pub fn sent_as(&mut self, next: NextSend)
        requires { is_some (chosen self.old.host self.old.state next) ≡ true }
        ensures { self.new ≡ in_state self.old
            (once_sent self.old.state (chosen self.old.host self.old.state next)) }
    {
        match next {
            NextSend::Item => self.items.sent(),
            NextSend::Answer(lane) => self.lanes.answered(lane),
            NextSend::Fragment(lane) => self.lanes.sent_one(lane),
        }
    }

    // A packet becomes the one of the first of the items.
    fn write_item(&self, alloc: Global, number: u64, packet: &mut Packet) -> Result<(), AllocError>
        requires { is_some (chosen self.now.host self.now.state NextSend.Item) ≡ true }
        ensures { OnOk result (Some packet.new ≡ option_map (packet_for self.now.host number)
            (chosen self.now.host self.now.state NextSend.Item)) }
    {
        match self.items.packet(alloc, self.host, number)? {
            Some(made) => *packet = made,
            None => unreachable!(),
        }
        Ok(())
    }

    // A packet becomes the one of the acknowledgement that a lane owes.
    fn write_answer(
        &self,
        lane: u32,
        bytes: &mut Vec<u8>,
        packet: &mut Packet,
    ) -> Result<(), AllocError>
        requires within { lane < length self.now.state.lanes }
        requires owes { is_some (owed_on self.now.state lane) ≡ true }
        ensures { (number : ℕ) → OnOk result (Some packet.new
            ≡ option_map (packet_for self.now.host number) (owed_on self.now.state lane)) }
    {
        match self.lane_route(lane) {
            Some(by) => write_ack(bytes, packet, &self.lanes.at(lane).ack(), by),
            None => unreachable!(),
        }
    }

    // A packet becomes the one of the fragment that is due on a lane. The fragment's bytes are read where they stand:
    // in the registered buffer of their send.
    fn write_fragment(
        &self,
        lane: u32,
        bytes: &mut Vec<u8>,
        packet: &mut Packet,
    ) -> Result<(), AllocError>
        requires within { lane < length self.now.state.lanes }
        requires due { is_some (due_on self.now.host self.now.state lane) ≡ true }
        ensures { (number : ℕ) → OnOk result (Some packet.new
            ≡ option_map (packet_for self.now.host number) (due_on self.now.host self.now.state lane)) }
    {
        let Some(frame) = self.lanes.at(lane).due() else {
            unreachable!()
        };
        let Some(by) = self.lane_route(lane) else {
            unreachable!()
        };
        let part = self.due_part(lane, &frame);
        write_frame(bytes, packet, &frame.head, part, by)
    }

    // The bytes of the fragment that is due on a lane, in the registered buffer of their send.
    fn due_part(&self, lane: u32, frame: &DueFrame) -> &[u8]
        requires head { option_map head_of_frame (due_frame self.now.host self.now.state lane) ≡ Some frame.now.head }
        requires by_rules { is_head frame.now.head ≡ true }
        requires ticket { ticket_of (lane_at self.now.state lane) frame.now.head.seq ≡ Some frame.now.ticket }
        ensures exact { due_frame self.now.host self.now.state lane ≡ Some (frame.now.head, result.now) }
        ensures length { length result.now ≡ frame.now.head.len }
    {
        self.lanes.in_order();
        let buffer = self
            .ports
            .sending(frame.ticket.port(), frame.ticket.token());
        part_at(buffer, frame.head.offset, frame.head.len)
    }
}

// So many bytes of a buffer from an offset on.
fn part_at(buffer: &[u8], offset: u32, len: u16) -> &[u8]
    requires { offset + len ≤ length buffer.now }
    ensures { result.now ≡ take len (drop offset buffer.now) }
{
    let from = offset as usize;
    &buffer[from..from + usize::from(len)]
}

// A packet becomes the one of an acknowledgement, by a route.
fn write_ack(
    bytes: &mut Vec<u8>,
    packet: &mut Packet,
    ack: &Ack,
    by: &Walk,
) -> Result<(), AllocError>
    requires { is_prio ack.now.prio ≡ true }
    ensures { OnOk result (packet.new ≡ packet_of by.now Kind.Gm (ack_bytes ack.now)) }
{
    write_front(bytes, by)?;
    append_ack(bytes, ack)?;
    packet.write(bytes.as_slice())
}

// A packet becomes the one of a fragment, by a route.
fn write_frame(
    bytes: &mut Vec<u8>,
    packet: &mut Packet,
    head: &FrameHead,
    part: &[u8],
    by: &Walk,
) -> Result<(), AllocError>
    requires head { is_head head.now ≡ true }
    requires part { length part.now ≡ head.now.len }
    ensures { OnOk result (packet.new ≡ packet_of by.now Kind.Gm (frame_bytes head.now part.now)) }
{
    write_front(bytes, by)?;
    append_frame(bytes, head, part)?;
    packet.write(bytes.as_slice())
}

// The bytes become what of a message's packet stands before its body, by a route.
fn write_front(bytes: &mut Vec<u8>, by: &Walk) -> Result<(), AllocError>
    ensures front { OnOk result (bytes.new.items ≡ head_of by.now Kind.Gm []) }
    ensures short { length by.now ≤ 64 }
{
    bytes.clear();
    push_turns(bytes, by.turns())?;
    bytes.extend_from_slice(&type_bytes(Kind::Gm))
}
