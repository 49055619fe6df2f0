//! What a host answers: the reply to a probe, and the acknowledgement of a part.

ghost use Rattle.std.specs.Prelude.{ℕ, ◌≡◌, IfOk};
ghost use Rattle.packet_defs.specs.Packet.{packet_of};
ghost use Rattle.world_defs.specs.Mapping.{mapping_bytes};
ghost use Rattle.route_parts.specs.Reading.{ack_body};
ghost use Rattle.world_defs.specs.Node.{Outgoing, packet_for};
ghost use Rattle.host_items.specs.Held.{reply_of, answer_of};

use crate::probing::body_packet;
use myri_packet::{Kind, Packet, packet_front, seal};
use net_defs::Walk;
use probe::ProbeBody;
use route_parts::{ACK_LENGTH, PartAck};
use std::alloc::{AllocError, Global};

/// The reply to the probe of a number, and the way back.
#[derive(Debug, Drop)]
pub(crate) struct ProbeReply {
    pub(crate) number: u64,
    pub(crate) back: Walk,
}

impl ProbeReply {
    /// Its packet. It carries the number of its probe.
    #[tactic(auto, unfolding(world_defs::specs::Node::packet_for))]
    pub(crate) fn packet(&self, alloc: Global, host: u16) -> Result<Packet, AllocError>
        ensures { (number : ℕ) → IfOk result (λ p. p ≡ packet_for host number (Outgoing.Reply (reply_of self.now))) }
    {
        let body = ProbeBody::HostReply {
            number: self.number,
            host,
        };
        body_packet(alloc, self.back.turns(), &body)
    }
}

/// The acknowledgement of a part, and the way back.
#[derive(Debug, Drop)]
pub(crate) struct PartAnswer {
    pub(crate) epoch: u32,
    pub(crate) part: u8,
    pub(crate) back: Walk,
}

impl PartAnswer {
    /// Its packet.
    #[tactic(auto, unfolding(world_defs::specs::Node::packet_for))]
    pub(crate) fn packet(&self, alloc: Global, host: u16) -> Result<Packet, AllocError>
        ensures { (number : ℕ)
            → IfOk result (λ p. p ≡ packet_for host number (Outgoing.PartAnswer (answer_of self.now))) }
    {
        let ack = PartAck {
            epoch: self.epoch,
            host,
            part: self.part,
        };
        ack_packet(alloc, &self.back, &ack)
    }
}

// The packet of an acknowledgement, by a way back. Its body is written into the packet's own buffer.
fn ack_packet(alloc: Global, back: &Walk, ack: &PartAck) -> Result<Packet, AllocError>
    ensures { IfOk result (λ p. p ≡ packet_of back.now Kind.Mapping (mapping_bytes (ack_body ack.now))) }
{
    let mut bytes = packet_front(alloc, back.turns(), Kind::Mapping, ACK_LENGTH)?;
    ack.append(&mut bytes)?;
    seal(bytes)
}
