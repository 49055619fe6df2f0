//! A packet reached the host.

ghost use Rattle.std.specs.Prelude.{◌≡◌, IfOk, OnErr};
ghost use Rattle.gm_defs.specs.Body.{decode};
ghost use Rattle.world_defs.specs.Hearing.{messages_read, hear_body, hear};

use crate::messages::hear;
use crate::node::NicNode;
use myri_packet::{Body, Packet, decode_at_host};
use std::alloc::{AllocError, Global};
use world_defs::Arrival;

impl NicNode {
    /// A packet reached the host: what was made of it is exactly what the definition makes of its bytes. Running out of
    /// memory changes nothing. It is no part of its caller's frame, which a packet that reaches no host pays for.
    #[inline(never)]
    #[tactic(auto, unfolding(world_defs::specs::Hearing::hear))]
    pub fn on_packet(&mut self, alloc: Global, p: &Packet) -> Result<Arrival, AllocError>
        ensures heard { IfOk result (λ arrival. hear self.old.host self.old.hosts self.old.state p.now
            ≡ (arrival, self.new.state)) }
        ensures host { self.new.host ≡ self.old.host }
        ensures hosts { self.new.hosts ≡ self.old.hosts }
        ensures unchanged { OnErr result (self.new ≡ self.old) }
    {
        match decode_at_host(p) {
            Ok(Body::Mapping(body)) => self.hear_mapping(alloc, body),
            Ok(Body::Gm(body)) => self.hear_messages(alloc, body),
            Err(drop) => Ok(Arrival::Dropped(drop)),
        }
    }

    // A body of messages came.
    fn hear_messages(&mut self, alloc: Global, body: &[u8]) -> Result<Arrival, AllocError>
        ensures heard { IfOk result (λ arrival. hear_body self.old.host self.old.hosts self.old.state
            (messages_read body.now (decode body.now)) ≡ (arrival, self.new.state)) }
        ensures host { self.new.host ≡ self.old.host }
        ensures hosts { self.new.hosts ≡ self.old.hosts }
        ensures unchanged { OnErr result (self.new ≡ self.old) }
    {
        self.lanes.in_order();
        hear(alloc, self.host, &mut self.lanes, &mut self.ports, body)
    }
}
