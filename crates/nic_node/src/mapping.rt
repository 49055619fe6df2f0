//! A body of the mapper's protocol came.

ghost use Rattle.std.specs.Prelude.{◌≡◌, IfOk, OnOk, OnErr};
ghost use Rattle.world_defs.specs.Mapping.{decode_mapping, MappingBody};
ghost use Rattle.world_defs.specs.Table.{applied};
ghost use Rattle.world_defs.specs.Hearing.{OfMapper, part_heard, mapping_read, hear_body};
ghost use Rattle.probe.specs.Body.{said};
ghost use Rattle.host_items.specs.Reading.{said_of};
ghost use Rattle.nic_node.specs.Held.{in_state};
ghost use Rattle.nic_node.specs.Reading.{answered_part};

use crate::node::NicNode;
use host_items::{MapperBody, hear_ack, is_part_for, read};
use net_defs::Walk;
use packet_defs::HostDrop;
use probe::ProbeBody;
use route_parts::RoutePart;
use std::alloc::{AllocError, Global};
use world_defs::{Applied, Arrival, Heard};

impl NicNode {
    /// A body of the mapper's protocol came. Running out of memory changes nothing.
    pub(crate) fn hear_mapping(&mut self, alloc: Global, body: &[u8]) -> Result<Arrival, AllocError>
        ensures heard { IfOk result (λ arrival. hear_body self.old.host self.old.hosts self.old.state
            (mapping_read (decode_mapping body.now)) ≡ (arrival, self.new.state)) }
        ensures host { self.new.host ≡ self.old.host }
        ensures hosts { self.new.hosts ≡ self.old.hosts }
        ensures unchanged { OnErr result (self.new ≡ self.old) }
    {
        match read(alloc, body)? {
            Some(said) => self.hear_said(alloc, said),
            None => Ok(Arrival::Dropped(HostDrop::Malformed)),
        }
    }

    // What a body said.
    fn hear_said(&mut self, alloc: Global, said: MapperBody) -> Result<Arrival, AllocError>
        ensures heard { IfOk result (λ arrival. hear_body self.old.host self.old.hosts self.old.state
            (OfMapper (said_of said)) ≡ (arrival, self.new.state)) }
        ensures host { self.new.host ≡ self.old.host }
        ensures hosts { self.new.hosts ≡ self.old.hosts }
        ensures unchanged { OnErr result (self.new ≡ self.old) }
    {
        match said {
            MapperBody::Asks(body) => Ok(self.hear_probe(body)),
            MapperBody::TablePart(part) => self.hear_part(alloc, part),
            MapperBody::Acknowledges(ack) => Ok(hear_ack(self.lanes.hosts(), &ack)),
        }
    }

    // A probe came, or the reply to one.
    fn hear_probe(&mut self, body: ProbeBody) -> Arrival
        ensures heard { hear_body self.old.host self.old.hosts self.old.state (OfMapper (said body))
            ≡ (result, self.new.state) }
        ensures host { self.new.host ≡ self.old.host }
        ensures hosts { self.new.hosts ≡ self.old.hosts }
    {
        self.items.hear(self.host, self.lanes.hosts(), body)
    }

    // A part of a table came. Where it is for this host and was taken, its acknowledgement is staged, in the place of
    // an earlier one.
    fn hear_part(&mut self, alloc: Global, part: RoutePart) -> Result<Arrival, AllocError>
        ensures heard { IfOk result (λ arrival. hear_body self.old.host self.old.hosts self.old.state
            (OfMapper (MappingBody.Part part)) ≡ (arrival, self.new.state)) }
        ensures host { self.new.host ≡ self.old.host }
        ensures hosts { self.new.hosts ≡ self.old.hosts }
        ensures unchanged { OnErr result (self.new ≡ self.old) }
    {
        if is_part_for(self.host, self.lanes.hosts(), &part) {
            self.take_part(alloc, part)?;
            Ok(Arrival::Heard(Heard::Routes))
        } else {
            Ok(Arrival::NotMine)
        }
    }

    // Takes a part of this host's table.
    fn take_part(&mut self, alloc: Global, part: RoutePart) -> Result<(), AllocError>
        requires { part.dst ≡ self.old.host }
        ensures taken { OnOk result (self.new.state ≡ part_heard self.old.state part
            (applied self.old.state.table part)) }
        ensures host { self.new.host ≡ self.old.host }
        ensures hosts { self.new.hosts ≡ self.old.hosts }
        ensures unchanged { OnErr result (self.new ≡ self.old) }
    {
        let back = part.back.copied(alloc)?;
        let epoch = part.epoch;
        let number = part.part;
        let applied = self.table.apply(part)?;
        self.answer(applied, epoch, number, back);
        Ok(())
    }

    // A part that was taken is acknowledged, an old one isn't.
    fn answer(&mut self, applied: Applied, epoch: u32, part: u8, back: Walk)
        ensures { self.new ≡ in_state self.old (answered_part self.old.state applied epoch part back) }
    {
        match applied {
            Applied::Part | Applied::Active => self.items.answer(epoch, part, back),
            Applied::Old => {}
        }
    }
}
