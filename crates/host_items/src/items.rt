//! The three items.

ghost use Rattle.std.specs.Prelude.{◌≡◌, ◌≤◌, length, true, is_some, None, Some, IfOk};
ghost use Rattle.world_defs.specs.Mapping.{is_part};
ghost use Rattle.world_defs.specs.Node.{StagedProbe, StagedPart};
ghost use Rattle.host_items.specs.Held.{no_items, is_staged, packet_of_first, packet_of_answer, without_first};
ghost use Rattle.host_items.specs.Held.{first_of, with_staged, with_reply, with_answer};

use crate::answers::{PartAnswer, ProbeReply};
use crate::staged::StagedItem;
use myri_packet::Packet;
use net_defs::Walk;
use route_parts::RoutePart;
use std::alloc::{AllocError, Global};
use std::marker::Model;

/// What a host has staged to send besides messages: a probe or a part that it was told to send, the reply to a probe,
/// and the acknowledgement of a part. They are sent in this order. Of each kind it has one at most: a later one takes
/// the place of an earlier.
///
/// Contracts see the three, each where it stands.
#[derive(Debug, Drop)]
pub struct Items {
    staged: Option<StagedItem>,
    reply: Option<ProbeReply>,
    answer: Option<PartAnswer>,
}

impl Model for Items {
    ghost use Rattle.std.specs.Prelude.{IfSome};
    ghost use Rattle.host_items.specs.Held.{HostItems, items_of, staged_of, IsSendable};

    ghost Value = { HostItems };

    ghost view = { λ i. items_of i.staged i.reply i.answer };

    ghost invariant = { λ i. IfSome i.staged (λ s. IsSendable (staged_of s)) };
}

impl Items {
    /// None.
    pub fn new() -> Items
        ensures { result ≡ no_items }
    {
        Items {
            staged: None,
            reply: None,
            answer: None,
        }
    }

    /// Stages a probe of a walk, in the place of what was staged before. A looped one returns to this host: its walk
    /// has at most 31 turns, so that there is room for the way back.
    pub fn ask(&mut self, walk: Walk, looped: bool)
        requires { looped ≡ true → length walk ≤ 31 }
        ensures { self.new ≡ with_staged self.old (StagedProbe walk looped) }
    {
        self.staged = Some(StagedItem::Probe { walk, looped });
    }

    /// Stages a part of a table by a route, in the place of what was staged before. The part is by the rules of its
    /// body.
    pub fn part(&mut self, part: RoutePart, by: Walk)
        requires { is_part part ≡ true }
        ensures { self.new ≡ with_staged self.old (StagedPart part by) }
    {
        self.staged = Some(StagedItem::Part { part, by });
    }

    /// Stages the reply to the probe of a number, in the place of an earlier reply.
    pub fn reply(&mut self, number: u64, back: Walk)
        ensures { self.new ≡ with_reply self.old number back }
    {
        self.reply = Some(ProbeReply { number, back });
    }

    /// Stages the acknowledgement of a part, in the place of an earlier one.
    pub fn answer(&mut self, epoch: u32, part: u8, back: Walk)
        ensures { self.new ≡ with_answer self.old epoch part back }
    {
        self.answer = Some(PartAnswer { epoch, part, back });
    }

    /// Whether one stands.
    pub fn has_staged(&self) -> bool
        ensures staged { result ≡ is_staged self.now }
        ensures first { result ≡ is_some (first_of self.now) }
    {
        self.staged.is_some() || self.reply.is_some() || self.answer.is_some()
    }

    /// Whether the acknowledgement of a part stands.
    pub fn has_answer(&self) -> bool
        ensures { result ≡ is_some self.now.part_ack }
    {
        self.answer.is_some()
    }

    /// The packet of the first that stands, injected by a host under a number. None exactly where none stands.
    pub fn packet(
        &self,
        alloc: Global,
        host: u16,
        number: u64,
    ) -> Result<Option<Packet>, AllocError>
        ensures { IfOk result (λ packet. packet ≡ packet_of_first host number self.now) }
    {
        match &self.staged {
            Some(item) => Ok(Some(item.packet(alloc, host, number)?)),
            None => self.answer_packet(alloc, host, number),
        }
    }

    // The packet of the first answer that stands.
    fn answer_packet(
        &self,
        alloc: Global,
        host: u16,
        number: u64,
    ) -> Result<Option<Packet>, AllocError>
        ensures { IfOk result (λ packet. packet ≡ packet_of_answer host number self.now) }
    {
        match &self.reply {
            Some(reply) => Ok(Some(reply.packet(alloc, host)?)),
            None => match &self.answer {
                Some(answer) => Ok(Some(answer.packet(alloc, host)?)),
                None => Ok(None),
            },
        }
    }

    /// The first that stands counts as sent: it stands no more, and the others stay.
    pub fn sent(&mut self)
        ensures { self.new ≡ without_first self.old }
    {
        if self.staged.is_some() {
            self.staged = None;
        } else if self.reply.is_some() {
            self.reply = None;
        } else {
            self.answer = None;
        }
    }

    /// Drops them all. False exactly where none stood.
    pub fn give_up(&mut self) -> bool
        ensures told { result ≡ is_staged self.old }
        ensures after { self.new ≡ no_items }
    {
        let stood = self.has_staged();
        *self = Items::new();
        stood
    }
}
