//! The queue of a port's events.

ghost use Rattle.std.specs.Prelude.{◌≡◌, ℕ, ◌<◌, ◌+◌, ◌-◌, ◌^◌, List, ◌++◌, ◌∷◌, [], length, map, drop, IfOk};
ghost use Rattle.std.specs.Prelude.{option_map};
ghost use Rattle.std.specs.Prelude.{slice_get, slice_index_or};
ghost use Rattle.std.specs.List.{list_any};
ghost use Rattle.gm_defs.specs.Token.{has_number, sent_tokens, received_tokens};
ghost use Rattle.gm_port.specs.Held.{event_at, event_of};
ghost use Rattle.gm_port.specs.Lists.{is_sent, is_received};
ghost use Rattle.gm_port.specs.Tallies.{AreTallied};

use crate::event::PortEvent;
use crate::tally::Tally;
use std::alloc::{AllocError, Global};
use std::collections::VecDeque;
use std::marker::Model;

/// The events of a port, first put in first, with room for an event of each of its tokens.
pub(crate) struct EventQueue {
    host: u16,
    port: u8,
    events: VecDeque<PortEvent>,
    // How many of them have each send token, and each receive token.
    sent: Tally,
    received: Tally,
}

impl Model for EventQueue {
    ghost use Rattle.std.specs.Prelude.{map};
    ghost use Rattle.std.specs.VecDeque.{deque_capacity};
    ghost use Rattle.gm_port.specs.Held.{Events, event_of};

    ghost Value = { Events };

    ghost use Rattle.gm_port.specs.Lists.{AreCountedEvents};

    ghost view = { λ q. record {
      host = q.host;
      port = q.port;
      limit = deque_capacity q.events;
      events = map event_of q.events.items;
    } };

    ghost invariant = { λ q. AreCountedEvents q.host q.port q.events.items
        (deque_capacity q.events) q.sent q.received };
}

impl EventQueue {
    /// A queue with room for an event of each of so many send tokens and receive tokens.
    pub(crate) fn with_room(
        alloc: Global,
        host: u16,
        port: u8,
        sends: u16,
        recvs: u16,
    ) -> Result<EventQueue, AllocError>
        ensures { IfOk result (λ q. q ≡ record { host = host; port = port; limit = sends + recvs; events = [] }) }
    {
        let sent = Tally::with_room(alloc, sends)?;
        let received = Tally::with_room(alloc, recvs)?;
        let limit = usize::from(sends) + usize::from(recvs);
        Ok(EventQueue {
            host,
            port,
            events: VecDeque::with_capacity(alloc, limit)?,
            sent,
            received,
        })
    }

    /// How many events wait.
    pub(crate) fn len(&self) -> usize
        ensures { result ≡ length self.now.events }
    {
        self.events.len()
    }

    /// Whether an event has the send token of this number.
    pub(crate) fn has_sent(&self, number: u16) -> bool
        ensures { result ≡ has_number (sent_tokens self.now.events) number }
    {
        match self.sent.has(number) {
            Some(known) => known,
            None => any_send(&self.events, number),
        }
    }

    /// Whether an event has the receive token of this number.
    pub(crate) fn has_received(&self, number: u16) -> bool
        ensures { result ≡ has_number (received_tokens self.now.events) number }
    {
        match self.received.has(number) {
            Some(known) => known,
            None => any_receive(&self.events, number),
        }
    }

    /// Puts an event in, after the others.
    pub(crate) fn push(&mut self, e: PortEvent)
        requires own { event_at self.old.host self.old.port (event_of e) ≡ e }
        requires room { length self.old.events < self.old.limit }
        ensures { self.new ≡ record self.old { events = self.old.events ++ event_of e ∷ [] } }
    {
        count(&mut self.sent, &mut self.received, &e);
        self.events.push_back_reserved(e);
    }

    /// Hands the first event out.
    pub(crate) fn pop(&mut self) -> Option<PortEvent>
        ensures first { result ≡ option_map (event_at self.old.host self.old.port) (slice_get self.old.events 0) }
        ensures rest { self.new ≡ record self.old { events = drop 1 self.old.events } }
    {
        let first = self.events.pop_front()?;
        match &first {
            PortEvent::Sent(token, _) => self.sent.remove(token.number()),
            PortEvent::Received { token, .. } => self.received.remove(token.number()),
        }
        Some(first)
    }

    /// All events, first put in first. Takes no memory.
    pub(crate) fn into_list(self) -> Vec<PortEvent>
        ensures { result.items ≡ map (event_at self.host self.port) self.events }
    {
        let EventQueue {
            host: _,
            port: _,
            events,
            sent: _,
            received: _,
        } = self;
        events.into_vec()
    }
}

// The token of an event that comes after the others is counted.
fn count(sent: &mut Tally, received: &mut Tally, e: &PortEvent)
    requires few_sends { (n : ℕ) → slice_index_or sent.old n 0 < 2 ^ 32 - 1 }
    requires few_receives { (n : ℕ) → slice_index_or received.old n 0 < 2 ^ 32 - 1 }
    ensures sends { (ks : List ℕ) → AreTallied sent.old ks
        → AreTallied sent.new (ks ++ sent_tokens (event_of e.now ∷ [])) }
    ensures receives { (ks : List ℕ) → AreTallied received.old ks
        → AreTallied received.new (ks ++ received_tokens (event_of e.now ∷ [])) }
{
    match e {
        PortEvent::Sent(token, _) => sent.add(token.number()),
        PortEvent::Received { token, .. } => received.add(token.number()),
    }
}

// Whether some event has the send token of a number.
fn any_send(events: &VecDeque<PortEvent>, number: u16) -> bool
    ensures { result ≡ list_any (is_sent number) events.now.items }
{
    events.iter().any(|e| names_send(e, number))
}

// Whether some event has the receive token of a number.
fn any_receive(events: &VecDeque<PortEvent>, number: u16) -> bool
    ensures { result ≡ list_any (is_received number) events.now.items }
{
    events.iter().any(|e| names_receive(e, number))
}

// Whether an event has the send token of a number.
fn names_send(e: &PortEvent, number: u16) -> bool
    ensures { result ≡ is_sent number e.now }
{
    match e {
        PortEvent::Sent(token, _) => number == token.number(),
        PortEvent::Received { .. } => false,
    }
}

// Whether an event has the receive token of a number.
fn names_receive(e: &PortEvent, number: u16) -> bool
    ensures { result ≡ is_received number e.now }
{
    match e {
        PortEvent::Sent(..) => false,
        PortEvent::Received { token, .. } => number == token.number(),
    }
}
