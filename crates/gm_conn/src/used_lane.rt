//! One lane of a host on which something was sent or taken: its connections with one peer, of one priority.

ghost use Rattle.std.specs.Prelude.{◌≡◌, ◌<◌, ◌≤◌, ◌+◌, ◌++◌, true, List, length, take, drop, slice_get, Some};
ghost use Rattle.std.specs.Prelude.{IsSome, IfSome, OnOk, OnErr, IfOk, IfErr, is_some, option_map};
ghost use Rattle.net_defs.specs.Refusal.{Refuses};
ghost use Rattle.gm_defs.specs.Body.{is_prio, is_head, is_last, message_limit};
ghost use Rattle.gm_defs.specs.Connection.{connection, due, took};
ghost use Rattle.gm_defs.specs.declared.message.Message.{Message};
ghost use Rattle.gm_conn.specs.Halves.{WaitsFor, finished};
ghost use Rattle.world_defs.specs.Lane.{with_message, finished_by, lane_acknowledged, lane_expired, lane_sent_one};
ghost use Rattle.world_defs.specs.Lane.{lane_answered, got_after, coming_after, lane_after};
ghost use Rattle.world_defs.specs.Hearing.{message_of};
ghost use Rattle.gm_conn.specs.Lane.{in_state, unused, due_frame, head_shown, head_of_frame, ticket_of};
ghost use Rattle.gm_conn.specs.Lane.{message_in, accept_refusal, AreNumbered};
ghost use Rattle.gm_conn.specs.MessageList.{HasRoom, messages_in};

use crate::message_list::MessageList;
use crate::{Desc, DueFrame, Envelope, FrameHead, OfferRefusal, Receiver, Sender, Ticket, Took};
use gm_defs::{Blob, Message};
use reg_mem::Reg;
use std::alloc::{AllocError, Global};
use std::marker::Model;
use std::mem;

/// What a host sends to a peer of one priority, and what it takes from there. The messages on both sides are kept.
#[derive(Drop)]
pub(crate) struct UsedLane {
    pub(crate) sender: Sender,
    pub(crate) sent: MessageList,
    pub(crate) receiver: Receiver,
    pub(crate) got: MessageList,
    // The bytes that came so far of the message that is taken in part.
    coming: Blob,
    owes: bool,
}

impl Model for UsedLane {
    ghost use Rattle.gm_conn.specs.Lane.{HostLane, IsLane, sends_of};
    ghost use Rattle.gm_conn.specs.MessageList.{messages_in};

    ghost Value = { HostLane };

    ghost view = { λ p. record {
      key = p.sender.key;
      state = record {
        sender = p.sender.numbers;
        sent = messages_in p.sent;
        pending = sends_of p.sender;
        got = messages_in p.got;
        coming = p.coming;
        taken = p.receiver.taken;
        owes = p.owes;
      };
    } };

    ghost invariant = { λ p. IsLane p.sender p.receiver (messages_in p.sent) };
}

impl UsedLane {
    /// The lane of a host with a peer and a priority on which nothing was sent. It takes no memory.
    pub(crate) fn new(alloc: Global, host: u16, peer: u16, prio: u8) -> UsedLane
        ensures { result ≡ unused (connection host peer prio) }
    {
        UsedLane {
            sender: Sender::new(alloc, host, peer, prio),
            sent: MessageList::new(),
            receiver: Receiver::new(peer, host, prio),
            got: MessageList::new(),
            coming: Blob::empty(),
            owes: false,
        }
    }

    /// The fragment that is to be sent next, if one is: its head, and the send that its message is of. As many sends
    /// wait before that one as messages before its message aren't finished.
    pub(crate) fn due(&self) -> Option<DueFrame>
        ensures head { option_map head_shown result ≡ option_map head_of_frame (due_frame self.now) }
        ensures by_rules { IfSome result (λ d. is_head d.head ≡ true) }
        ensures ticket { IfSome result (λ d. ticket_of self.now.state d.head.seq ≡ Some d.ticket) }
    {
        self.sender.in_order();
        match self.sender.due() {
            Some(due) => Some(DueFrame {
                head: due.head,
                ticket: Ticket::new(due.head.sport, due.ticket),
            }),
            None => None,
        }
    }

    /// Whether a fragment is due.
    pub(crate) fn is_due(&self) -> bool
        ensures { result ≡ is_some (due_frame self.now) }
    {
        self.sender.in_order();
        self.sender.due().is_some()
    }

    /// The numbers are in order, and the fragments of all that was sent have those up to the next.
    pub(crate) fn in_order(&self)
        ensures { AreNumbered self.now.state }
    {
        self.sender.in_order();
    }

    /// The due fragment was sent.
    pub(crate) fn sent_one(&mut self)
        requires { IsSome (due self.old.state.sender) }
        ensures { self.new ≡ in_state self.old (lane_sent_one self.old.state) }
    {
        self.sender.mark_sent();
    }

    /// The acknowledgement was sent.
    pub(crate) fn answered(&mut self)
        ensures { self.new ≡ in_state self.old (lane_answered self.old.state) }
    {
        self.owes = false;
    }

    /// What isn't acknowledged is sent again.
    pub(crate) fn expire(&mut self)
        ensures { self.new ≡ in_state self.old (lane_expired self.old.state) }
    {
        let _some = self.sender.expire();
    }

    /// Whether the peer is owed an acknowledgement.
    pub(crate) fn owes(&self) -> bool
        ensures { result ≡ self.now.state.owes }
    {
        self.owes
    }

    /// Accepts a message of the lane's priority for the peer, the first so many bytes of a buffer, with the number of
    /// its port's token. `Spent` exactly where it needs a number above 4,294,967,294. A refusal changes nothing.
    pub(crate) fn accept(
        &mut self,
        alloc: Global,
        e: Envelope,
        b: &mut Reg,
        len: u32,
        token: u16,
    ) -> Result<(), OfferRefusal>
        requires sport { e.sport < 8 }
        requires dport { e.dport < 8 }
        requires prio { is_prio e.prio ≡ true }
        requires lane { e.prio ≡ self.old.key.prio }
        requires length { len ≤ message_limit }
        requires fits { len ≤ length b.old }
        ensures refused { Refuses (accept_refusal self.old.state len) OfferRefusal.NoMemory result }
        ensures ok { OnOk result (self.new ≡ in_state self.old (with_message self.old.state
            (message_in e (take len b.old)) (record { port = e.sport; token = token }))) }
        ensures err { OnErr result (self.new ≡ self.old) }
        ensures buffer { b.new ≡ b.old }
    {
        self.sender.reserve(len)?;
        self.sender.in_order();
        make_room(alloc, &mut self.sent)?;
        let message = message_in(alloc, e, b, len)?;
        let _first = self.sender.offer(Desc {
            ticket: usize::from(token),
            sport: e.sport,
            dport: e.dport,
            prio: e.prio,
            total: len,
        });
        self.sent.push_reserved(message);
        Ok(())
    }

    /// How many sends an acknowledgement of this number finishes: so many of the tickets that wait longest.
    pub(crate) fn finished_by(&self, next: u32) -> usize
        ensures { result ≡ finished_by self.now.state next }
    {
        self.sender.in_order();
        self.sender.finished_by(next) as usize
    }

    /// The ticket at a place among those that wait, the one that waits longest at 0.
    pub(crate) fn pending(&self, place: usize) -> Option<Ticket>
        ensures { result ≡ slice_get self.now.state.pending place }
    {
        match self.sender.descriptor(place) {
            Some(desc) => Some(Ticket::new(desc.sport, desc.ticket)),
            None => None,
        }
    }

    /// An acknowledgement came: the sends that it finishes wait no more.
    pub(crate) fn on_ack(&mut self, next: u32)
        ensures { self.new ≡ in_state self.old (lane_acknowledged self.old.state next) }
    {
        self.sender.in_order();
        let finished = self.sender.on_ack(next) as usize;
        drop_finished(&mut self.sender, finished);
    }

    /// A frame came; `fits` says whether a token takes its fragment. Whatever is made of it, an acknowledgement is
    /// owed. Running out of memory changes nothing.
    pub(crate) fn on_frame(
        &mut self,
        alloc: Global,
        h: &FrameHead,
        part: &[u8],
        fits: bool,
    ) -> Result<Took, AllocError>
        requires head { is_head h.now ≡ true }
        ensures took { IfOk result (λ t. t ≡ took self.old.state.taken h.now.seq fits
            (is_last h.now.total h.now.offset)) }
        ensures ok { IfOk result (λ t. self.new ≡ in_state self.old
            (lane_after self.old.state t (message_of h.now part.now))) }
        ensures err { OnErr result (self.new ≡ self.old) }
    {
        let took = self.receiver.would_take(h, fits);
        keep(alloc, &mut self.got, &mut self.coming, took, h, part)?;
        self.owes = true;
        Ok(self.receiver.on_frame(h, fits))
    }
}

// Makes room for one message more that is to be sent.
fn make_room(alloc: Global, sent: &mut MessageList) -> Result<(), OfferRefusal>
    ensures items { messages_in sent.new ≡ messages_in sent.old }
    ensures room { OnOk result (HasRoom sent.new) }
    ensures err { IfErr result (λ e. e ≡ OfferRefusal.NoMemory) }
{
    match sent.make_room(alloc) {
        Ok(()) => Ok(()),
        Err(_) => Err(OfferRefusal::NoMemory),
    }
}

// The message of an envelope and the first so many bytes of a buffer, which keeps them.
fn message_in(alloc: Global, e: Envelope, b: &mut Reg, len: u32) -> Result<Message, OfferRefusal>
    requires { len ≤ length b.old }
    ensures ok { IfOk result (λ m. m ≡ message_in e (take len b.old)) }
    ensures err { IfErr result (λ e. e ≡ OfferRefusal.NoMemory) }
    ensures buffer { b.new ≡ b.old }
{
    match b.message(alloc, len as usize) {
        Ok(body) => Ok(Message {
            sport: e.sport,
            dport: e.dport,
            prio: e.prio,
            body,
        }),
        Err(_) => Err(OfferRefusal::NoMemory),
    }
}

// The bytes of a fragment come after those of its message that came before. With the last the message joins those
// that were got.
fn keep(
    alloc: Global,
    got: &mut MessageList,
    coming: &mut Blob,
    took: Took,
    h: &FrameHead,
    part: &[u8],
) -> Result<(), AllocError>
    ensures got { OnOk result (messages_in got.new ≡
        got_after (messages_in got.old) coming.old took (message_of h.now part.now)) }
    ensures coming { OnOk result (coming.new ≡ coming_after coming.old took (message_of h.now part.now)) }
    ensures err { OnErr result (messages_in got.new ≡ messages_in got.old) }
    ensures none_came { OnErr result (coming.new ≡ coming.old) }
{
    match took {
        Took::Whole => {
            got.make_room(alloc)?;
            append(alloc, coming, h, part)?;
            got.push_reserved(Message {
                sport: h.sport,
                dport: h.dport,
                prio: h.prio,
                body: mem::replace(coming, Blob::empty()),
            });
            Ok(())
        }
        Took::Part => append(alloc, coming, h, part),
        Took::NoToken => Ok(()),
        Took::NotNext => Ok(()),
    }
}

// Puts the bytes of a fragment after those that came of its message. A first one makes room for all of them.
fn append(alloc: Global, coming: &mut Blob, h: &FrameHead, part: &[u8]) -> Result<(), AllocError>
    ensures ok { OnOk result (coming.new ≡ coming.old ++ part.now) }
    ensures err { OnErr result (coming.new ≡ coming.old) }
{
    let after = h.offset.saturating_add(u32::from(h.len));
    coming.append(alloc, part, h.total.saturating_sub(after) as usize)
}

// Takes so many finished descriptors out of a sender, which has as many and keeps its numbers.
fn drop_finished(sender: &mut Sender, count: usize)
    requires { count ≤ finished sender.old }
    ensures key { sender.new.key ≡ sender.old.key }
    ensures numbers { sender.new.numbers ≡ sender.old.numbers }
    ensures fewer { sender.new.waiting ≡ drop count sender.old.waiting }
    ensures left { finished sender.new + count ≡ finished sender.old }
    ensures waits { (sent : List Message) → WaitsFor sender.old sent → WaitsFor sender.new sent }
{
    for _ in 0..count {
        sender.in_order();
        match sender.take_finished() {
            Some(_desc) => {}
            None => unreachable!(),
        }
    }
}
