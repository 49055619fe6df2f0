//! One lane of a host: its connections with one peer, of one priority. It takes memory only when it is first used.

ghost use Rattle.std.specs.Prelude.{◌≡◌, ◌<◌, ◌≤◌, true, false, length, take, slice_get, Some};
ghost use Rattle.std.specs.Prelude.{IsSome, IfSome, OnOk, OnErr, IfOk, is_some, option_map};
ghost use Rattle.net_defs.specs.Refusal.{Refuses};
ghost use Rattle.gm_defs.specs.Body.{is_prio, is_head, is_last, message_limit};
ghost use Rattle.gm_defs.specs.Fragment.{piece_count};
ghost use Rattle.gm_defs.specs.Connection.{connection, ack_on, due, unacknowledged, is_spent, took};
ghost use Rattle.world_defs.specs.Lane.{with_message, finished_by, lane_acknowledged, lane_expired, lane_sent_one};
ghost use Rattle.world_defs.specs.Lane.{lane_answered, lane_after};
ghost use Rattle.world_defs.specs.Hearing.{message_of};
ghost use Rattle.gm_conn.specs.Lane.{in_state, other_way, unused, due_frame, head_shown, head_of_frame, ticket_of};
ghost use Rattle.gm_conn.specs.Lane.{message_in, accept_refusal, AreNumbered};

use crate::used_lane::UsedLane;
use crate::{Ack, DueFrame, Envelope, FrameHead, OfferRefusal, Ticket, Took};
use gm_defs::{ConnectionKey, Message};
use reg_mem::Reg;
use std::alloc::{AllocError, Global};
use std::marker::Model;

/// What a host sends to a peer of one priority, and what it takes from there. The messages on both sides are kept.
/// Until one is sent or taken the lane is nothing but its key.
#[derive(Drop)]
pub struct Lane {
    key: ConnectionKey,
    used: Option<Box<UsedLane>>,
}

impl Model for Lane {
    ghost use Rattle.gm_conn.specs.Lane.{HostLane};
    ghost use Rattle.gm_conn.specs.First.{lane_of, HasKey};

    ghost Value = { HostLane };

    ghost view = { λ p. lane_of p.key p.used };

    ghost invariant = { λ p. HasKey p.key p.used };
}

impl Lane {
    /// The lane of a host with a peer and a priority on which nothing was sent. It takes no memory.
    pub fn new(host: u16, peer: u16, prio: u8) -> Lane
        ensures { result ≡ unused (connection host peer prio) }
    {
        Lane {
            key: ConnectionKey {
                src: host,
                dst: peer,
                prio,
            },
            used: None,
        }
    }

    /// The fragment that is to be sent next, if one is: its head, and the send that its message is of. As many sends
    /// wait before that one as messages before its message aren't finished.
    pub fn due(&self) -> Option<DueFrame>
        ensures head { option_map head_shown result ≡ option_map head_of_frame (due_frame self.now) }
        ensures by_rules { IfSome result (λ d. is_head d.head ≡ true) }
        ensures ticket { IfSome result (λ d. ticket_of self.now.state d.head.seq ≡ Some d.ticket) }
    {
        match &self.used {
            None => None,
            Some(used) => used.due(),
        }
    }

    /// Whether a fragment is due.
    pub fn is_due(&self) -> bool
        ensures { result ≡ is_some (due_frame self.now) }
    {
        match &self.used {
            None => false,
            Some(used) => used.is_due(),
        }
    }

    /// The numbers are in order, and the fragments of all that was sent have those up to the next.
    pub fn in_order(&self)
        ensures { AreNumbered self.now.state }
    {
        match &self.used {
            None => {}
            Some(used) => used.in_order(),
        }
    }

    /// The due fragment was sent.
    pub fn sent_one(&mut self)
        requires { IsSome (due self.old.state.sender) }
        ensures { self.new ≡ in_state self.old (lane_sent_one self.old.state) }
    {
        match &mut self.used {
            None => unreachable!(),
            Some(used) => used.sent_one(),
        }
    }

    /// The acknowledgement was sent.
    pub fn answered(&mut self)
        ensures { self.new ≡ in_state self.old (lane_answered self.old.state) }
    {
        match &mut self.used {
            None => {}
            Some(used) => used.answered(),
        }
    }

    /// What isn't acknowledged is sent again.
    pub fn expire(&mut self)
        ensures { self.new ≡ in_state self.old (lane_expired self.old.state) }
    {
        match &mut self.used {
            None => {}
            Some(used) => used.expire(),
        }
    }

    /// The peer.
    pub fn peer(&self) -> u16
        ensures { result ≡ self.now.key.dst }
    {
        self.key.dst
    }

    /// How many fragments to the peer aren't acknowledged, sent or not.
    pub fn unacked(&self) -> u32
        ensures { result ≡ unacknowledged self.now.state.sender }
    {
        match &self.used {
            None => 0,
            Some(used) => used.sender.unacked(),
        }
    }

    /// Whether the peer is owed an acknowledgement.
    pub fn owes(&self) -> bool
        ensures { result ≡ self.now.state.owes }
    {
        match &self.used {
            None => false,
            Some(used) => used.owes(),
        }
    }

    /// The acknowledgement of what was taken from the peer.
    pub fn ack(&self) -> Ack
        ensures { result ≡ ack_on (other_way self.now.key) self.now.state.taken }
    {
        match &self.used {
            None => Ack {
                src: self.key.src,
                dst: self.key.dst,
                prio: self.key.prio,
                next: 0,
            },
            Some(used) => used.receiver.ack(),
        }
    }

    /// Whether a message of so many bytes needs a number above 4,294,967,294. None does on an unused lane.
    #[tactic(auto, using(crate::proofs::Unused::unused_spent))]
    pub fn is_spent(&self, len: u32) -> bool
        requires { len ≤ message_limit }
        ensures { result ≡ is_spent self.now.state.sender (piece_count len) }
    {
        match &self.used {
            None => false,
            Some(used) => used.sender.is_spent(len),
        }
    }

    /// Accepts a message of the lane's priority for the peer, the first so many bytes of a buffer, with the number of
    /// its port's token. `Spent` exactly where it needs a number above 4,294,967,294. A refusal changes nothing.
    pub fn accept(
        &mut self,
        alloc: Global,
        e: Envelope,
        b: &mut Reg,
        len: u32,
        token: u16,
    ) -> Result<(), OfferRefusal>
        requires sport { e.sport < 8 }
        requires dport { e.dport < 8 }
        requires prio { is_prio e.prio ≡ true }
        requires lane { e.prio ≡ self.old.key.prio }
        requires length { len ≤ message_limit }
        requires fits { len ≤ length b.old }
        ensures refused { Refuses (accept_refusal self.old.state len) OfferRefusal.NoMemory result }
        ensures ok { OnOk result (self.new ≡ in_state self.old (with_message self.old.state
            (message_in e (take len b.old)) (record { port = e.sport; token = token }))) }
        ensures err { OnErr result (self.new ≡ self.old) }
        ensures buffer { b.new ≡ b.old }
    {
        match &mut self.used {
            None => self.accept_first(alloc, e, b, len, token),
            Some(used) => used.accept(alloc, e, b, len, token),
        }
    }

    // The first message of an unused lane.
    fn accept_first(
        &mut self,
        alloc: Global,
        e: Envelope,
        b: &mut Reg,
        len: u32,
        token: u16,
    ) -> Result<(), OfferRefusal>
        requires unused { self.old ≡ unused self.old.key }
        requires sport { e.sport < 8 }
        requires dport { e.dport < 8 }
        requires prio { is_prio e.prio ≡ true }
        requires lane { e.prio ≡ self.old.key.prio }
        requires length { len ≤ message_limit }
        requires fits { len ≤ length b.old }
        ensures refused { Refuses (accept_refusal self.old.state len) OfferRefusal.NoMemory result }
        ensures ok { OnOk result (self.new ≡ in_state self.old (with_message self.old.state
            (message_in e (take len b.old)) (record { port = e.sport; token = token }))) }
        ensures err { OnErr result (self.new ≡ self.old) }
        ensures buffer { b.new ≡ b.old }
    {
        match self.first(alloc) {
            Ok(mut used) => {
                used.accept(alloc, e, b, len, token)?;
                self.used = Some(used);
                Ok(())
            }
            Err(_) => Err(OfferRefusal::NoMemory),
        }
    }

    /// How many sends an acknowledgement of this number finishes: so many of the tickets that wait longest.
    #[tactic(auto, using(crate::proofs::Unused::unused_finished))]
    pub fn finished_by(&self, next: u32) -> usize
        ensures { result ≡ finished_by self.now.state next }
    {
        match &self.used {
            None => 0,
            Some(used) => used.finished_by(next),
        }
    }

    /// The ticket at a place among those that wait, the one that waits longest at 0.
    pub fn pending(&self, place: usize) -> Option<Ticket>
        ensures { result ≡ slice_get self.now.state.pending place }
    {
        match &self.used {
            None => None,
            Some(used) => used.pending(place),
        }
    }

    /// An acknowledgement came: the sends that it finishes wait no more.
    #[tactic(auto, using(crate::proofs::Unused::unused_acknowledged))]
    pub fn on_ack(&mut self, next: u32)
        ensures { self.new ≡ in_state self.old (lane_acknowledged self.old.state next) }
    {
        match &mut self.used {
            None => {}
            Some(used) => used.on_ack(next),
        }
    }

    /// A frame came; `fits` says whether a token takes its fragment. Whatever is made of it, an acknowledgement is
    /// owed. Running out of memory changes nothing.
    pub fn on_frame(
        &mut self,
        alloc: Global,
        h: &FrameHead,
        part: &[u8],
        fits: bool,
    ) -> Result<Took, AllocError>
        requires head { is_head h.now ≡ true }
        ensures took { IfOk result (λ t. t ≡ took self.old.state.taken h.now.seq fits
            (is_last h.now.total h.now.offset)) }
        ensures ok { IfOk result (λ t. self.new ≡ in_state self.old
            (lane_after self.old.state t (message_of h.now part.now))) }
        ensures err { OnErr result (self.new ≡ self.old) }
    {
        match &mut self.used {
            None => self.on_first_frame(alloc, h, part, fits),
            Some(used) => used.on_frame(alloc, h, part, fits),
        }
    }

    // The first frame on an unused lane.
    fn on_first_frame(
        &mut self,
        alloc: Global,
        h: &FrameHead,
        part: &[u8],
        fits: bool,
    ) -> Result<Took, AllocError>
        requires unused { self.old ≡ unused self.old.key }
        requires head { is_head h.now ≡ true }
        ensures took { IfOk result (λ t. t ≡ took self.old.state.taken h.now.seq fits
            (is_last h.now.total h.now.offset)) }
        ensures ok { IfOk result (λ t. self.new ≡ in_state self.old
            (lane_after self.old.state t (message_of h.now part.now))) }
        ensures err { OnErr result (self.new ≡ self.old) }
    {
        let mut used = self.first(alloc)?;
        let took = used.on_frame(alloc, h, part, fits)?;
        self.used = Some(used);
        Ok(took)
    }

    /// The messages that were accepted for the peer, in order.
    pub fn sent(&self) -> &[Message]
        ensures { result.now ≡ self.now.state.sent }
    {
        match &self.used {
            None => &[],
            Some(used) => used.sent.list(),
        }
    }

    /// The messages that were taken from the peer, in order.
    pub fn got(&self) -> &[Message]
        ensures { result.now ≡ self.now.state.got }
    {
        match &self.used {
            None => &[],
            Some(used) => used.got.list(),
        }
    }

    /// The lane is as before anything was sent or taken. False only where it was so already.
    pub(crate) fn forget(&mut self) -> bool
        ensures unused { self.new ≡ unused self.old.key }
        ensures unchanged { result ≡ false → self.new ≡ self.old }
    {
        let used = self.used.is_some();
        self.used = None;
        used
    }

    // The lane as it is when it is first used.
    fn first(&self, alloc: Global) -> Result<Box<UsedLane>, AllocError>
        ensures { IfOk result (λ used. used.value ≡ unused self.now.key) }
    {
        let key = self.key;
        Ok(Box::new(alloc, UsedLane::new(alloc, key.src, key.dst, key.prio))?)
    }
}
