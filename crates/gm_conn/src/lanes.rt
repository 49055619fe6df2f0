//! The lanes of a host.

ghost use Rattle.std.specs.Prelude.{◌≡◌, ◌<◌, ◌≤◌, ◌^◌, ℕ, length, take, true, IfOk, OnOk, OnErr, IsSome};
ghost use Rattle.net_defs.specs.Refusal.{Refuses};
ghost use Rattle.gm_defs.specs.Body.{is_head, is_last, message_limit};
ghost use Rattle.gm_defs.specs.Fragment.{piece_count};
ghost use Rattle.gm_defs.specs.Connection.{due, is_spent, took};
ghost use Rattle.world_defs.specs.Lane.{new_lane, with_message, lane_acknowledged, lane_sent_one, lane_answered};
ghost use Rattle.world_defs.specs.Lane.{lane_after};
ghost use Rattle.world_defs.specs.Node.{lane_count, lane_of};
ghost use Rattle.world_defs.specs.Hearing.{message_of, frame_lane, ack_lane};
ghost use Rattle.gm_conn.specs.Lane.{message_in, accept_refusal, AreNumbered};
ghost use Rattle.gm_conn.specs.Lanes.{all_unused, lane_in, held_lane, with_state, one_expired, both_expired};
ghost use Rattle.gm_conn.specs.Lanes.{unacknowledged_to, owes_on, has_due, has_unacked, IsNext};

use crate::number::{lane_count, lane_of, peer_of, prio_of};
use crate::sets::LaneSets;
use crate::{Ack, Envelope, FrameHead, Lane, OfferRefusal, Took};
use reg_mem::Reg;
use std::alloc::{AllocError, Global};
use std::marker::Model;

/// What a host sends to its peers and takes from them, by the numbers of its lanes. The host is among its peers, and
/// sends nothing to itself. Which lanes have something to be done is known without a look at each.
#[derive(Drop)]
pub struct Lanes {
    host: u16,
    hosts: u16,
    lanes: Vec<Lane>,
    sets: LaneSets,
}

impl Model for Lanes {
    ghost use Rattle.gm_conn.specs.Lanes.{HostLanes, states};
    ghost use Rattle.gm_conn.specs.Sets.{AreTold};

    ghost Value = { HostLanes };

    ghost view = { λ p. record { host = p.host; hosts = p.hosts; lanes = states p.lanes.items } };

    ghost invariant = { λ p. AreTold p.host p.hosts p.lanes.items p.sets };
}

impl Lanes {
    /// The lanes of a host among so many, before anything was sent.
    pub fn new(alloc: Global, host: u16, hosts: u16) -> Result<Lanes, AllocError>
        ensures { IfOk result (λ p. p ≡ all_unused host hosts) }
    {
        let count = lane_count(hosts);
        let sets = LaneSets::new(alloc, count)?;
        let mut lanes = Vec::with_capacity(alloc, count as usize)?;
        for lane in 0..count {
            lanes.push_reserved(Lane::new(host, peer_of(lane), prio_of(lane)));
        }
        Ok(Lanes {
            host,
            hosts,
            lanes,
            sets,
        })
    }

    /// How many hosts there are: one for each two lanes.
    pub fn hosts(&self) -> u16
        ensures hosts { result ≡ self.now.hosts }
        ensures lanes { length self.now.lanes ≡ lane_count result }
    {
        self.hosts
    }

    /// There are two lanes for each host. The numbers of each are in order, and the fragments of all that was sent by
    /// it have those up to the next.
    pub fn in_order(&self)
        ensures numbers { (lane : ℕ) → AreNumbered (lane_in self.now lane) }
        ensures count { length self.now.lanes ≡ lane_count self.now.hosts }
    {
        let _hosts = self.hosts;
    }

    /// How many lanes there are.
    pub fn count(&self) -> u32
        ensures { result ≡ length self.now.lanes }
    {
        lane_count(self.hosts)
    }

    /// A lane by its number.
    pub fn at(&self, lane: u32) -> &Lane
        requires { lane < length self.now.lanes }
        ensures { result.now ≡ held_lane self.now lane }
    {
        &self.lanes[lane as usize]
    }

    /// The lane of a peer and a priority. Any priority above 0 counts as 1.
    pub fn lane(&self, peer: u16, prio: u8) -> &Lane
        requires { peer < self.now.hosts }
        ensures { result.now ≡ held_lane self.now (lane_of peer prio) }
    {
        self.at(self.number(peer, prio))
    }

    /// The due fragment of a lane was sent.
    pub fn sent_one(&mut self, lane: u32)
        requires within { lane < length self.old.lanes }
        requires due { IsSome (due (lane_in self.old lane).sender) }
        ensures { self.new ≡ with_state self.old lane (lane_sent_one (lane_in self.old lane)) }
    {
        let at = &mut self.lanes[lane as usize];
        at.sent_one();
        self.sets.note(lane, at);
    }

    /// The acknowledgement of a lane was sent.
    pub fn answered(&mut self, lane: u32)
        requires { lane < length self.old.lanes }
        ensures { self.new ≡ with_state self.old lane (lane_answered (lane_in self.old lane)) }
    {
        let at = &mut self.lanes[lane as usize];
        at.answered();
        self.sets.note(lane, at);
    }

    /// What a peer didn't acknowledge is sent again, of both priorities.
    pub fn expire(&mut self, peer: u16)
        requires { peer < self.old.hosts }
        ensures { self.new ≡ both_expired self.old peer }
    {
        self.expire_one(peer, 0);
        self.expire_one(peer, 1);
    }

    // What a peer didn't acknowledge is sent again, of one priority.
    fn expire_one(&mut self, peer: u16, prio: u8)
        requires { peer < self.old.hosts }
        ensures { self.new ≡ one_expired self.old (lane_of peer prio) }
    {
        let lane = self.number(peer, prio);
        let at = &mut self.lanes[lane as usize];
        at.expire();
        self.sets.note(lane, at);
    }

    /// How many fragments to a peer aren't acknowledged, sent or not, of both priorities.
    pub fn unacked(&self, peer: u16) -> u64
        requires { peer < self.now.hosts }
        ensures sum { result ≡ unacknowledged_to self.now peer }
        ensures bounded { result ≤ 8589934590 }
    {
        u64::from(self.lane(peer, 0).unacked()) + u64::from(self.lane(peer, 1).unacked())
    }

    /// The least lane from one on that owes an acknowledgement, if there is one.
    pub fn next_owing(&self, from: u32) -> Option<u32>
        ensures { IsNext (owes_on self.now) from (length self.now.lanes) result }
    {
        self.sets.next_owing(from)
    }

    /// The least lane from one on with a fragment due, if there is one.
    pub fn next_due(&self, from: u32) -> Option<u32>
        ensures { IsNext (has_due self.now) from (length self.now.lanes) result }
    {
        self.sets.next_due(from)
    }

    /// The least lane from one on with something unacknowledged, sent or not, if there is one.
    pub fn next_unacked(&self, from: u32) -> Option<u32>
        ensures { IsNext (has_unacked self.now) from (length self.now.lanes) result }
    {
        self.sets.next_unacked(from)
    }

    /// Whether a message of so many bytes for a peer needs a number above 4,294,967,294 in the lane of its priority.
    pub fn is_spent(&self, peer: u16, prio: u8, len: u32) -> bool
        requires peer { peer < self.now.hosts }
        requires length { len ≤ message_limit }
        ensures { result ≡ is_spent (lane_in self.now (lane_of peer prio)).sender (piece_count len) }
    {
        self.lane(peer, prio).is_spent(len)
    }

    /// Accepts a message for a peer, the first so many bytes of a buffer, with the number of its port's token, in the
    /// lane of its priority. A refusal changes nothing: Spent where it needs a number above 4,294,967,294.
    pub fn accept(
        &mut self,
        alloc: Global,
        peer: u16,
        e: Envelope,
        b: &mut Reg,
        len: u32,
        token: u16,
    ) -> Result<(), OfferRefusal>
        requires peer { peer < self.old.hosts }
        requires sport { e.sport < 8 }
        requires dport { e.dport < 8 }
        requires prio { e.prio < 2 }
        requires length { len ≤ message_limit }
        requires fits { len ≤ length b.old }
        ensures refused { Refuses (accept_refusal (lane_in self.old (lane_of peer e.prio)) len)
            OfferRefusal.NoMemory result }
        ensures ok { OnOk result (self.new ≡ with_state self.old (lane_of peer e.prio)
            (with_message (lane_in self.old (lane_of peer e.prio)) (message_in e (take len b.old))
            (record { port = e.sport; token = token }))) }
        ensures err { OnErr result (self.new ≡ self.old) }
        ensures buffer { b.new ≡ b.old }
    {
        let lane = self.number(peer, e.prio);
        let at = &mut self.lanes[lane as usize];
        let accepted = at.accept(alloc, e, b, len, token);
        self.sets.note(lane, at);
        accepted
    }

    /// An acknowledgement came from a peer: the sends of its lane that it finishes wait no more.
    pub fn on_ack(&mut self, a: &Ack)
        requires { a.now.src < self.old.hosts }
        ensures { self.new ≡ with_state self.old (ack_lane a.now)
            (lane_acknowledged (lane_in self.old (ack_lane a.now)) a.now.next) }
    {
        let lane = self.number(a.src, a.prio);
        let at = &mut self.lanes[lane as usize];
        at.on_ack(a.next);
        self.sets.note(lane, at);
    }

    /// A frame came from a peer; `fits` says whether a token takes its fragment. Whatever is made of it, its lane owes
    /// an acknowledgement. Running out of memory changes nothing.
    pub fn on_frame(
        &mut self,
        alloc: Global,
        h: &FrameHead,
        part: &[u8],
        fits: bool,
    ) -> Result<Took, AllocError>
        requires peer { h.now.src < self.old.hosts }
        requires head { is_head h.now ≡ true }
        ensures took { IfOk result (λ t. t ≡ took (lane_in self.old (frame_lane h.now)).taken h.now.seq fits
            (is_last h.now.total h.now.offset)) }
        ensures ok { IfOk result (λ t. self.new ≡ with_state self.old (frame_lane h.now)
            (lane_after (lane_in self.old (frame_lane h.now)) t (message_of h.now part.now))) }
        ensures err { OnErr result (self.new ≡ self.old) }
    {
        let lane = self.number(h.src, h.prio);
        let at = &mut self.lanes[lane as usize];
        let took = at.on_frame(alloc, h, part, fits);
        self.sets.note(lane, at);
        took
    }

    /// All lanes are as before anything was sent. A lane that was never used is only looked at, and no memory is taken.
    pub fn forget(&mut self)
        ensures { self.new ≡ all_unused self.old.host self.old.hosts }
    {
        self.in_order();
        for lane in 0..self.count() {
            self.forget_one(lane);
        }
    }

    // A lane is as before anything was sent. The sets have none that was so already.
    fn forget_one(&mut self, lane: u32)
        requires { lane < length self.old.lanes }
        ensures { self.new ≡ with_state self.old lane new_lane }
    {
        let at = &mut self.lanes[lane as usize];
        if at.forget() {
            self.sets.note(lane, at);
        }
    }

    // The number of the lane of a peer and a priority.
    fn number(&self, peer: u16, prio: u8) -> u32
        requires { peer < self.now.hosts }
        ensures number { result ≡ lane_of peer prio }
        ensures within { result < length self.now.lanes }
    {
        // The peer is one of these hosts, so its lanes are there.
        let _hosts = self.hosts;
        lane_of(peer, prio)
    }
}
