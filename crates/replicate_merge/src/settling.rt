//! Classes joined pair by pair, until no pair is open.

ghost use Rattle.std.specs.Prelude.{◌≡◌, ◌≢◌, ◌<◌, ◌≤◌, ◌+◌, ◌*◌, ◌++◌, ◌∷◌, [], ◌^◌, ℕ, ℤ, ◌+ℤ◌, ◌-ℤ◌, ◌≤ℤ◌, pos};
ghost use Rattle.std.specs.Prelude.{negsuc, length, map, slice_get, vec_len, vec_capacity, OnOk, IfOk, IfSome};
ghost use Rattle.std.specs.Prelude.{Some, None};
ghost use Rattle.net_defs.specs.Turn.{IsTurn};
ghost use Rattle.replicate_merge.specs.Ways.{AreJoined, IsInside, begins_at, frame_at};
ghost use Rattle.replicate_merge.specs.Work.{MovesEnds, class_at, far_end};
ghost use Rattle.replicate_merge.specs.Rounds.{IsOriented, IsSettlingSome, KeepsSettling};
ghost use Rattle.replicate_merge.specs.Steps.{AddsNode, AddsWays, HasNoNodes, HasRoomForNode, MarksNode, MayAddWays};
ghost use Rattle.replicate_merge.specs.Steps.{SameItems};
ghost use Rattle.replicate_merge.specs.Growing.{Grows, MayGrow};
ghost use Rattle.replicate_merge.specs.Ends.{end_at, known_ends};
ghost use Rattle.replicate_merge.specs.Nodes.{nodes_of};
ghost use Rattle.replicate_merge.specs.Heads.{AreSeen, head_at, seen_frame};
ghost use Rattle.replicate_merge.specs.HeadSteps.{IsJoinedByHeads, IsJoinedByMarks};
ghost use Rattle.replicate_merge.specs.Adding.{AddsEnd, IsTurnSpot, known_at};

use crate::adding::{add_end, add_host, far_end};
use crate::ends::{PLACES, move_ends};
use crate::frames::Frames;
use crate::heads::{Head, Heads};
use crate::meeting::{HostNode, Meeting};
use crate::seeing::{see_all, seen};
use crate::way::{Spot, Way, begins_at};
use port_align::{ClassFrame, PortTable};
use probe::WalkIndex;
use std::alloc::{AllocError, Global};

/// Frames by the nodes that name classes, far ends, and pairs of ports that are to be one.
#[derive(Drop)]
pub struct Joined {
    /// The frame of each node: its class, by the node that names it, and its offset there.
    pub frames: Frames,
    /// The far end that is known of each port of a class, 31 ports a node that may name one.
    pub ends: PortTable,
    /// The node that is known of each host's address.
    pub hosts: Vec<HostNode>,
    /// Pairs of ports that are to be one.
    pub todo: Vec<Meeting>,
    /// Numbers, least nodes and marks of the classes.
    pub heads: Heads,
}

impl Joined {
    /// No nodes. It takes no memory.
    pub fn new(alloc: Global) -> Joined
        ensures { HasNoNodes result }
    {
        Joined {
            frames: Frames::new(alloc),
            ends: PortTable::new(alloc),
            hosts: Vec::new(alloc),
            todo: Vec::new(alloc),
            heads: Heads {
                heads: Vec::new(alloc),
                names: Vec::new(alloc),
                marks: Vec::new(alloc),
            },
        }
    }

    /// Room for a node with so many ways: for all that is done until no pair is open.
    pub fn reserve(&mut self, ways: usize) -> Result<(), AllocError>
        requires few { length self.old.heads.names.items < 2 ^ 32 }
        requires few_ways { ways ≤ 128 }
        ensures same { SameItems self.old self.new }
        ensures node { OnOk result (HasRoomForNode self.new) }
        ensures hosts { OnOk result (vec_len self.new.hosts + ways ≤ vec_capacity self.new.hosts) }
        ensures todo { OnOk result (vec_len self.new.todo + (31 * (length self.new.heads.names.items + 1) + ways) ≤
            vec_capacity self.new.todo) }
    {
        let classes = self.heads.names.len();
        self.frames.reserve()?;
        self.ends.reserve()?;
        self.hosts.reserve(ways)?;
        self.heads.heads.reserve(1)?;
        self.heads.names.reserve(1)?;
        self.heads.marks.reserve(1)?;
        self.todo.reserve(PLACES * (classes + 1) + ways)
    }

    /// Adds a node that is a class of its own. There is room.
    pub fn add_node(&mut self, marked: bool)
        requires room { HasRoomForNode self.old }
        requires few { length self.old.frames.items < 2 ^ 32 }
        requires headed { length self.old.heads.heads.items ≡ length self.old.frames.items }
        requires few_names { length self.old.heads.names.items < 2 ^ 32 }
        ensures { AddsNode marked self.old self.new }
    {
        self.frames.add();
        self.ends.add();
        self.heads.add(marked);
    }

    /// Adds a way: its end is known from now on where none was known of its beginning; else the two are to be one.
    /// There is room.
    pub fn add_way(&mut self, way: &Way)
        requires inside { IsInside (length self.old.frames.items) way.now }
        requires turn { IsTurnSpot (begins_at self.old.frames.items way.now) }
        requires placed { (n : ℕ) → n < length self.old.frames.items → (frame_at self.old.frames.items n).class <
            length self.old.frames.items }
        requires table { 31 * length self.old.frames.items ≤ length self.old.ends.items }
        requires place { vec_len self.old.hosts < vec_capacity self.old.hosts }
        requires room { vec_len self.old.todo < vec_capacity self.old.todo }
        ensures adds { AddsEnd (begins_at self.old.frames.items way.now) (far_end way.now)
            (known_at self.old.hosts.items self.old.ends.items) (known_at self.new.hosts.items self.new.ends.items)
            self.old.todo.items self.new.todo.items }
        ensures frames { self.new.frames ≡ self.old.frames }
        ensures heads { self.new.heads ≡ self.old.heads }
        ensures same { length self.new.ends.items ≡ length self.old.ends.items }
        ensures few { vec_len self.new.todo ≤ vec_len self.old.todo + 1 }
        ensures capacity { vec_capacity self.new.todo ≡ vec_capacity self.old.todo }
        ensures few_hosts { vec_len self.new.hosts ≤ vec_len self.old.hosts + 1 }
        ensures host_capacity { vec_capacity self.new.hosts ≡ vec_capacity self.old.hosts }
    {
        let end = far_end(way);
        match begins_at(self.frames.items(), way) {
            Spot::Address(address) => add_host(&mut self.hosts, &mut self.todo, address, end.node),
            Spot::Port(class, port) => add_end(&mut self.ends, &mut self.todo, class, port, end),
        }
    }

    /// Adds ways one after another. There is room.
    pub fn add_ways(&mut self, walks: &WalkIndex, ways: &[Way])
        requires some { MayAddWays (nodes_of walks.now) self.old ways.now }
        requires place { vec_len self.old.hosts + length ways.now ≤ vec_capacity self.old.hosts }
        requires room { vec_len self.old.todo + length ways.now ≤ vec_capacity self.old.todo }
        ensures adds { AddsWays (nodes_of walks.now) ways.now self.old self.new }
        ensures heads { self.new.heads ≡ self.old.heads }
        ensures few { vec_len self.new.todo ≤ vec_len self.old.todo + length ways.now }
        ensures capacity { vec_capacity self.new.todo ≡ vec_capacity self.old.todo }
    {
        let _nodes = walks.len();
        for way in ways {
            self.add_way(way);
        }
    }

    /// Adds a node and its ways, and joins classes until no pair is open. There is room.
    pub fn grow(&mut self, walks: &WalkIndex, ways: &[Way], marked: bool)
        requires may { MayGrow (nodes_of walks.now) self.old ways.now marked }
        requires closed { self.old.todo.items ≡ [] }
        requires few { length walks.now < 2 ^ 32 }
        requires node { HasRoomForNode self.old }
        requires place { vec_len self.old.hosts + length ways.now ≤ vec_capacity self.old.hosts }
        requires room { vec_len self.old.todo + (31 * (length self.old.heads.names.items + 1) + length ways.now) ≤
            vec_capacity self.old.todo }
        ensures grows { Grows (nodes_of walks.now) ways.now marked self.old self.new }
        ensures done { self.new.todo.items ≡ [] }
    {
        self.add_node(marked);
        self.add_ways(walks, ways);
        self.settle(walks);
    }

    /// Marks the class of a node.
    pub fn mark(&mut self, node: u32)
        requires there { node < length self.old.frames.items }
        requires named { (frame_at self.old.frames.items node).class < length self.old.heads.heads.items }
        requires numbered { (head_at self.old.heads.heads.items (frame_at self.old.frames.items node).class).number <
            length self.old.heads.marks.items }
        ensures { MarksNode node self.old self.new }
    {
        self.heads.mark(self.frames.at(node).class);
    }

    /// The class of a node by its number, and where the node's ports lie among those of the class's least node.
    pub fn seen_frame(&self, node: u32) -> ClassFrame
        requires there { node < length self.now.frames.items }
        requires named { (frame_at self.now.frames.items node).class < length self.now.heads.heads.items }
        requires turn { IsTurn (seen_frame self.now.heads.heads.items (frame_at self.now.frames.items node)).offset }
        ensures { result ≡ seen_frame self.now.heads.heads.items (frame_at self.now.frames.items node) }
    {
        seen(&self.heads.heads, self.frames.at(node))
    }

    /// The class of each node by its number, where its ports lie among those of the class's least node, and the marks
    /// of the classes, in the memory where they stand. All by which classes are joined ends here.
    pub fn into_seen(self) -> (Vec<ClassFrame>, Vec<bool>)
        requires { AreSeen self.heads.heads.items self.frames.items }
        ensures frames { result.0.items ≡ map (seen_frame self.heads.heads.items) self.frames.items }
        ensures marks { result.1.items ≡ self.heads.marks.items }
    {
        let Joined {
            frames,
            ends: _,
            hosts: _,
            todo: _,
            heads,
        } = self;
        let Heads {
            heads,
            names: _,
            marks,
        } = heads;
        let mut frames = frames.into_items();
        see_all(&heads, &mut frames);
        (frames, marks)
    }

    /// The same as another value, which leaves this one as it is.
    pub fn seen(&self, alloc: Global) -> Result<(Vec<ClassFrame>, Vec<bool>), AllocError>
        requires { AreSeen self.now.heads.heads.items self.now.frames.items }
        ensures frames { IfOk result (λ s. s.0.items ≡ map (seen_frame self.now.heads.heads.items)
            self.now.frames.items) }
        ensures marks { IfOk result (λ s. s.1.items ≡ self.now.heads.marks.items) }
    {
        let mut frames = Vec::from_slice(alloc, self.frames.items())?;
        see_all(&self.heads.heads, &mut frames);
        let marks = Vec::from_slice(alloc, &self.heads.marks)?;
        Ok((frames, marks))
    }

    /// Joins classes until no pair is open.
    pub fn settle(&mut self, walks: &WalkIndex)
        requires some { IsSettlingSome (nodes_of walks.now) self.old self.old.todo.items }
        requires room { 31 * length self.old.heads.names.items + length self.old.todo.items ≤
            vec_capacity self.old.todo }
        ensures keeps { KeepsSettling (nodes_of walks.now) self.old self.old.todo.items self.new [] }
        ensures done { self.new.todo.items ≡ [] }
    {
        'settling: while let Some(meeting) = self.todo.pop() {
            self.meet(walks, meeting);
        }
    }

    // Joins the classes of two ports that are one, the one with fewer nodes to the other.
    fn meet(&mut self, walks: &WalkIndex, meeting: Meeting)
        requires some { IsSettlingSome (nodes_of walks.now) self.old (self.old.todo.items ++ meeting ∷ []) }
        requires room { 31 * length self.old.heads.names.items + length self.old.todo.items <
            vec_capacity self.old.todo }
        ensures keeps { KeepsSettling (nodes_of walks.now) self.old (self.old.todo.items ++ meeting ∷ []) self.new
            self.new.todo.items }
        ensures less { 31 * length self.new.heads.names.items + length self.new.todo.items ≤
            31 * length self.old.heads.names.items + length self.old.todo.items }
        ensures capacity { vec_capacity self.new.todo ≡ vec_capacity self.old.todo }
    {
        match oriented(&self.frames, &self.heads.heads, meeting) {
            None => {}
            Some(way) => self.join(walks, way.from, way.to, way.by),
        }
    }

    // Joins one class to another, whose ports lie so far from its own.
    fn join(&mut self, walks: &WalkIndex, from: u32, to: u32, by: i16)
        requires two { from ≢ to }
        requires is_from { from < length self.old.frames.items }
        requires is_to { to < length self.old.frames.items }
        requires names_from { (frame_at self.old.frames.items from).class ≡ from }
        requires names_to { (frame_at self.old.frames.items to).class ≡ to }
        requires table { 31 * length self.old.frames.items ≤ length self.old.ends.items }
        requires headed { length self.old.heads.heads.items ≡ length self.old.frames.items }
        requires walked { length self.old.frames.items ≡ length walks.now + 1 }
        requires small { IsTurn by }
        requires turns { (n : ℕ) → n < length self.old.frames.items → IsTurn (frame_at self.old.frames.items n).offset }
        requires there { (n : ℕ) → n < length self.old.frames.items → (frame_at self.old.frames.items n).class ≡
            from → IsTurn ((frame_at self.old.frames.items n).offset +ℤ by) }
        requires in_range { (p : ℤ) → end_at self.old.ends.items from p ≢ None → IsTurn (p +ℤ by) }
        requires room { vec_len self.old.todo + 31 ≤ vec_capacity self.old.todo }
        requires first { (head_at self.old.heads.heads.items from).number < length self.old.heads.names.items }
        requires second { (head_at self.old.heads.heads.items to).number < length self.old.heads.names.items }
        requires marked { length self.old.heads.marks.items ≡ length self.old.heads.names.items }
        requires inside { (k n : ℕ) → slice_get self.old.heads.names.items k ≡ Some n → n <
            length self.old.heads.heads.items }
        requires least_first { (head_at self.old.heads.heads.items from).least < length self.old.frames.items }
        requires least_second { (head_at self.old.heads.heads.items to).least < length self.old.frames.items }
        requires base_turn { IsTurn (head_at self.old.heads.heads.items from).base }
        requires base { IsTurn ((head_at self.old.heads.heads.items from).base +ℤ by) }
        ensures frames { AreJoined from to by self.old.frames.items self.new.frames.items }
        ensures moves { MovesEnds from to by (known_ends self.old.ends.items) (known_ends self.new.ends.items)
            self.old.todo.items self.new.todo.items }
        ensures heads { IsJoinedByHeads (nodes_of walks.now) from to by self.old.heads.heads.items
            self.new.heads.heads.items self.old.heads.names.items self.new.heads.names.items }
        ensures marks { IsJoinedByMarks (head_at self.old.heads.heads.items from).number
            (head_at self.old.heads.heads.items to).number self.old.heads.names.items self.old.heads.marks.items
            self.new.heads.marks.items }
        ensures headed { length self.new.heads.heads.items ≡ length self.old.heads.heads.items }
        ensures counted { length self.new.heads.marks.items ≡ length self.new.heads.names.items }
        ensures table { length self.new.ends.items ≡ length self.old.ends.items }
        ensures hosts { self.new.hosts ≡ self.old.hosts }
        ensures few { vec_len self.new.todo ≤ vec_len self.old.todo + 31 }
        ensures capacity { vec_capacity self.new.todo ≡ vec_capacity self.old.todo }
    {
        let offset = by as i8;
        self.heads.join(walks, from, to, offset);
        move_ends(&mut self.ends, &mut self.todo, from, to, by);
        self.frames.join(from, to, offset);
    }
}

// A class that is joined to another, whose ports lie so far from its own.
#[derive(Clone, Copy, Debug)]
pub(crate) struct Joining {
    from: u32,
    to: u32,
    by: i16,
}

// Which class of two ports that are one is joined to the other: the one with fewer nodes. None where the two are
// one class.
fn oriented(frames: &Frames, heads: &Vec<Head>, meeting: Meeting) -> Option<Joining>
    requires first { meeting.first.node < length frames.now.items }
    requires second { meeting.second.node < length frames.now.items }
    requires placed { (n : ℕ) → n < length frames.now.items → (frame_at frames.now.items n).class <
        length heads.now.items }
    ensures none { result ≡ None → class_at frames.now.items meeting.first ≡ class_at frames.now.items meeting.second }
    ensures some { IfSome result (λ way. IsOriented frames.now.items meeting way.from way.to way.by) }
{
    let first = frames.at(meeting.first.node);
    let second = frames.at(meeting.second.node);
    if first.class == second.class {
        return None;
    }
    if heads[first.class as usize].count < heads[second.class as usize].count {
        return Some(Joining {
            from: first.class,
            to: second.class,
            by: apart(second, meeting.second.port, first, meeting.first.port),
        });
    }
    Some(Joining {
        from: second.class,
        to: first.class,
        by: apart(first, meeting.first.port, second, meeting.second.port),
    })
}

// How far a port of one class lies from a port of another, with the ports as those of two nodes.
fn apart(first: ClassFrame, p: i8, second: ClassFrame, q: i8) -> i16
    ensures { result ≡ (p +ℤ first.offset) -ℤ (q +ℤ second.offset) }
{
    port_in(first, p) - port_in(second, q)
}

// A port of a node as one of its class.
fn port_in(frame: ClassFrame, port: i8) -> i16
    ensures port { result ≡ port +ℤ frame.offset }
    ensures low { negsuc 255 ≤ℤ result }
    ensures high { result ≤ℤ pos 254 }
{
    i16::from(port) + i16::from(frame.offset)
}
