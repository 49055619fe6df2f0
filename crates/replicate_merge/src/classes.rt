//! The classes of a journal, kept entry by entry.

ghost use Rattle.std.specs.Prelude.{◌≡◌, ◌≢◌, ◌<◌, ◌≤◌, ◌+◌, ◌*◌, ◌++◌, ◌∷◌, [], ◌^◌, ℕ, true, false, length, vec_len};
ghost use Rattle.std.specs.Prelude.{vec_capacity, slice_get, Some, None, IfSome, IfOk, OnOk, OnErr};
ghost use Rattle.net_defs.specs.Turn.{IsTurn};
ghost use Rattle.journal_defs.specs.Tree.{is_found};
ghost use Rattle.journal_defs.specs.Tree.Node.{Reached};
ghost use Rattle.probe.specs.Keeping.{has_walk};
ghost use Rattle.replicate_merge.specs.Table.{IsTrueOfOne, StandsFor};
ghost use Rattle.replicate_merge.specs.Next.{HasNext, StandsForNext};
ghost use Rattle.replicate_merge.specs.Steps.{HasRoomForNode, SameItems};
ghost use Rattle.replicate_merge.specs.Between.{AddsEntry, CountsTurn, HasSeenFrames, IsFrontOf, looking_ahead};
ghost use Rattle.replicate_merge.specs.Between.{turns_of, with_orphan};
ghost use Rattle.replicate_merge.specs.Merged.{without_tables};

use crate::at_once::joined_at_once;
use crate::fronts::{Front, front_of, is_before};
use crate::journals::{count_turns, found_walks, orphans_of};
use crate::merged::Merged;
use crate::pushing::{asked_behind, ways_added};
use crate::starting::lone_host;
use crate::ways::{TURNS, is_found};
use crate::{Joined, Way};
use net_defs::Walk;
use port_align::ClassFrame;
use probe::{Entry, Journal, WalkIndex};
use std::alloc::{AllocError, Global};
use std::marker::Model;

/// The classes of a journal's nodes. Contracts see the nodes by number, their frames, and which classes have an
/// expanded member.
///
/// The mapper's host is node 0; the walks that found a host or a switch are numbered from 1 in the journal's order.
/// Classes are numbered from 0, and a number may pass to another class when an entry is pushed.
#[derive(Drop)]
pub struct Classes {
    walks: WalkIndex,
    // The walks that found nothing and had no node in front when they were asked.
    orphans: WalkIndex,
    // Whether any walk may have had no node in front when it was asked.
    ahead: bool,
    // How many of its 30 turns are asked, for each node.
    asked: Vec<u8>,
    joined: Joined,
    // The place of the walk to the node in front of the last entry. The next one is likely to leave the same node.
    front: u32,
    // Room for the ways of a node.
    ways: Vec<Way>,
}

impl Model for Classes {
    ghost use Rattle.std.specs.Prelude.{◌≡◌, []};
    ghost use Rattle.replicate_merge.specs.Table.{ClassTable, IsTable};
    ghost use Rattle.replicate_merge.specs.Seen.{class_table, kept_of};
    ghost use Rattle.replicate_merge.specs.Kept.{IsShaped};

    ghost Value = { ClassTable };

    ghost view = { λ c. class_table c.walks (kept_of c.joined c.asked.items c.orphans c.ahead)
        c.joined.heads.marks.items };

    ghost invariant = { λ c. IsTable (class_table c.walks (kept_of c.joined c.asked.items c.orphans c.ahead)
        c.joined.heads.marks.items) × IsShaped (kept_of c.joined c.asked.items c.orphans c.ahead) ×
        (c.joined.todo.items ≡ []) };
}

impl Classes {
    /// The classes of a host's journal before its first ask.
    pub fn new(alloc: Global, host: u16) -> Result<Classes, AllocError>
        ensures { IfOk result (λ c. StandsFor host [] c) }
    {
        let mut asked = Vec::new(alloc);
        asked.push(0)?;
        let joined = lone_host(alloc, host)?;
        Ok(Classes {
            walks: WalkIndex::new(alloc),
            orphans: WalkIndex::new(alloc),
            ahead: false,
            asked,
            joined,
            front: 0,
            ways: Vec::new(alloc),
        })
    }

    /// The classes of a journal whose answers other than Nothing are true of one fabric: all its nodes and all its ways
    /// at once, whatever the order of its entries. The next pushes look behind each new node.
    pub fn from_journal(alloc: Global, j: &Journal) -> Result<Classes, AllocError>
        requires true_of_one { IsTrueOfOne j.now.host j.now.entries }
        requires few { length j.now.entries < 4294967295 }
        ensures { IfOk result (λ c. StandsFor j.now.host j.now.entries c) }
    {
        let walks = found_walks(alloc, j)?;
        let asked = count_turns(alloc, j, &walks)?;
        let orphans = orphans_of(alloc, j, &walks)?;
        let joined = joined_at_once(alloc, j, &walks, &asked)?;
        Ok(Classes {
            walks,
            orphans,
            ahead: true,
            asked,
            joined,
            front: 0,
            ways: Vec::new(alloc),
        })
    }

    /// Goes on to the journal with one entry more. All memory is taken before the first change.
    pub fn push(&mut self, alloc: Global, e: &Entry) -> Result<(), AllocError>
        requires next { HasNext self.old e.now }
        ensures pushed { OnOk result (StandsForNext self.old e.now self.new) }
        ensures unchanged { OnErr result (self.new ≡ self.old) }
    {
        self.index()?;
        let front = self.front_of(e);
        self.go_on(alloc, e, front)
    }

    /// The same, where it is known what stands in front of the entry's walk. No walk is looked for; and while each
    /// front is that of the entry before it or a later node, no index of walks is made.
    pub fn push_at(&mut self, alloc: Global, e: &Entry, front: Front) -> Result<(), AllocError>
        requires next { HasNext self.old e.now }
        requires front { IsFrontOf self.old.nodes e.now.walk front }
        ensures pushed { OnOk result (StandsForNext self.old e.now self.new) }
        ensures unchanged { OnErr result (self.new ≡ self.old) }
    {
        self.index_at(front)?;
        self.go_on(alloc, e, front)
    }

    // Makes the index of walks, unless the fronts come in the order of their nodes: whoever goes through the nodes then
    // finds each front from the one before on.
    fn index_at(&mut self, front: Front) -> Result<(), AllocError>
        ensures { self.new ≡ self.old }
    {
        if self.ahead || is_before(front, self.front) {
            self.index()
        } else {
            Ok(())
        }
    }

    // Makes the index of walks, if there is none.
    fn index(&mut self) -> Result<(), AllocError>
        ensures { self.new ≡ self.old }
    {
        self.walks.index()
    }

    // Goes on to the journal with one entry more, in front of whose walk this stands.
    fn go_on(&mut self, alloc: Global, e: &Entry, front: Front) -> Result<(), AllocError>
        requires next { HasNext self.old e.now }
        requires front { IsFrontOf self.old.nodes e.now.walk front }
        ensures pushed { OnOk result (StandsForNext self.old e.now self.new) }
        ensures unchanged { OnErr result (self.new ≡ self.old) }
    {
        // That the turns of a walk are from -15 to 15, and what the tables keep, is known where they are read.
        let _turns = e.walk.turns();
        let _ahead = self.ahead;
        self.add_entry(alloc, e, front)?;
        match front {
            Front::Mapper => {}
            Front::Node(node, turn) => self.count_turn(node, turn),
            Front::Missing => self.look_ahead(),
        }
        Ok(())
    }

    // What stands in front of an entry's walk.
    fn front_of(&self, e: &Entry) -> Front
        ensures { IsFrontOf self.now.nodes e.now.walk result }
    {
        front_of(&self.walks, e.walk.turns(), self.front)
    }

    // Adds the node that an entry found. Where it found nothing and no node is in front of it, its walk is kept.
    fn add_entry(&mut self, alloc: Global, e: &Entry, front: Front) -> Result<(), AllocError>
        requires next { HasNext self.old e.now }
        requires front { IsFrontOf self.old.nodes e.now.walk front }
        requires seen { HasSeenFrames self.old }
        ensures adds { OnOk result (AddsEntry self.old e.now self.new) }
        ensures unchanged { OnErr result (self.new ≡ self.old) }
    {
        if is_found(e.answer) {
            return self.push_node(alloc, e, front);
        }
        match front {
            Front::Missing => self.push_orphan(alloc, e.walk.turns()),
            Front::Mapper => Ok(()),
            Front::Node(_, _) => Ok(()),
        }
    }

    // Adds the node that an entry found. All memory is taken before the first change.
    fn push_node(&mut self, alloc: Global, e: &Entry, front: Front) -> Result<(), AllocError>
        requires next { HasNext self.old e.now }
        requires front { IsFrontOf self.old.nodes e.now.walk front }
        requires found { is_found e.now.answer ≡ true }
        ensures adds { OnOk result (AddsEntry self.old e.now self.new) }
        ensures unchanged { OnErr result (self.new ≡ self.old) }
    {
        let walk = e.walk.turns();
        ways_added(
            alloc,
            &mut self.ways,
            &self.walks,
            self.ahead,
            walk,
            e.answer,
            front,
        )?;
        let asked = asked_behind(alloc, &self.walks, &self.orphans, self.ahead, walk)?;
        take_room(&mut self.joined, &mut self.asked, self.ways.len())?;
        self.walks.append(alloc, walk)?;
        self.asked.push_reserved(asked);
        self.joined.grow(&self.walks, &self.ways, asked == TURNS);
        Ok(())
    }

    // Keeps a walk that found nothing.
    fn push_orphan(&mut self, alloc: Global, walk: &[i8]) -> Result<(), AllocError>
        requires { has_walk self.old.kept.orphans walk.now ≡ false }
        ensures kept { OnOk result (self.new ≡ with_orphan walk.now self.old) }
        ensures unchanged { OnErr result (self.new ≡ self.old) }
    {
        self.orphans.push(alloc, walk)
    }

    // From now on turns behind a new node are looked for.
    fn look_ahead(&mut self)
        ensures { self.new ≡ looking_ahead self.old }
    {
        self.ahead = true;
    }

    // Counts one more asked turn of a node. At the last of them the node is expanded.
    fn count_turn(&mut self, node: u32, turn: i8)
        requires there { node < length self.old.nodes }
        requires few { turns_of self.old node < 255 }
        ensures { CountsTurn node turn self.old self.new }
    {
        self.front = node.saturating_sub(1);
        if turn == 0 {
            return;
        }
        let asked = self.asked[node as usize] + 1;
        self.asked[node as usize] = asked;
        if asked == TURNS {
            self.joined.mark(node);
        }
    }

    /// The number of the node of a walk; none where the walk found nothing, or isn't in the journal. Classes without an
    /// index of walks (see [`Classes::push_at`]) are gone through node by node.
    pub fn node_of(&self, w: &Walk) -> Option<u32>
        ensures found { IfSome result (λ n. slice_get self.now.nodes n ≡ Some (Reached w.now)) }
        ensures missing { result ≡ None → (n : ℕ) → slice_get self.now.nodes n ≢ Some (Reached w.now) }
    {
        match self.walks.find(w.turns()) {
            Some(at) => Some((at + 1) as u32),
            None => None,
        }
    }

    /// The number of the node of a walk, as `node_of` gives it. A number that it is likely to have is looked at first.
    pub fn node_near(&self, w: &Walk, likely: u32) -> Option<u32>
        ensures found { IfSome result (λ n. slice_get self.now.nodes n ≡ Some (Reached w.now)) }
        ensures missing { result ≡ None → (n : ℕ) → slice_get self.now.nodes n ≢ Some (Reached w.now) }
    {
        let place = likely.saturating_sub(1);
        match self.walks.find_near(w.turns(), place as usize) {
            Some(at) => Some((at + 1) as u32),
            None => None,
        }
    }

    /// Its nodes and their classes, in the memory where they stand. All by which the classes go on ends here.
    pub fn merged(self) -> Merged
        ensures { result ≡ without_tables self }
    {
        let Classes {
            walks,
            orphans: _,
            ahead: _,
            asked: _,
            joined,
            front: _,
            ways: _,
        } = self;
        let (frames, marks) = joined.into_seen();
        Merged {
            walks,
            frames,
            marks,
        }
    }

    /// The same as another value, while the classes may go on.
    pub fn to_merged(&self, alloc: Global) -> Result<Merged, AllocError>
        ensures { IfOk result (λ m. m ≡ without_tables self.now) }
    {
        let walks = self.walks.copied(alloc)?;
        let (frames, marks) = self.joined.seen(alloc)?;
        Ok(Merged {
            walks,
            frames,
            marks,
        })
    }

    /// The class of a node, and where the node's ports lie in it.
    pub fn class_of(&self, node: u32) -> ClassFrame
        requires { node < length self.now.nodes }
        ensures frame { slice_get self.now.frames node ≡ Some result }
        ensures there { result.class < length self.now.expanded }
        ensures in_range { IsTurn result.offset }
    {
        self.joined.seen_frame(node)
    }

    /// How many classes there are.
    pub fn count(&self) -> u32
        ensures { result ≡ length self.now.expanded }
    {
        self.joined.heads.marks.len() as u32
    }

    /// Whether a class has an expanded member: a node whose 30 turns are all asked.
    pub fn expanded(&self, class: u32) -> bool
        requires { class < length self.now.expanded }
        ensures { slice_get self.now.expanded class ≡ Some result }
    {
        self.joined.heads.marks[class as usize]
    }
}

// Room for a node with so many ways, and for all that is done until no pair is open.
fn take_room(joined: &mut Joined, asked: &mut Vec<u8>, ways: usize) -> Result<(), AllocError>
    requires few { length joined.old.heads.names.items < 2 ^ 32 }
    requires few_ways { ways ≤ 128 }
    ensures same { SameItems joined.old joined.new }
    ensures same_asked { asked.new.items ≡ asked.old.items }
    ensures node { OnOk result (HasRoomForNode joined.new) }
    ensures hosts { OnOk result (vec_len joined.new.hosts + ways ≤ vec_capacity joined.new.hosts) }
    ensures todo { OnOk result (vec_len joined.new.todo + (31 * (length joined.new.heads.names.items + 1) + ways) ≤
        vec_capacity joined.new.todo) }
    ensures asked { OnOk result (vec_len asked.new < vec_capacity asked.new) }
{
    asked.reserve(1)?;
    joined.reserve(ways)
}
