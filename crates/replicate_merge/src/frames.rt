//! Frames of nodes by number, and the nodes of each class in a ring.

ghost use Rattle.std.specs.Prelude.{◌≡◌, ◌≢◌, ◌<◌, ◌++◌, ◌∷◌, [], ◌^◌, ℕ, ◌+ℤ◌, length, set, OnOk};
ghost use Rattle.net_defs.specs.Turn.{IsTurn};
ghost use Rattle.replicate_merge.specs.Rings.{AreRings, HasFrameRoom, next_at, spliced};
ghost use Rattle.replicate_merge.specs.Ways.{AreJoined, frame_at, moved, own_frame};

use port_align::{ClassFrame, compose};
use std::alloc::{AllocError, Global};
use std::marker::Model;

/// The frame of each node: its class, by the node that names it, and its offset there.
///
/// The nodes of a class stand in a ring, so that a join goes through the class that is moved, and through no other
/// node. Contracts see the frames, and for how many nodes there is room.
///
/// ```text
///   class of 0      0 -> 4 -> 2 -> 0        0 -> 3 -> 1 -> 4 -> 2 -> 0
///                                      =>
///   class of 1      1 -> 3 -> 1             two followers swapped, those of 0 and 1
/// ```
#[derive(Drop)]
pub struct Frames {
    frames: Vec<ClassFrame>,
    // The node that follows each in the ring of its class.
    next: Vec<u32>,
}

impl Model for Frames {
    ghost use Rattle.std.specs.Prelude.{vec_capacity};
    ghost use Rattle.replicate_merge.specs.Rings.{AreRings, FrameTable};

    ghost Value = { FrameTable };

    ghost view = { λ f. record {
      items = f.frames.items;
      frame_room = vec_capacity f.frames;
      ring_room = vec_capacity f.next;
    } };

    ghost invariant = { λ f. AreRings f.frames.items f.next.items };
}

impl Frames {
    /// No nodes. It takes no memory.
    pub(crate) fn new(alloc: Global) -> Frames
        ensures { result.items ≡ [] }
    {
        Frames {
            frames: Vec::new(alloc),
            next: Vec::new(alloc),
        }
    }

    /// How many nodes there are.
    pub fn len(&self) -> usize
        ensures { result ≡ length self.now.items }
    {
        self.frames.len()
    }

    /// The frames of the nodes by number.
    pub(crate) fn items(&self) -> &[ClassFrame]
        ensures { result.now ≡ self.now.items }
    {
        &self.frames
    }

    /// The frame of a node.
    pub(crate) fn at(&self, node: u32) -> ClassFrame
        requires { node < length self.now.items }
        ensures { result ≡ frame_at self.now.items node }
    {
        self.frames[node as usize]
    }

    /// Room for a node.
    pub(crate) fn reserve(&mut self) -> Result<(), AllocError>
        ensures same { self.new.items ≡ self.old.items }
        ensures room { OnOk result (HasFrameRoom self.new) }
    {
        self.frames.reserve(1)?;
        self.next.reserve(1)
    }

    /// Adds a node that is a class of its own. There is room.
    pub(crate) fn add(&mut self)
        requires room { HasFrameRoom self.old }
        requires few { length self.old.items < 2 ^ 32 }
        ensures { self.new.items ≡ self.old.items ++ own_frame (length self.old.items) ∷ [] }
    {
        let node = self.frames.len() as u32;
        self.frames.push_reserved(ClassFrame {
            class: node,
            offset: 0,
        });
        self.next.push_reserved(node);
    }

    /// Joins one class to another, whose ports lie so far from its own.
    pub(crate) fn join(&mut self, from: u32, to: u32, by: i8)
        requires two { from ≢ to }
        requires is_from { from < length self.old.items }
        requires is_to { to < length self.old.items }
        requires first { (frame_at self.old.items from).class ≡ from }
        requires second { (frame_at self.old.items to).class ≡ to }
        requires small { IsTurn by }
        requires turns { (n : ℕ) → n < length self.old.items → IsTurn (frame_at self.old.items n).offset }
        requires there { (n : ℕ) → n < length self.old.items → (frame_at self.old.items n).class ≡ from →
            IsTurn ((frame_at self.old.items n).offset +ℤ by) }
        ensures { AreJoined from to by self.old.items self.new.items }
    {
        move_ring(&mut self.frames, &self.next, from, to, by);
        splice(&mut self.next, from, to);
    }

    /// The frames of the nodes by number. The rings end here.
    pub(crate) fn into_items(self) -> Vec<ClassFrame>
        ensures { result.items ≡ self.items }
    {
        let Frames { frames, next: _ } = self;
        frames
    }
}

// Moves the nodes of a class to another, along the ring of the one.
fn move_ring(frames: &mut Vec<ClassFrame>, next: &Vec<u32>, from: u32, to: u32, by: i8)
    requires rings { AreRings frames.old.items next.now.items }
    requires two { from ≢ to }
    requires is_from { from < length frames.old.items }
    requires small { IsTurn by }
    requires turns { (n : ℕ) → n < length frames.old.items → IsTurn (frame_at frames.old.items n).offset }
    requires there { (n : ℕ) → n < length frames.old.items → (frame_at frames.old.items n).class ≡ from →
        IsTurn ((frame_at frames.old.items n).offset +ℤ by) }
    ensures { AreJoined from to by frames.old.items frames.new.items }
{
    let mut node = from;
    'moving: while frame_of(frames, node).class == from {
        move_frame(frames, node, from, to, by);
        node = follower(next, node);
    }
}

// The frame of a node.
fn frame_of(frames: &Vec<ClassFrame>, node: u32) -> ClassFrame
    requires { node < length frames.now.items }
    ensures { result ≡ frame_at frames.now.items node }
{
    frames[node as usize]
}

// The node that follows another in its ring.
fn follower(next: &Vec<u32>, node: u32) -> u32
    requires { node < length next.now.items }
    ensures { result ≡ next_at next.now.items node }
{
    next[node as usize]
}

// Moves the frame of a node.
fn move_frame(frames: &mut Vec<ClassFrame>, node: u32, from: u32, to: u32, by: i8)
    requires inside { node < length frames.old.items }
    requires small { IsTurn by }
    requires turn { (frame_at frames.old.items node).class ≡ from → IsTurn (frame_at frames.old.items node).offset }
    requires there { (frame_at frames.old.items node).class ≡ from →
        IsTurn ((frame_at frames.old.items node).offset +ℤ by) }
    ensures { frames.new.items ≡ set frames.old.items node (moved from to by (frame_at frames.old.items node)) }
{
    let frame = frame_of(frames, node);
    frames[node as usize] = moved(frame, from, to, by);
}

// A frame once one class is joined to another.
fn moved(frame: ClassFrame, from: u32, to: u32, by: i8) -> ClassFrame
    requires small { IsTurn by }
    requires turn { frame.class ≡ from → IsTurn frame.offset }
    requires there { frame.class ≡ from → IsTurn (frame.offset +ℤ by) }
    ensures { result ≡ moved from to by frame }
{
    if frame.class != from {
        return frame;
    }
    ClassFrame {
        class: to,
        offset: shifted(frame.offset, by),
    }
}

/// An offset once the class of its node is joined to one whose ports lie so far from its own.
pub(crate) fn shifted(offset: i8, by: i8) -> i8
    requires first { IsTurn offset }
    requires second { IsTurn by }
    requires there { IsTurn (offset +ℤ by) }
    ensures { result ≡ offset +ℤ by }
{
    match compose(offset, by) {
        Some(offset) => offset,
        None => unreachable!(),
    }
}

// Makes two rings one, each given by one of its nodes.
fn splice(next: &mut Vec<u32>, from: u32, to: u32)
    requires is_from { from < length next.old.items }
    requires is_to { to < length next.old.items }
    ensures { next.new.items ≡ spliced from to next.old.items }
{
    let first = follower(next, from);
    let second = follower(next, to);
    next[from as usize] = second;
    next[to as usize] = first;
}
