//! The classes of a journal that grows no more.

ghost use Rattle.std.specs.Prelude.{◌≡◌, ◌<◌, length, slice_get, Some};
ghost use Rattle.net_defs.specs.Turn.{IsTurn};
ghost use Rattle.replicate_merge.specs.Nodes.{nodes_of};

use port_align::ClassFrame;
use probe::WalkIndex;
use std::marker::Model;

/// The nodes of a journal that grows no more, and their classes: what a map is made of. Contracts see what they see of
/// `Classes`, without the tables by which these go on.
#[derive(Drop)]
pub struct Merged {
    pub(crate) walks: WalkIndex,
    // The class of each node by its number, and where the node's ports lie in it.
    pub(crate) frames: Vec<ClassFrame>,
    // Whether each class has an expanded member.
    pub(crate) marks: Vec<bool>,
}

impl Model for Merged {
    ghost use Rattle.replicate_merge.specs.Table.{ClassTable, IsTable};
    ghost use Rattle.replicate_merge.specs.Merged.{merged_table};

    ghost Value = { ClassTable };

    ghost view = { λ m. merged_table m.walks m.frames.items m.marks.items };

    ghost invariant = { λ m. IsTable (merged_table m.walks m.frames.items m.marks.items) };
}

impl Merged {
    /// The walks that found a host or a switch, in the journal's order.
    pub fn walks(&self) -> &WalkIndex
        ensures { nodes_of result.now ≡ self.now.nodes }
    {
        &self.walks
    }

    /// The class of a node, and where the node's ports lie in it.
    pub fn class_of(&self, node: u32) -> ClassFrame
        requires { node < length self.now.nodes }
        ensures frame { slice_get self.now.frames node ≡ Some result }
        ensures there { result.class < length self.now.expanded }
        ensures in_range { IsTurn result.offset }
    {
        self.frames[node as usize]
    }

    /// How many classes there are.
    pub fn count(&self) -> u32
        ensures { result ≡ length self.now.expanded }
    {
        self.marks.len() as u32
    }
}
