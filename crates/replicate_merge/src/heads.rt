//! Classes by number: their least nodes, and which have an expanded member.

ghost use Rattle.std.specs.Prelude.{◌≡◌, ◌<◌, ◌+◌, ◌^◌, ◌++◌, ◌∷◌, [], ◌+ℤ◌, ℕ, true, length, set, slice_get, vec_len};
ghost use Rattle.std.specs.Prelude.{vec_capacity, Some};
ghost use Rattle.net_defs.specs.Turn.{IsTurn};
ghost use Rattle.replicate_merge.specs.Nodes.{nodes_of};
ghost use Rattle.replicate_merge.specs.Heads.{head_at, own_head};
ghost use Rattle.replicate_merge.specs.HeadSteps.{JoinsHead, DropsNumber, MarksBoth, IsJoinedByHeads, IsJoinedByMarks};

use crate::frames::shifted;
use crate::merging::is_node_below;
use probe::WalkIndex;

/// A class, at the node that names it.
#[derive(Clone, Copy, Debug)]
pub struct Head {
    /// Its number among the classes.
    pub number: u32,
    /// The least of its nodes.
    pub least: u32,
    /// Where that node's ports lie among those of the node that names the class.
    pub base: i8,
    /// How many nodes it has, or fewer: it says only which class is joined to the other.
    pub count: u16,
}

/// The classes: a head for each node, of which those count whose node names a class; the node that names the class
/// of each number, and whether that class has an expanded member.
#[derive(Drop)]
pub struct Heads {
    /// The head of each node's class, where the node names one.
    pub heads: Vec<Head>,
    /// The node that names each class, by the class's number.
    pub names: Vec<u32>,
    /// Whether each class has an expanded member, by its number.
    pub marks: Vec<bool>,
}

impl Heads {
    /// Adds the class of the next node. There is room for one.
    pub(crate) fn add(&mut self, marked: bool)
        requires heads_room { vec_len self.old.heads < vec_capacity self.old.heads }
        requires names_room { vec_len self.old.names < vec_capacity self.old.names }
        requires marks_room { vec_len self.old.marks < vec_capacity self.old.marks }
        requires few { length self.old.heads.items < 2 ^ 32 }
        requires few_names { length self.old.names.items < 2 ^ 32 }
        ensures heads { self.new.heads.items ≡ self.old.heads.items ++ own_head (length self.old.names.items)
            (length self.old.heads.items) ∷ [] }
        ensures names { self.new.names.items ≡ self.old.names.items ++ length self.old.heads.items ∷ [] }
        ensures marks { self.new.marks.items ≡ self.old.marks.items ++ marked ∷ [] }
    {
        let node = self.heads.len() as u32;
        self.heads.push_reserved(Head {
            number: self.names.len() as u32,
            least: node,
            base: 0,
            count: 1,
        });
        self.names.push_reserved(node);
        self.marks.push_reserved(marked);
    }

    /// Joins one class to another, whose ports lie so far from its own.
    pub(crate) fn join(&mut self, walks: &WalkIndex, from: u32, to: u32, by: i8)
        requires is_from { from < length self.old.heads.items }
        requires is_to { to < length self.old.heads.items }
        requires first { (head_at self.old.heads.items from).number < length self.old.names.items }
        requires second { (head_at self.old.heads.items to).number < length self.old.names.items }
        requires marked { length self.old.marks.items ≡ length self.old.names.items }
        requires inside { (k n : ℕ) → slice_get self.old.names.items k ≡ Some n → n < length self.old.heads.items }
        requires least_first { (head_at self.old.heads.items from).least < length walks.now + 1 }
        requires least_second { (head_at self.old.heads.items to).least < length walks.now + 1 }
        requires small { IsTurn by }
        requires turn { IsTurn (head_at self.old.heads.items from).base }
        requires base { IsTurn ((head_at self.old.heads.items from).base +ℤ by) }
        ensures heads { IsJoinedByHeads (nodes_of walks.now) from to by self.old.heads.items self.new.heads.items
            self.old.names.items self.new.names.items }
        ensures marks { IsJoinedByMarks (head_at self.old.heads.items from).number
            (head_at self.old.heads.items to).number self.old.names.items self.old.marks.items self.new.marks.items }
        ensures same { length self.new.heads.items ≡ length self.old.heads.items }
        ensures counted { length self.new.marks.items ≡ length self.new.names.items }
    {
        let old = self.heads[from as usize];
        let kept = self.heads[to as usize];
        self.heads[to as usize] = joined(walks, old, kept, by);
        mark_both(&mut self.marks, old.number as usize, kept.number as usize);
        drop_number(
            &mut self.heads,
            &mut self.names,
            &mut self.marks,
            old.number,
        );
    }

    /// Marks a class, given by the node that names it.
    pub(crate) fn mark(&mut self, name: u32)
        requires named { name < length self.old.heads.items }
        requires numbered { (head_at self.old.heads.items name).number < length self.old.marks.items }
        ensures marks { self.new.marks.items ≡ set self.old.marks.items (head_at self.old.heads.items name).number
            true }
        ensures heads { self.new.heads ≡ self.old.heads }
        ensures names { self.new.names ≡ self.old.names }
    {
        self.marks[self.heads[name as usize].number as usize] = true;
    }
}

// Marks one class where another is marked.
fn mark_both(marks: &mut Vec<bool>, old: usize, kept: usize)
    requires first { old < length marks.old.items }
    requires second { kept < length marks.old.items }
    ensures { MarksBoth old kept marks.old.items marks.new.items }
{
    if marks[old] {
        marks[kept] = true;
    }
}

// Drops the number of a class: the last class takes it.
fn drop_number(heads: &mut Vec<Head>, names: &mut Vec<u32>, marks: &mut Vec<bool>, number: u32)
    requires there { number < length names.old.items }
    requires marked { length marks.old.items ≡ length names.old.items }
    requires inside { (k n : ℕ) → slice_get names.old.items k ≡ Some n → n < length heads.old.items }
    ensures { DropsNumber number heads.old.items heads.new.items names.old.items names.new.items marks.old.items
        marks.new.items }
{
    let last = names.len() - 1;
    let name = names[last];
    let mark = marks[last];
    names[number as usize] = name;
    marks[number as usize] = mark;
    heads[name as usize].number = number;
    names.truncate(last);
    marks.truncate(last);
}

// The head of a class once another was joined to it.
fn joined(walks: &WalkIndex, old: Head, kept: Head, by: i8) -> Head
    requires first { old.least < length walks.now + 1 }
    requires second { kept.least < length walks.now + 1 }
    requires small { IsTurn by }
    requires turn { IsTurn old.base }
    requires base { IsTurn (old.base +ℤ by) }
    ensures { JoinsHead (nodes_of walks.now) old kept result by }
{
    let count = kept.count.saturating_add(old.count);
    if is_node_below(walks, old.least, kept.least) {
        return Head {
            number: kept.number,
            least: old.least,
            base: shifted(old.base, by),
            count,
        };
    }
    Head {
        number: kept.number,
        least: kept.least,
        base: kept.base,
        count,
    }
}
