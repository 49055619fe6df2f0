//! Chains of walks: those whose turns lead to one bucket, the latest first.

ghost use Rattle.std.specs.Prelude.{◌≡◌, ℕ, ◌+◌, ◌*◌, ◌%◌, ◌<◌, ◌≤◌, ◌^◌, ◌++◌, ◌∷◌, [], length, replicate, slice_set};
ghost use Rattle.std.specs.Prelude.{slice_index_or, slice_get, vec_len, vec_capacity, true, false, is_some, Some};
ghost use Rattle.std.specs.Prelude.{IfOk, IfSome, OnOk, OnErr};
ghost use Rattle.net_defs.specs.Turn.{same_turns};
ghost use Rattle.probe.specs.Keeping.{AreIndexed, has_walk};
ghost use Rattle.probe.specs.Chained.{IsChained, IsInChain, IsOther, hash_of, mixed};

use crate::walk_list::WalkList;
use std::alloc::{AllocError, Global};

// A prime, so that all turns count in each place of a hash.
const FACTOR: u64 = 1_000_003;

/// For each bucket the latest walk, and for each walk the one before it in its bucket, as place + 1; 0 where there is
/// none.
#[derive(Drop)]
pub(crate) struct Chains {
    pub(crate) latest: Vec<u32>,
    pub(crate) before: Vec<u32>,
}

/// The chains of no walk. They take no memory.
pub(crate) fn no_chains(alloc: Global) -> Chains
    ensures latest { result.latest.items ≡ [] }
    ensures before { result.before.items ≡ [] }
{
    Chains {
        latest: Vec::new(alloc),
        before: Vec::new(alloc),
    }
}

/// Other chains that are the same.
pub(crate) fn copied(alloc: Global, chains: &Chains) -> Result<Chains, AllocError>
    ensures latest { IfOk result (λ c. c.latest.items ≡ chains.now.latest.items) }
    ensures before { IfOk result (λ c. c.before.items ≡ chains.now.before.items) }
{
    let latest = Vec::from_slice(alloc, &chains.latest)?;
    let before = Vec::from_slice(alloc, &chains.before)?;
    Ok(Chains { latest, before })
}

/// The hash of a walk's turns. Its bucket is what is left of it by the number of buckets.
pub(crate) fn hash_of(turns: &[i8]) -> u64
    ensures { result ≡ hash_of 0 turns.now }
{
    let mut hash = 0;
    for turn in turns {
        hash = mixed(hash, *turn);
    }
    hash
}

// A hash with one turn more.
fn mixed(hash: u64, turn: i8) -> u64
    requires { hash < 2 ^ 32 }
    ensures mixed { result ≡ mixed hash turn }
    ensures small { result < 2 ^ 32 }
{
    (FACTOR * hash + u64::from((i16::from(turn) + 128).unsigned_abs())) % 4_294_967_296
}

/// The place of a walk with this hash, counted from 0; none where it isn't there.
pub(crate) fn find<W: WalkList>(
    walks: &W,
    chains: &Chains,
    turns: &[i8],
    hash: u64,
) -> Option<usize>
    requires chained { IsChained (W.list walks.now) chains.now.latest.items chains.now.before.items }
    requires enough { length (W.list walks.now) ≤ 2 * length chains.now.latest.items }
    requires hash { hash ≡ hash_of 0 turns.now }
    ensures place { IfSome result (λ at. slice_get (W.list walks.now) at ≡ Some turns.now) }
    ensures found { is_some result ≡ has_walk (W.list walks.now) turns.now }
{
    let buckets = chains.latest.len();
    if buckets == 0 {
        return None;
    }
    let latest = chains.latest[hash as usize % buckets];
    let next = found_from(walks, chains, turns, latest);
    if next == 0 {
        None
    } else {
        Some(next as usize - 1)
    }
}

// The place of a walk, as place + 1, looked for down a chain from such a place; 0 where it isn't there.
fn found_from<W: WalkList>(walks: &W, chains: &Chains, turns: &[i8], from: u32) -> u32
    requires chained { IsChained (W.list walks.now) chains.now.latest.items chains.now.before.items }
    requires in_chain { IsInChain (length chains.now.latest.items) (W.list walks.now) turns.now from }
    ensures found { (at : ℕ) → result ≡ at + 1 → slice_get (W.list walks.now) at ≡ Some turns.now }
    ensures missing { result ≡ 0 → has_walk (W.list walks.now) turns.now ≡ false }
{
    let mut next = from;
    'searching: while is_other(walks, next, turns) {
        next = chains.before[next as usize - 1];
    }
    next
}

// Whether there is a walk at a place, counted from 1, and it is another than this.
fn is_other<W: WalkList>(walks: &W, place: u32, turns: &[i8]) -> bool
    requires { place ≤ length (W.list walks.now) }
    ensures other { result ≡ true → IsOther (W.list walks.now) place turns.now }
    ensures none_or_this { result ≡ false → (at : ℕ) → place ≡ at + 1
        → slice_get (W.list walks.now) at ≡ Some turns.now }
{
    place != 0 && !is_same(walks.turns_at(place as usize - 1), turns)
}

// Whether two walks are of the same turns.
fn is_same(walk: &[i8], other: &[i8]) -> bool
    ensures { result ≡ same_turns walk.now other.now }
{
    walk == other
}

/// The place of a walk, looked for one after another, without the chains.
pub(crate) fn found_among<W: WalkList>(walks: &W, turns: &[i8]) -> Option<usize>
    ensures place { IfSome result (λ at. slice_get (W.list walks.now) at ≡ Some turns.now) }
    ensures found { is_some result ≡ has_walk (W.list walks.now) turns.now }
{
    for at in 0..walks.count() {
        if is_same(walks.turns_at(at), turns) {
            return Some(at);
        }
    }
    None
}

/// The place of a walk, looked for so from a place on, and from the first where it isn't there.
pub(crate) fn found_onward<W: WalkList>(walks: &W, turns: &[i8], from: usize) -> Option<usize>
    ensures place { IfSome result (λ at. slice_get (W.list walks.now) at ≡ Some turns.now) }
    ensures found { is_some result ≡ has_walk (W.list walks.now) turns.now }
{
    for at in from..walks.count() {
        if is_same(walks.turns_at(at), turns) {
            return Some(at);
        }
    }
    found_among(walks, turns)
}

/// Chains all walks, if none is chained yet.
pub(crate) fn index<W: WalkList>(walks: &W, chains: &mut Chains) -> Result<(), AllocError>
    requires kept { 0 < length chains.old.before.items
        → AreIndexed (W.list walks.now) chains.old.latest.items chains.old.before.items }
    ensures indexed { OnOk result (AreIndexed (W.list walks.now) chains.new.latest.items chains.new.before.items) }
    ensures none { OnErr result (length chains.new.before.items ≡ 0) }
{
    let chained = chains.before.len();
    if chained == 0 {
        index_all(walks, chains)
    } else {
        Ok(())
    }
}

// Chains all walks, of which none is chained.
fn index_all<W: WalkList>(walks: &W, chains: &mut Chains) -> Result<(), AllocError>
    requires { length chains.old.before.items ≡ 0 }
    ensures indexed { OnOk result (AreIndexed (W.list walks.now) chains.new.latest.items chains.new.before.items) }
    ensures none { OnErr result (length chains.new.before.items ≡ 0) }
{
    let count = walks.count();
    if count >= u32::MAX as usize - 1 {
        return Err(AllocError);
    }
    chains.before.reserve(count)?;
    chains.latest.resize(2 * count + 1, 0)?;
    chain_all(walks, chains);
    Ok(())
}

/// Room for one walk more, with at most two walks a bucket: what more buckets save in looks they take in memory. Where
/// there are so many, the buckets become four times as many, and all walks are chained anew: a third as often as by
/// twice the buckets. More buckets come to those that are there, so that no two sets of them stand at once.
pub(crate) fn make_room<W: WalkList>(walks: &W, chains: &mut Chains) -> Result<(), AllocError>
    requires chained { IsChained (W.list walks.now) chains.old.latest.items chains.old.before.items }
    requires enough { length (W.list walks.now) ≤ 2 * length chains.old.latest.items }
    ensures chained { IsChained (W.list walks.now) chains.new.latest.items chains.new.before.items }
    ensures enough { length (W.list walks.now) ≤ 2 * length chains.new.latest.items }
    ensures buckets { OnOk result (length (W.list walks.now) < 2 * length chains.new.latest.items) }
    ensures few { OnOk result (length (W.list walks.now) + 1 < 2 ^ 32) }
    ensures room { OnOk result (vec_len chains.new.before < vec_capacity chains.new.before) }
{
    let count = walks.count();
    if count >= u32::MAX as usize - 1 {
        return Err(AllocError);
    }
    chains.before.reserve(1)?;
    if count / 2 >= chains.latest.len() {
        chains.latest.resize(2 * count + 1, 0)?;
        chain_all(walks, chains);
    }
    Ok(())
}

// Chains the walks anew, over all buckets. There is room for them.
fn chain_all<W: WalkList>(walks: &W, chains: &mut Chains)
    requires some { 0 < length chains.old.latest.items }
    requires few { length (W.list walks.now) + 1 < 2 ^ 32 }
    requires room { length (W.list walks.now) ≤ vec_capacity chains.old.before }
    ensures chained { IsChained (W.list walks.now) chains.new.latest.items chains.new.before.items }
    ensures buckets { length chains.new.latest.items ≡ length chains.old.latest.items }
    ensures same_room { vec_capacity chains.new.before ≡ vec_capacity chains.old.before }
{
    empty_all(chains);
    for at in 0..walks.count() {
        add(chains, hash_of(walks.turns_at(at)));
    }
}

// Takes all walks out of the buckets. Their room stays.
fn empty_all(chains: &mut Chains)
    ensures latest { chains.new.latest.items ≡ replicate (vec_len chains.old.latest) 0 }
    ensures before { chains.new.before.items ≡ [] }
    ensures buckets { length chains.new.latest.items ≡ length chains.old.latest.items }
    ensures same_room { vec_capacity chains.new.before ≡ vec_capacity chains.old.before }
{
    chains.latest.fill(0);
    chains.before.clear();
}

/// Adds the next walk, of this hash, to its bucket. There is room for it.
pub(crate) fn add(chains: &mut Chains, hash: u64)
    requires some { 0 < length chains.old.latest.items }
    requires few { vec_len chains.old.before + 1 < 2 ^ 32 }
    requires room { vec_len chains.old.before < vec_capacity chains.old.before }
    ensures latest { chains.new.latest.items ≡ slice_set chains.old.latest.items
        (hash % length chains.old.latest.items) (length chains.old.before.items + 1) }
    ensures before { chains.new.before.items ≡ chains.old.before.items
        ++ slice_index_or chains.old.latest.items (hash % length chains.old.latest.items) 0 ∷ [] }
    ensures same_room { vec_capacity chains.new.before ≡ vec_capacity chains.old.before }
{
    let bucket = hash as usize % chains.latest.len();
    let old = chains.latest[bucket];
    chains.before.push_reserved(old);
    chains.latest[bucket] = chains.before.len() as u32;
}
