//! A drain by passes over the channels. Once many packets are on their way, channels that wait for another one are
//! noted, and passed by until that is emptied.

ghost use Rattle.std.specs.Prelude.{◌≡◌, ◌<◌, ◌≤◌, ◌+◌, ◌^◌, ℕ, ◌∷◌, [], length, map, IfOk, IfSome, IfNone, OnOk};
ghost use Rattle.std.specs.Prelude.{OnErr};
ghost use Rattle.world_defs.specs.declared.event.Event.TheVariants.{Advance};
ghost use Rattle.world_defs.specs.Step.{step};
ghost use Rattle.world_defs.specs.Drain.{channels_of};
ghost use Rattle.world_defs.specs.Logs as log;
ghost use Rattle.world_defs.specs.Row.{IsPartWay};
ghost use Rattle.world_drain.specs.Watch.{seen_in, seen_then};
ghost use Rattle.world_drain.specs.Awake.{AreAwake, AreAwakeBehind, IsNextAwake, IsStill, hop_of};

use crate::awake::Awake;
use crate::seen::{Seen, Watch};
use fab_world::{Effect, Hop, World};
use std::alloc::{AllocError, Global};

// From so many packets that a pass moved on, channels that wait are worth a note.
const MANY: u64 = 16;

/// Passes until none changes anything, or no packet is left. They are no part of their caller's frame, which a packet
/// that is alone pays for.
#[inline(never)]
pub(crate) fn drain_by_passes(
    alloc: Global,
    w: &mut World,
    watch: &Watch,
) -> Result<Seen, AllocError>
    ensures seen { IfOk result (λ s. s ≡ seen_in watch.now (log.drain w.old).value) }
    ensures few { IfOk result (λ s. s.changes ≤ 9068544) }
    ensures after { OnOk result (w.new ≡ (log.drain w.old).world) }
    ensures err { OnErr result (IsPartWay w.old (log.drain w.old).events w.new) }
{
    let mut noted = None;
    all_passes(alloc, w, watch, &mut noted)
}

// The same, with a place for the note.
fn all_passes(
    alloc: Global,
    w: &mut World,
    watch: &Watch,
    noted: &mut Option<Awake>,
) -> Result<Seen, AllocError>
    requires { IfSome noted.old (λ a. AreAwake w.old.links a.marks.items a.places.items a.counts.items) }
    ensures seen { IfOk result (λ s. s ≡ seen_in watch.now (log.drain w.old).value) }
    ensures few { IfOk result (λ s. s.changes ≤ 9068544) }
    ensures after { OnOk result (w.new ≡ (log.drain w.old).world) }
    ensures err { OnErr result (IsPartWay w.old (log.drain w.old).events w.new) }
{
    let _few = w.hops_bound();
    let mut seen = watch.nothing();
    'passing: while !w.links_idle() {
        let once = pass(alloc, w, watch, noted)?;
        if once.changes == 0 {
            return Ok(seen);
        }
        note(alloc, w, noted, once.changes)?;
        seen = seen.then(once);
    }
    Ok(seen)
}

// After a pass with so many changes, channels that wait are noted from now on, if they are many.
fn note(alloc: Global, w: &World, noted: &mut Option<Awake>, changes: u64) -> Result<(), AllocError>
    requires { IfSome noted.old (λ a. AreAwake w.now.links a.marks.items a.places.items a.counts.items) }
    ensures { OnOk result (IfSome noted.new (λ a. AreAwake w.now.links a.marks.items a.places.items a.counts.items)) }
{
    if changes >= MANY && noted.is_none() {
        *noted = Some(Awake::new(alloc, w)?);
    }
    Ok(())
}

// The least channel that isn't below a number and may go on.
fn next(w: &World, noted: &Option<Awake>, from: u16) -> Option<u16>
    requires { IfSome noted.now (λ a. AreAwake w.now.links a.marks.items a.places.items a.counts.items) }
    ensures found { IfSome result (IsNextAwake w.now from) }
    ensures none { IfNone result ((c : ℕ) → from ≤ c → IsStill w.now c) }
{
    match noted {
        Some(awake) => awake.next(w, from),
        None => w.next_full(from),
    }
}

// The note follows an advance of a channel, of which a hop says where its packet is now.
fn follow(w: &World, noted: &mut Option<Awake>, c: u16, hop: Hop)
    requires awake { IfSome noted.old (λ a.
        AreAwakeBehind hop w.now.links c a.marks.items a.places.items a.counts.items) }
    requires there { c < length w.now.links.channels }
    ensures { IfSome noted.new (λ a. AreAwake w.now.links a.marks.items a.places.items a.counts.items) }
{
    match noted {
        Some(awake) => awake.after(w, c, hop),
        None => {}
    }
}

// One pass: an advance of each channel that may go on, by rising number. An advance of another would change nothing.
fn pass(
    alloc: Global,
    w: &mut World,
    watch: &Watch,
    noted: &mut Option<Awake>,
) -> Result<Seen, AllocError>
    requires { IfSome noted.old (λ a. AreAwake w.old.links a.marks.items a.places.items a.counts.items) }
    ensures seen { IfOk result (λ s. s ≡ seen_in watch.now (log.pass w.old).value) }
    ensures after { OnOk result (w.new ≡ (log.pass w.old).world) }
    ensures awake { OnOk result (IfSome noted.new (λ a.
        AreAwake w.new.links a.marks.items a.places.items a.counts.items)) }
    ensures err { OnErr result (IsPartWay w.old (map Advance (channels_of w.old)) w.new) }
{
    let _few = w.channels();
    let mut seen = watch.nothing();
    let mut from = 0;
    while let Some(c) = next(w, noted, from) {
        let all = advance(alloc, w, watch, noted, c, seen)?;
        seen = all;
        from = c + 1;
    }
    Ok(seen)
}

// What was seen, and then an advance of one channel. Most packets go on into another channel, which shows nothing more
// than a change.
fn advance(
    alloc: Global,
    w: &mut World,
    watch: &Watch,
    noted: &mut Option<Awake>,
    c: u16,
    seen: Seen,
) -> Result<Seen, AllocError>
    requires there { c < length w.old.links.channels }
    requires few { seen.changes + 1 < 2 ^ 64 }
    requires awake { IfSome noted.old (λ a. AreAwake w.old.links a.marks.items a.places.items a.counts.items) }
    ensures seen { IfOk result (λ s. s ≡ seen_then seen (seen_in watch.now ((step w.old (Advance c)).0 ∷ []))) }
    ensures after { OnOk result (w.new ≡ (step w.old (Advance c)).1) }
    ensures awake { OnOk result (IfSome noted.new (λ a.
        AreAwake w.new.links a.marks.items a.places.items a.counts.items)) }
    ensures err { OnErr result (w.new ≡ w.old) }
{
    let _few = w.channels();
    match w.hop(c) {
        Hop::Moved(next) => {
            follow(w, noted, c, Hop::Moved(next));
            Ok(seen.one_more())
        }
        Hop::Blocked(next) => {
            follow(w, noted, c, Hop::Blocked(next));
            Ok(seen)
        }
        Hop::Untried => {
            let one = leave(alloc, w, watch, noted, c)?;
            Ok(seen.then(one))
        }
    }
}

// The same by the whole event.
fn leave(
    alloc: Global,
    w: &mut World,
    watch: &Watch,
    noted: &mut Option<Awake>,
    c: u16,
) -> Result<Seen, AllocError>
    requires there { c < length w.old.links.channels }
    requires awake { IfSome noted.old (λ a. AreAwake w.old.links a.marks.items a.places.items a.counts.items) }
    ensures seen { IfOk result (λ s. s ≡ seen_in watch.now ((step w.old (Advance c)).0 ∷ [])) }
    ensures after { OnOk result (w.new ≡ (step w.old (Advance c)).1) }
    ensures awake { OnOk result (IfSome noted.new (λ a.
        AreAwake w.new.links a.marks.items a.places.items a.counts.items)) }
    ensures err { OnErr result (w.new ≡ w.old) }
{
    let _few = w.channels();
    let effect = w.advance(alloc, c)?;
    follow(w, noted, c, hop_of(&effect));
    Ok(watch.see(&effect))
}

// What an effect of an advance says of a packet that stays in the channels.
fn hop_of(effect: &Effect) -> Hop
    ensures { result ≡ hop_of effect.now }
{
    match effect {
        Effect::Moved(next) => Hop::Moved(*next),
        Effect::Blocked(next) => Hop::Blocked(*next),
        _ => Hop::Untried,
    }
}
