//! What a mapper looks for in what happens.

ghost use Rattle.std.specs.Prelude.{◌≡◌, ◌≤◌, ◌+◌, ◌^◌, ◌<◌, ◌&&◌, ◌∷◌, [], ℕ, nat_eq, false, Option, Some, None};
ghost use Rattle.world_defs.specs.Asking.{reply_in, returned_in};
ghost use Rattle.world_defs.specs.declared.effect.Effect.TheVariants.{Arrived};
ghost use Rattle.world_drain.specs.Watch.{seen_in, seen_then, is_own, is_awaited_host, is_own_ack};

use world_defs::{Effect, Heard};

/// A part of a host's table whose acknowledgement a mapper awaits.
#[derive(Clone, Copy, Debug)]
pub struct AwaitedPart {
    /// The address of the host whose table it is of.
    pub dst: u16,
    /// Its place among the parts of that table, from 0.
    pub part: u8,
}

/// What a mapper looks for: replies to its probe of a number and the probe's return, where that was injected, and
/// what becomes of a part that it awaits.
#[derive(Clone, Copy, Debug)]
pub struct Watch {
    /// The address of the mapper.
    pub mapper: u16,
    /// The number under which its probe was injected.
    pub number: Option<u64>,
    /// The part that it awaits.
    pub part: Option<AwaitedPart>,
}

/// What was seen of events.
#[derive(Clone, Copy, Debug)]
pub struct Seen {
    /// How many of them changed something.
    pub changes: u64,
    /// The host that heard a probe first.
    pub probed: Option<u16>,
    /// The host whose reply to the mapper's probe came first.
    pub replied: Option<u16>,
    /// Whether the mapper's loopback probe came back.
    pub returned: bool,
    /// Whether the host of the awaited part heard a part.
    pub came: bool,
    /// The epoch of the awaited part's acknowledgement that the mapper heard first.
    pub acknowledged: Option<u32>,
}

impl Watch {
    /// Nothing happened yet.
    pub(crate) fn nothing(&self) -> Seen
        ensures { result ≡ seen_in self.now [] }
    {
        seen_nothing(0)
    }

    /// What is seen of one event.
    pub(crate) fn see(&self, x: &Effect) -> Seen
        ensures { result ≡ seen_in self.now (x.now ∷ []) }
    {
        match x {
            Effect::Idle | Effect::Blocked(_) => self.nothing(),
            Effect::Arrived(host, heard) => self.see_arrival(*host, heard),
            _ => seen_nothing(1),
        }
    }

    // What is seen where a packet reached a host.
    fn see_arrival(&self, host: u16, heard: &Heard) -> Seen
        ensures { result ≡ seen_in self.now (Arrived host heard.now ∷ []) }
    {
        let mut seen = seen_nothing(1);
        match heard {
            Heard::Probe => seen.probed = Some(host),
            Heard::Reply { number, host: from } if self.is_own(host, *number) => seen.replied =
                Some(*from),
            Heard::Loop { number } => seen.returned = self.is_own(host, *number),
            Heard::Routes => seen.came = self.is_awaited_host(host),
            Heard::RoutesAck {
                epoch,
                host: from,
                part,
            } if self.is_own_ack(host, *from, *part) => seen.acknowledged = Some(*epoch),
            _ => {}
        }
        seen
    }

    // A mapper heard of its probe of this number.
    fn is_own(&self, host: u16, number: u64) -> bool
        ensures { result ≡ is_own self.now.mapper self.now.number host number }
    {
        match self.number {
            Some(own) => host == self.mapper && number == own,
            None => false,
        }
    }

    // A host is that of the awaited part.
    fn is_awaited_host(&self, host: u16) -> bool
        ensures { result ≡ is_awaited_host self.now.part host }
    {
        match self.part {
            Some(awaited) => host == awaited.dst,
            None => false,
        }
    }

    // A mapper heard the acknowledgement of the awaited part.
    fn is_own_ack(&self, host: u16, from: u16, part: u8) -> bool
        ensures { result ≡ is_own_ack self.now.mapper self.now.part host from part }
    {
        match self.part {
            Some(awaited) => { host == self.mapper && from == awaited.dst && part == awaited.part }
            None => false,
        }
    }
}

// So many changes, and nothing that is looked for.
fn seen_nothing(changes: u64) -> Seen
    ensures { result ≡ record {
      changes = changes;
      probed = None;
      replied = None;
      returned = false;
      came = false;
      acknowledged = None;
    } }
{
    Seen {
        changes,
        probed: None,
        replied: None,
        returned: false,
        came: false,
        acknowledged: None,
    }
}

impl Seen {
    /// One change more, which shows nothing else.
    pub(crate) fn one_more(self) -> Seen
        requires { self.changes + 1 < 2 ^ 64 }
        ensures { result ≡ record self { changes = self.changes + 1 } }
    {
        Seen {
            changes: self.changes + 1,
            ..self
        }
    }

    /// What is seen where so many changes went before, which showed nothing else.
    pub(crate) fn behind(self, changes: u64) -> Seen
        requires { changes + self.changes < 2 ^ 64 }
        ensures { result ≡ record self { changes = changes + self.changes } }
    {
        Seen {
            changes: changes + self.changes,
            ..self
        }
    }

    /// What is seen where others follow.
    pub(crate) fn then(self, next: Seen) -> Seen
        requires { self.changes + next.changes < 2 ^ 64 }
        ensures { result ≡ seen_then self next }
    {
        Seen {
            changes: self.changes + next.changes,
            probed: self.probed.or(next.probed),
            replied: self.replied.or(next.replied),
            returned: self.returned || next.returned,
            came: self.came || next.came,
            acknowledged: self.acknowledged.or(next.acknowledged),
        }
    }
}
