//! The packets in limbo.

ghost use Rattle.std.specs.Prelude.{◌≡◌, ◌<◌, ◌++◌, ◌∷◌, [], nat_eq, nat_le, find, option_map, OnOk, OnErr, IfErr};
ghost use Rattle.std.specs.List.{AllByRecursion};
ghost use Rattle.std.specs.Map.{lookup, remove_entry};
ghost use Rattle.world_defs.specs.Fault.{without_cable};

use crate::Slot;
use std::alloc::Global;
use std::collections::BTreeMap;
use std::marker::Model;

/// A packet with the channel that it was in.
#[derive(Drop)]
pub(crate) struct Kept {
    channel: u16,
    slot: Slot,
}

impl Model for Kept {
    ghost use Rattle.world_defs.specs.Links.{Caught};

    ghost Value = { Caught };

    ghost view = { λ k. record { channel = k.channel; held = k.slot } };
}

impl Kept {
    pub(crate) fn into_slot(self) -> Slot
        ensures { result ≡ self.held }
    {
        let Kept { channel: _, slot } = self;
        slot
    }
}

/// Packets by rising serial.
#[derive(Drop)]
pub(crate) struct Limbo {
    kept: BTreeMap<u64, Kept>,
}

impl Model for Limbo {
    ghost use Rattle.std.specs.Prelude.{List, ℕ};
    ghost use Rattle.world_defs.specs.Links.{Caught};

    ghost Value = { List (ℕ × Caught) };

    ghost view = { λ l. l.kept.entries };
}

impl Limbo {
    pub(crate) fn new(alloc: Global) -> Limbo
        ensures { result ≡ [] }
    {
        Limbo {
            kept: BTreeMap::new(alloc),
        }
    }

    /// The channel that the packet of a serial was in.
    pub(crate) fn channel_of(&self, serial: u64) -> Option<u16>
        ensures { result ≡ option_map (λ e. e.channel) (lookup (nat_eq serial) self.now) }
    {
        match self.kept.get(&serial) {
            Some(kept) => Some(kept.channel),
            None => None,
        }
    }

    /// Adds a packet under a serial above all others. It hands the packet back where memory runs out.
    pub(crate) fn push(&mut self, serial: u64, channel: u16, slot: Slot) -> Result<(), Slot>
        requires { AllByRecursion (λ e. e.0 < serial) self.old }
        ensures ok { OnOk result (self.new ≡ self.old ++ (serial, record { channel = channel; held = slot }) ∷ []) }
        ensures err { OnErr result (self.new ≡ self.old) }
        ensures back { IfErr result (λ s. s ≡ slot) }
    {
        match self.kept.insert(serial, Kept { channel, slot }) {
            Ok(_) => Ok(()),
            Err(refused) => Err(refused.value.1.into_slot()),
        }
    }

    /// Takes the packet of a serial.
    pub(crate) fn remove(&mut self, serial: u64) -> Option<Kept>
        ensures kept { result ≡ lookup (nat_eq serial) self.old }
        ensures rest { self.new ≡ remove_entry (nat_eq serial) self.old }
    {
        self.kept.remove(&serial)
    }

    /// Lets go of what was taken from the channels of a cable.
    pub(crate) fn leave_cable(&mut self, k: u16)
        ensures { self.new ≡ without_cable k self.old }
    {
        self.kept.retain(|_, kept| kept.channel / 2 != k);
    }

    /// The least serial that isn't below a number.
    pub(crate) fn next(&self, from: u64) -> Option<u64>
        ensures { result ≡ option_map (λ e. e.0) (find (λ e. nat_le from e.0) self.now) }
    {
        match self.kept.range(from..).next() {
            Some((serial, _)) => Some(*serial),
            None => None,
        }
    }
}
