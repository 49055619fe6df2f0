//! Named vertices in the order of the text.

ghost use Rattle.std.specs.Prelude.{◌≡◌, ◌++◌, ◌∷◌, [], length, position, false, bytes_eq, option_map, option_copied};
ghost use Rattle.std.specs.Prelude.{slice_get, OnOk, OnErr};
ghost use Rattle.std.specs.List.{list_any};

use indexmap::IndexMap;
use std::alloc::{AllocError, Global};
use std::marker::Model;

/// Names with the number of ports that their vertex has, in the order in which they came. No name stands twice.
#[derive(Drop)]
pub(crate) struct Names {
    ports: IndexMap<Vec<u8>, u8>,
}

impl Model for Names {
    ghost use Rattle.std.specs.Prelude.{List};
    ghost use Rattle.net_defs.specs.Network.{NamedSwitch};
    ghost use Rattle.port_graph.specs.Named.{named};

    ghost Value = { List NamedSwitch };

    ghost view = { λ n. named n.ports };
}

impl Names {
    pub(crate) fn new(alloc: Global) -> Names
        ensures { result ≡ [] }
    {
        Names {
            ports: IndexMap::new(alloc),
        }
    }

    pub(crate) fn len(&self) -> usize
        ensures { result ≡ length self.now }
    {
        self.ports.len()
    }

    /// The place of a name.
    pub(crate) fn find(&self, name: &[u8]) -> Option<usize>
        ensures { result ≡ position (λ v. bytes_eq name.now v.name) self.now }
    {
        self.ports.get_index_of(name)
    }

    /// The name at a place.
    pub(crate) fn name_at(&self, at: usize) -> Option<&[u8]>
        ensures { option_copied result ≡ option_map (λ v. v.name) (slice_get self.now at) }
    {
        match self.ports.get_index(at) {
            Some((name, _)) => Some(name.as_slice()),
            None => None,
        }
    }

    /// The number of ports at a place.
    pub(crate) fn ports_at(&self, at: usize) -> Option<u8>
        ensures { result ≡ option_map (λ v. v.ports) (slice_get self.now at) }
    {
        match self.ports.get_index(at) {
            Some((_, ports)) => Some(*ports),
            None => None,
        }
    }

    /// Adds a name that isn't there.
    pub(crate) fn push(&mut self, alloc: Global, name: &[u8], ports: u8) -> Result<(), AllocError>
        requires { list_any (λ v. bytes_eq name.now v.name) self.old ≡ false }
        ensures ok { OnOk result (self.new ≡ self.old ++ record { name = name.now; ports = ports } ∷ []) }
        ensures err { OnErr result (self.new ≡ self.old) }
    {
        self.ports.insert(name.to_vec(alloc)?, ports)?;
        Ok(())
    }
}
