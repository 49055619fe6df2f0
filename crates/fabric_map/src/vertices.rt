//! The vertices of a map with their marks, and an index of the hosts by address.

ghost use Rattle.std.specs.Prelude.{◌≡◌, ℕ, ◌<◌, max, true, ◌++◌, ◌∷◌, [], length, position, slice_index_or, Some};
ghost use Rattle.std.specs.Prelude.{None, OnOk, OnErr};
ghost use Rattle.map_defs.specs.declared.vertex.MapVertex.{MapVertex};
ghost use Rattle.map_defs.specs.NetMap.{switches_of};
ghost use Rattle.map_defs.specs.Routing.{is_host_named};

use map_defs::MapVertex;
use std::alloc::{AllocError, Global};
use std::marker::Model;

/// Vertices by number. A host's vertex is found in constant time.
#[derive(Drop)]
pub(crate) struct Vertices {
    vertices: Vec<MapVertex>,
    core: Vec<bool>,
    switches: usize,
    // As long as the greatest address of a host needs.
    by_address: Vec<Option<u32>>,
}

impl Model for Vertices {
    ghost use Rattle.fabric_map.specs.Listing.{Marked, IsIndexOf};

    ghost Value = { Marked };

    ghost view = { λ v. record { vertices = v.vertices.items; core = v.core.items } };

    ghost invariant = { λ v. IsIndexOf v.vertices.items v.switches v.by_address.items };
}

impl Vertices {
    pub(crate) fn new(alloc: Global) -> Vertices
        ensures { result ≡ record { vertices = []; core = [] } }
    {
        Vertices {
            vertices: Vec::new(alloc),
            core: Vec::new(alloc),
            switches: 0,
            by_address: Vec::new(alloc),
        }
    }

    pub(crate) fn vertices(&self) -> &[MapVertex]
        ensures { result.now ≡ self.now.vertices }
    {
        &self.vertices
    }

    pub(crate) fn core(&self) -> &[bool]
        ensures { result.now ≡ self.now.core }
    {
        &self.core
    }

    /// How many of them are switches.
    pub(crate) fn switches(&self) -> usize
        ensures { result ≡ length (switches_of self.now.vertices) }
    {
        self.switches
    }

    /// The vertex of a host.
    pub(crate) fn find(&self, h: u16) -> Option<u32>
        ensures { result ≡ position (is_host_named h) self.now.vertices }
    {
        entry_at(&self.by_address, usize::from(h))
    }

    /// Room for so many vertices more.
    pub(crate) fn reserve(&mut self, vertices: usize) -> Result<(), AllocError>
        ensures { self.new ≡ self.old }
    {
        self.core.reserve(vertices)?;
        self.vertices.reserve(vertices)
    }

    /// Adds a host that isn't there.
    pub(crate) fn push_host(&mut self, h: u16) -> Result<(), AllocError>
        requires new { position (is_host_named h) self.old.vertices ≡ None }
        requires few { length self.old.vertices < 4294967295 }
        ensures ok { OnOk result (self.new ≡ record {
          vertices = self.old.vertices ++ MapVertex.Host h ∷ [];
          core = self.old.core ++ true ∷ [];
        }) }
        ensures err { OnErr result (self.new ≡ self.old) }
    {
        let vertex = self.vertices.len() as u32;
        self.core.reserve(1)?;
        self.vertices.reserve(1)?;
        lengthen(&mut self.by_address, usize::from(h) + 1)?;
        self.vertices.push_reserved(MapVertex::Host(h));
        self.core.push_reserved(true);
        self.by_address[usize::from(h)] = Some(vertex);
        Ok(())
    }

    /// Adds the next switch with a mark.
    pub(crate) fn push_switch(&mut self, mark: bool) -> Result<(), AllocError>
        requires { length self.old.vertices < 4294967295 }
        ensures ok { OnOk result (self.new ≡ record {
          vertices = self.old.vertices
              ++ MapVertex.Switch (length (switches_of self.old.vertices)) ∷ [];
          core = self.old.core ++ mark ∷ [];
        }) }
        ensures err { OnErr result (self.new ≡ self.old) }
    {
        self.core.reserve(1)?;
        self.vertices.push(MapVertex::Switch(self.switches as u32))?;
        self.core.push_reserved(mark);
        self.switches += 1;
        Ok(())
    }

    /// Sets all marks.
    pub(crate) fn set_core(&mut self, core: Vec<bool>)
        ensures { self.new ≡ record { vertices = self.old.vertices; core = core.items } }
    {
        self.core = core;
    }
}

// Makes an index at least so long, with nothing at its new places.
fn lengthen(index: &mut Vec<Option<u32>>, places: usize) -> Result<(), AllocError>
    ensures long { OnOk result (length index.new.items ≡ max places (length index.old.items)) }
    ensures kept { (k : ℕ) → slice_index_or index.new.items k None ≡ slice_index_or index.old.items k None }
    ensures unchanged { OnErr result (index.new.items ≡ index.old.items) }
{
    if index.len() < places {
        index.resize(places, None)
    } else {
        Ok(())
    }
}

// What the index has at a place.
fn entry_at(index: &[Option<u32>], place: usize) -> Option<u32>
    ensures { result ≡ slice_index_or index.now place None }
{
    if place < index.len() {
        index[place]
    } else {
        None
    }
}
