//! Which vertex of a fabric each vertex of a map stands for.

ghost use Rattle.std.specs.Prelude.{◌≡◌, ◌<◌, [], length, is_some, slice_index_or, if◌then◌else◌, None, IfOk, OnOk};
ghost use Rattle.std.specs.Prelude.{IfNone};
ghost use Rattle.std.specs.List.{list_all};
ghost use Rattle.net_defs.specs.Network.{IsFabric};
ghost use Rattle.map_defs.specs.NetMap.{IsMap};
ghost use Rattle.map_sameness.specs.Pairing.{image_of, origin_of, HasPlace, same_image, are_alike, may_be_new, may_be};
ghost use Rattle.map_sameness.specs.Pairing.{with_origin, with_pair, paired, no_pairs, with_todo, taken_off};

use fabric_map::{FabricMap, MapVertex};
use net_defs::Vertex;
use port_graph::Fabric;
use std::alloc::{AllocError, Global};
use std::marker::Model;

/// What a vertex of the map stands for: port p of it is port p + offset there.
#[derive(Clone, Copy)]
pub(crate) struct Image {
    pub vertex: Vertex,
    pub offset: i16,
}

/// What the vertices of the map stand for, which of them stand for the hosts and switches of the fabric, and those
/// whose ports aren't compared yet.
#[derive(Drop)]
pub(crate) struct Pairing {
    host: u16,
    images: Vec<Option<Image>>,
    hosts: Vec<Option<u32>>,
    switches: Vec<Option<u32>>,
    todo: Vec<u32>,
}

impl Model for Pairing {
    ghost use Rattle.std.specs.Prelude.{reverse};
    ghost use Rattle.map_sameness.specs.Pairing.{Pairs};

    ghost Value = { Pairs };

    ghost view = { λ s. record {
      host = s.host;
      images = s.images.items;
      hosts = s.hosts.items;
      switches = s.switches.items;
      todo = reverse s.todo.items;
    } };
}

impl Pairing {
    /// No pairs, with places for a host that the fabric lacks too.
    pub(crate) fn new(
        alloc: Global,
        m: &FabricMap,
        f: &Fabric,
        host: u16,
    ) -> Result<Pairing, AllocError>
        ensures pairs { IfOk result (λ s. s ≡ no_pairs f.now m.now host) }
        ensures fabric { IfOk result (λ s. IsFabric f.now) }
        ensures map { IfOk result (λ s. IsMap m.now) }
    {
        let hosts = usize::from(f.hosts()) + (usize::from(host) + 1);
        Ok(Pairing {
            host,
            images: vec![in alloc; None; m.vertices().len()]?,
            hosts: vec![in alloc; None; hosts]?,
            switches: vec![in alloc; None; usize::from(f.switches())]?,
            todo: Vec::new(alloc),
        })
    }

    /// Takes off a vertex whose ports are to be compared.
    pub(crate) fn next(&mut self) -> Option<u32>
        ensures taken { self.old ≡ with_todo self.new (taken_off result self.new.todo) }
        ensures done { IfNone result (self.new.todo ≡ []) }
    {
        self.todo.pop()
    }

    /// What a vertex of the map stands for.
    pub(crate) fn image(&self, v: u32) -> Option<Image>
        ensures { result ≡ image_of self.now v }
    {
        match self.images.get(v as usize) {
            Some(image) => *image,
            None => None,
        }
    }

    /// Whether each vertex of the map stands for one.
    pub(crate) fn is_whole(&self) -> bool
        ensures { result ≡ list_all is_some self.now.images }
    {
        self.images.iter().all(|image| image.is_some())
    }

    /// Whether a vertex of the map may stand for this. If it stands for nothing so far, it does from now on.
    pub(crate) fn pair(&mut self, m: &FabricMap, v: u32, i: Image) -> Result<bool, AllocError>
        requires vertex { v < length self.old.images }
        requires place { HasPlace self.old i.vertex }
        ensures is { IfOk result (λ is. is ≡ may_be m.now self.old v i) }
        ensures pairs { OnOk result (self.new ≡ paired m.now self.old v i) }
    {
        match self.image(v) {
            Some(known) => Ok(is_same(known, i)),
            None => self.pair_new(m, v, i),
        }
    }

    /// A vertex of the map stands for this from now on, and is to be compared.
    pub(crate) fn put(&mut self, v: u32, i: Image) -> Result<(), AllocError>
        requires vertex { v < length self.old.images }
        requires place { HasPlace self.old i.vertex }
        ensures { OnOk result (self.new ≡ with_pair self.old v i) }
    {
        self.todo.push(v)?;
        self.images[v as usize] = Some(i);
        self.put_origin(i.vertex, v);
        Ok(())
    }

    // Pairs two that aren't paired, if they may be.
    fn pair_new(&mut self, m: &FabricMap, v: u32, i: Image) -> Result<bool, AllocError>
        requires vertex { v < length self.old.images }
        requires place { HasPlace self.old i.vertex }
        ensures is { IfOk result (λ is. is ≡ may_be_new m.now self.old v i) }
        ensures pairs { OnOk result (self.new ≡ (if may_be_new m.now self.old v i then with_pair self.old v i
            else self.old)) }
    {
        let may = self.may_be_new(m, v, i);
        if may {
            self.put(v, i)?;
        }
        Ok(may)
    }

    // Whether two that aren't paired may be.
    fn may_be_new(&self, m: &FabricMap, v: u32, i: Image) -> bool
        ensures { result ≡ may_be_new m.now self.now v i }
    {
        are_alike(m.vertices().get(v as usize).copied(), i.vertex, i.offset)
            && self.origin(i.vertex).is_none()
    }

    // The vertex of the map that stands for a vertex of the fabric.
    fn origin(&self, x: Vertex) -> Option<u32>
        ensures { result ≡ origin_of self.now x }
    {
        match x {
            Vertex::Host(h) => origin_at(&self.hosts, h),
            Vertex::Switch(s) => origin_at(&self.switches, s),
        }
    }

    // A vertex of the map stands for one of the fabric.
    fn put_origin(&mut self, x: Vertex, v: u32)
        requires place { HasPlace self.old x }
        ensures { self.new ≡ with_origin self.old x v }
    {
        match x {
            Vertex::Host(h) => self.hosts[usize::from(h)] = Some(v),
            Vertex::Switch(s) => self.switches[usize::from(s)] = Some(v),
        }
    }
}

// What stands at a place, if there is one.
fn origin_at(origins: &[Option<u32>], at: u16) -> Option<u32>
    ensures { result ≡ slice_index_or origins.now at None }
{
    match origins.get(usize::from(at)) {
        Some(origin) => *origin,
        None => None,
    }
}

// Whether both are the same.
fn is_same(i: Image, j: Image) -> bool
    ensures { result ≡ same_image i j }
{
    i.vertex == j.vertex && i.offset == j.offset
}

// Whether a vertex of a map may stand for one of the fabric.
fn are_alike(v: Option<MapVertex>, x: Vertex, offset: i16) -> bool
    ensures { result ≡ are_alike v x offset }
{
    match (v, x) {
        (Some(MapVertex::Host(h)), Vertex::Host(g)) => h == g && offset == 0,
        (Some(MapVertex::Switch(_)), Vertex::Switch(_)) => true,
        _ => false,
    }
}
