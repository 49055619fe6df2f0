//! Where a path may end: at a host, or at one of the cables that are taken.

ghost use Rattle.std.specs.Prelude.{◌≡◌, nat_eq};
ghost use Rattle.std.specs.List.{list_any};
ghost use Rattle.circ_ears.specs.Trails.{ends_at, is_touched};
ghost use Rattle.circ_ears.specs.Search.{may_end};

use net_defs::Vertex;
use port_graph::Fabric;

/// Whether a path may end at a vertex.
pub(crate) fn may_end(f: &Fabric, old: &[u16], v: Vertex) -> bool
    ensures { result ≡ may_end f.now old.now v }
{
    match v {
        Vertex::Host(_) => true,
        Vertex::Switch(_) => is_touched(f, old, v),
    }
}

/// Whether one of these cables ends at a vertex.
pub(crate) fn is_touched(f: &Fabric, cables: &[u16], v: Vertex) -> bool
    ensures { result ≡ is_touched f.now cables.now v }
{
    cables.iter().any(|k| ends_at(f, *k, v))
}

// Whether the cable of a number ends at a vertex.
fn ends_at(f: &Fabric, k: u16, v: Vertex) -> bool
    ensures { result ≡ ends_at f.now k v }
{
    if k >= f.cables() {
        return false;
    }
    let c = f.cable(k);
    c.a.v == v || c.b.v == v
}

/// Whether a cable is one of these.
pub(crate) fn is_one_of(cables: &[u16], k: u16) -> bool
    ensures { result ≡ list_any (nat_eq k) cables.now }
{
    cables.iter().any(|l| k == *l)
}
