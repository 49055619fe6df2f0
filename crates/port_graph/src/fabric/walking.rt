//! Walking over a fabric.

ghost use Rattle.std.specs.Prelude.{◌≡◌};
ghost use Rattle.net_defs.specs.Route.{turned, place, place_at, IsEntered, IsPlaceOf};

use super::Fabric;
use net_defs::{End, Place, Vertex, leaving_port};

impl Fabric {
    /// The place of a walk from a host: it starts at the far end of the host's cable, and a switch that is entered by
    /// port e is left by port e + turn. `Nothing` where the walk is stuck, also where the fabric lacks the host. It
    /// takes no memory.
    pub fn walk(&self, host: u16, turns: &[i8]) -> Place
        ensures place { result ≡ place self.now host turns.now }
        ensures there { IsPlaceOf self.now result }
    {
        let mut entered = self.far(Vertex::Host(host), 0);
        for turn in turns {
            entered = self.turned(entered, *turn);
        }
        place_of(entered)
    }

    // The end that is entered next, from the end entered last.
    fn turned(&self, entered: Option<End>, turn: i8) -> Option<End>
        ensures end { result ≡ turned self.now entered turn }
        ensures there { IsEntered self.now result }
    {
        match entered {
            Some(e) => self.turned_at(e, turn),
            None => None,
        }
    }

    // The end that is entered next from an end.
    fn turned_at(&self, e: End, turn: i8) -> Option<End>
        ensures end { result ≡ turned self.now (Some e) turn }
        ensures there { IsEntered self.now result }
    {
        let port = match e.v {
            Vertex::Host(_) => None,
            Vertex::Switch(_) => leaving_port(self.ports(e.v), e.p, turn),
        };
        match port {
            Some(p) => self.far(e.v, p),
            None => None,
        }
    }
}

// The place of a walk that entered this end last.
fn place_of(entered: Option<End>) -> Place
    ensures { result ≡ place_at entered }
{
    match entered {
        None => Place::Nothing,
        Some(
            End {
                v: Vertex::Host(h),
                p: _,
            },
        ) => Place::Host(h),
        Some(
            End {
                v: Vertex::Switch(s),
                p,
            },
        ) => Place::Switch(s, p),
    }
}
