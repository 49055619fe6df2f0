//! What an end keeps of a period that is over, and of a send that is in an event.

ghost use Rattle.std.specs.Prelude.{◌≡◌};
ghost use Rattle.duo_defs.specs.Duo.{is_of};

use gm_conn::Lane;
use std::marker::Model;

/// A period: a time in which an end was one incarnation and knew one of its peer, 0 where it knew none.
#[derive(Drop)]
pub(crate) struct Past {
    pub(crate) inc: u32,
    pub(crate) known: u32,
    pub(crate) lane: Lane,
}

impl Model for Past {
    ghost use Rattle.duo_defs.specs.Duo.{Period};
    ghost use Rattle.gm_restart.specs.End.{period_of};

    ghost Value = { Period };

    ghost view = { λ p. period_of p.inc p.known p.lane.state };
}

impl Past {
    /// Whether it is the period of these incarnations.
    pub(crate) fn is_of(&self, inc: u32, known: u32) -> bool
        ensures { result ≡ is_of inc known self.now }
    {
        self.inc == inc && self.known == known
    }
}

/// A send that is in an event: its token, the incarnation of the peer that its message is counted to, the message's
/// place among those sent to it, and whether the message wasn't acknowledged.
#[derive(Debug, Drop)]
pub(crate) struct Back {
    pub(crate) token: u16,
    pub(crate) known: u32,
    pub(crate) place: usize,
    pub(crate) unsure: bool,
}

impl Model for Back {
    ghost use Rattle.duo_defs.specs.Duo.{Returned};

    ghost Value = { Returned };

    ghost view = { λ r. record { token = r.token; known = r.known; place = r.place; unsure = r.unsure } };
}
