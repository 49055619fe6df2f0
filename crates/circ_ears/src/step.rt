//! A cable, crossed out of one end into the other.

ghost use Rattle.std.specs.Prelude.{◌≡◌};
ghost use Rattle.circ_ears.specs.Trails.{crossed_back};

use net_defs::{End, Vertex};
use std::marker::Model;

/// A cable, crossed out of one end into the other.
#[derive(Clone, Copy, Debug)]
pub(crate) struct CableStep {
    cable: u16,
    out: End,
    into: End,
}

impl Model for CableStep {
    ghost use Rattle.circ_defs.specs.Ways.{Step};

    ghost Value = { Step };

    ghost view = { λ s. record { cable = s.cable; out = s.out; into = s.into } };

    ghost inverse = { λ s. record { cable = s.cable; out = s.out; into = s.into } };
}

impl CableStep {
    /// A step over a cable.
    pub(crate) fn new(cable: u16, out: End, into: End) -> CableStep
        ensures { result ≡ record { cable = cable; out = out; into = into } }
    {
        CableStep { cable, out, into }
    }

    /// The cable's number.
    pub(crate) fn cable(&self) -> u16
        ensures { result ≡ self.now.cable }
    {
        self.cable
    }

    /// The vertex that it leaves.
    pub(crate) fn from(&self) -> Vertex
        ensures { result ≡ self.now.out.v }
    {
        self.out.v
    }

    /// The vertex that it leads to.
    pub(crate) fn to(&self) -> Vertex
        ensures { result ≡ self.now.into.v }
    {
        self.into.v
    }

    /// The step in the other direction.
    pub(crate) fn crossed_back(&self) -> CableStep
        ensures { result ≡ crossed_back self.now }
    {
        CableStep {
            cable: self.cable,
            out: self.into,
            into: self.out,
        }
    }
}
