//! What a line of a report says, as far as it is judged.

ghost use Rattle.std.specs.Prelude.{◌≡◌};

use gm_defs::Blob;
use map_defs::MapVertex;
use port_graph::{End, Route};
use port_ledgers::{PortName, ToldPlace};
use run_defs::ClientCall;
use std::marker::Model;

/// How far a line says that a map is known to be right. The lines of the map follow, unless its tree had too many
/// nodes.
#[derive(Clone, Copy, Debug, PartialEq, Eq)]
pub enum MapSaid {
    /// `complete`
    Complete,
    /// `doubtful N`
    Doubtful,
    /// `incomplete depth`
    Shallow,
    /// `incomplete nodes`
    Overgrown,
}

/// A message that came, as its line shows it.
#[derive(Debug, Drop)]
pub struct ReceivedLine {
    /// The port at which it came.
    pub port: PortName,
    /// The number of the receive token.
    pub token: u64,
    /// The address of the sending host.
    pub from: u16,
    /// The sending port, from 0 to 7.
    pub sport: u8,
    /// The priority, 0 or 1.
    pub prio: u8,
    /// How many bytes the line says that it has.
    pub len: u64,
    /// The bytes that the line shows.
    pub body: Blob,
}

/// The tokens of one kind with their places, as a line shows them. Contracts see the list of them.
#[derive(Debug, Drop)]
pub struct PlacesSaid {
    places: Vec<ToldPlace>,
}

impl Model for PlacesSaid {
    ghost use Rattle.std.specs.Prelude.{List};
    ghost use Rattle.port_ledgers.specs.declared.lane.ToldPlace.{ToldPlace};

    ghost Value = { List ToldPlace };

    ghost view = { λ p. p.places.items };
}

impl PlacesSaid {
    /// These places.
    pub fn new(places: Vec<ToldPlace>) -> PlacesSaid
        ensures { result ≡ places.items }
    {
        PlacesSaid { places }
    }

    /// The places in their order.
    pub fn list(&self) -> &[ToldPlace]
        ensures { result.now ≡ self.now }
    {
        &self.places
    }
}

/// The tokens of a port, as a line shows them.
#[derive(Debug, Drop)]
pub struct TokensLine {
    /// The port.
    pub port: PortName,
    /// Its send tokens.
    pub sends: PlacesSaid,
    /// Its receive tokens.
    pub recvs: PlacesSaid,
}

/// What a line of a report says. Hosts are addresses; a number of which nothing is judged is left out.
#[derive(Debug, Drop)]
pub enum ReportLine {
    /// `walk PLACE`
    Walk,
    /// `map H WORDS asks A packets N`
    Map {
        /// The mapper.
        host: u16,
        /// How far the map is known to be right.
        said: MapSaid,
    },
    /// `map H refused busy`
    MapBusy(u16),
    /// `circuit H depth D asks A`; the lines of its map follow.
    Circuit {
        /// The host from which walks were asked.
        host: u16,
        /// The depth.
        depth: u64,
    },
    /// `circuit H nodes asks A`
    CircuitNodes(u16),
    /// `routes N`; so many routes follow, then ranks, then `endroutes`.
    Routes(u64),
    /// `routes refused nomap`
    NoMap,
    /// `route A B TURN ..`
    Route(Route),
    /// `rank V P R`
    Rank {
        /// The vertex that the channel leaves.
        v: MapVertex,
        /// The port by which it leaves.
        p: i8,
        /// Its rank.
        rank: u64,
    },
    /// `endroutes`
    EndRoutes,
    /// `installed K of N`, K at most N; N lines `table` follow.
    Installed {
        /// How many hosts acknowledged all parts of their tables.
        acked: u64,
        /// How many hosts the map has.
        count: u64,
    },
    /// `table H active` or `table H none`
    Table {
        /// The host.
        host: u16,
        /// Whether its table is active.
        active: bool,
    },
    /// `install refused CAUSE`
    InstallRefused,
    /// `open H P done`
    Opened(PortName),
    /// `close H P done N`
    Closed {
        /// The port.
        port: PortName,
        /// How many provided tokens came back.
        count: u64,
    },
    /// `provide H P token T`
    Provided {
        /// The port.
        port: PortName,
        /// The number of the receive token.
        token: u64,
    },
    /// `send H P token T`
    Accepted {
        /// The sending port.
        port: PortName,
        /// The number of the send token.
        token: u64,
    },
    /// `poll H P sent token T`
    Returned {
        /// The port.
        port: PortName,
        /// The number of the send token.
        token: u64,
    },
    /// `poll H P received ..`
    Received(ReceivedLine),
    /// `poll H P nothing`
    NothingCame(PortName),
    /// `CALL H P refused CAUSE`, with a cause for which this call may be refused.
    CallRefused {
        /// The call.
        call: ClientCall,
        /// The port.
        port: PortName,
    },
    /// `tokens H P send T=PLACE .. recv T=PLACE ..`
    Tokens(TokensLine),
    /// `plan at N`
    PlanAt,
    /// `step EFFECT`
    Step,
    /// `settle rounds R resets N unacked U`
    Settle,
    /// `end injected N dropped M`
    Finish,
    /// `pull V P done`, or `pull V P refused nocable`.
    Pull {
        /// The port.
        at: End,
        /// Whether its cable was pulled.
        done: bool,
    },
    /// `plug V P W Q done`, or `plug V P W Q refused CAUSE`.
    Plug {
        /// The one port.
        a: End,
        /// The other.
        b: End,
        /// Whether they were joined.
        done: bool,
    },
    /// `revoked N`
    Revoked,
    /// `broken A B`; further ones may follow, and `endbroken` does.
    Broken {
        /// The address of the sender.
        from: u16,
        /// The address of the receiver.
        to: u16,
    },
    /// `endbroken`
    EndBroken,
    /// `broken refused noroutes`, also where two hosts have these names.
    NoBroken,
}
