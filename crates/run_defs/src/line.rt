//! The lines of a report.

ghost use Rattle.std.specs.Prelude.{◌≡◌};

use duo_defs::DuoEffect;
use fab_text::FaultKind;
use gm_defs::TokenPlace;
use map_defs::MapVertex;
use net_defs::{End, Place, Walk};
use std::marker::Model;
use world_defs::{Cause, Heard, Said};

/// How far a map is known to be right.
#[derive(Clone, Copy, Debug, PartialEq, Eq)]
pub enum MapWords {
    /// `complete`: the map is the mapper's part of the fabric.
    Complete,
    /// So many asks drowned.
    Doubtful(u64),
    /// The depth left a switch unexpanded.
    IncompleteDepth,
    /// The tree had too many nodes.
    IncompleteNodes,
}

/// Why routes aren't installed.
#[derive(Clone, Copy, Debug, PartialEq, Eq)]
pub enum InstallCause {
    /// `noroutes`: no routes were computed.
    NoRoutes,
    /// `busy`: a channel holds a packet.
    Busy,
    /// `changed`: a cable was pulled or plugged since the map of the routes began.
    Changed,
    /// `installed`: a host hasn't given up the epoch of the adopted routes.
    Installed,
    /// `epochs`: there is no next epoch.
    Epochs,
}

/// What became of joining two ports.
#[derive(Clone, Copy, Debug, PartialEq, Eq)]
pub enum PlugWords {
    /// `done`: they are joined.
    Done,
    /// `refused portused`: a port has a cable, or the two are equal.
    PortUsed,
    /// `refused full`: 4,096 cables were named.
    Full,
}

/// A call of a client.
#[derive(Clone, Copy, Debug, PartialEq, Eq)]
pub enum ClientCall {
    /// `open`: a port is opened.
    Begin,
    /// `close`: a port is closed.
    Close,
    /// `provide`: a port is given a receive token with a buffer.
    Provide,
    /// `send`: a message is handed over with a send token.
    Send,
    /// `poll`: the first event of a port's queue is taken.
    Poll,
    /// `tokens`: it says where a port's tokens are.
    Tokens,
}

/// What one event did. A channel is named by the end that it leaves.
#[derive(Clone, Copy, Debug, PartialEq, Eq)]
pub enum StepWords {
    /// `idle`: it wasn't possible, and changed nothing.
    Idle,
    /// `injected N`: a host put a packet into its channel, as injection N of the run.
    Injected(u64),
    /// `moved V P`: the packet entered this channel.
    Moved(End),
    /// `blocked V P`: the packet stays, since this channel is full.
    Blocked(End),
    /// `arrived H WHAT`: the packet reached the host of this address, which heard this.
    Arrived(u16, Heard),
    /// `dropped CAUSE`: a switch or a host dropped the packet.
    Dropped(Cause),
    /// `lost`: the channel's packet is gone.
    Lost,
    /// `reset`: the channel was cleared.
    Reset,
    /// `flipped`: bits of the channel's packet were flipped.
    Flipped,
    /// `expired`: what the peer didn't acknowledge is due again.
    Expired,
    /// `gaveup`: the host dropped what it had staged for the mapper.
    GaveUp,
    /// `repeated S`: a copy of the packet is put aside under this serial.
    Repeated(u64),
    /// `held S`: the packet itself is put aside under this serial.
    Held(u64),
    /// `replayed V P`: the packet is back in this channel.
    Replayed(End),
}

/// A token's place; none where its client has it.
#[derive(Clone, Copy, Debug, PartialEq, Eq)]
pub struct PlaceEntry {
    /// The token's number, from 0 among those of its kind.
    pub number: u16,
    /// Where the port has it; none where its client has it.
    pub place: Option<TokenPlace>,
}

/// The places of a port's tokens of one kind. Contracts see the list of them.
#[derive(Debug, Drop)]
pub struct PlaceList {
    places: Vec<PlaceEntry>,
}

impl Model for PlaceList {
    ghost use Rattle.std.specs.Prelude.{List};
    ghost use Rattle.run_defs.specs.declared.line.PlaceEntry.{PlaceEntry};

    ghost Value = { List PlaceEntry };

    ghost view = { λ p. p.places.items };
}

impl PlaceList {
    /// These places.
    pub fn new(places: Vec<PlaceEntry>) -> PlaceList
        ensures { result ≡ places.items }
    {
        PlaceList { places }
    }

    /// The places in their order.
    pub fn list(&self) -> &[PlaceEntry]
        ensures { result.now ≡ self.now }
    {
        &self.places
    }
}

/// One line of a report. The lines of a map are no `Line`: they are printed with the map.
#[derive(Debug, Drop)]
pub enum Line {
    /// The text is refused, at this line.
    Refused {
        /// The number of the line, from 1.
        line: u32,
        /// What is wrong with it.
        kind: FaultKind,
    },
    /// `walk ..`: where a walk ends.
    Walk(Place),
    /// `map H WORDS asks A packets N`: a map was made. Its lines follow, unless its tree had too many nodes.
    Map {
        /// The address of the mapper.
        host: u16,
        /// How far the map is known to be right.
        words: MapWords,
        /// How many walks were asked.
        asks: u64,
        /// How many packets the asks injected.
        packets: u64,
    },
    /// `map H refused busy`: a channel holds a packet, so the host of this address doesn't map.
    MapBusy(u16),
    /// The whole tree of circuit answers was asked to a depth of cables, by so many asks. Its map follows.
    Circuit {
        /// The address from which walks were asked.
        host: u16,
        /// The depth, from 1 to 32.
        depth: u8,
        /// How many walks were asked.
        asks: u64,
    },
    /// The tree of circuit answers had too many nodes: so many walks were asked, and there is no map.
    CircuitNodes {
        /// The address from which walks were asked.
        host: u16,
        /// How many walks were asked.
        asks: u64,
    },
    /// `routes N`: so many routes were computed.
    Routes(u32),
    /// `route A B TURN ..`: one of the routes.
    Route {
        /// The address of the sender.
        from: u16,
        /// The address of the receiver.
        to: u16,
        /// The turns from the sender.
        walk: Walk,
    },
    /// `rank V P R`: the rank of one channel of the map.
    Rank {
        /// The vertex that the channel leaves.
        v: MapVertex,
        /// The port by which it leaves, counted from a switch's own entry port.
        p: i8,
        /// Its rank.
        rank: u64,
    },
    /// `endroutes`: the routes and their ranks end.
    EndRoutes,
    /// `routes refused nomap`
    NoMap,
    /// `installed K of N`: routes were distributed.
    Installed {
        /// How many hosts acknowledged all of their table, the mapper among them.
        acked: u16,
        /// How many hosts the map has.
        of: u16,
    },
    /// `table H active` or `table H none`: what became of one host's table.
    Table {
        /// The address of the host.
        host: u16,
        /// Whether it has a table of which all parts stand.
        active: bool,
    },
    /// `install refused CAUSE`: nothing was distributed.
    InstallRefused(InstallCause),
    /// `CALL H P ANSWER`: a client's call was answered.
    Client {
        /// Which call it was.
        call: ClientCall,
        /// The address of the port's host.
        host: u16,
        /// The port, from 0 to 7.
        port: u8,
        /// What it was answered.
        said: Said,
    },
    /// `tokens H P send T=PLACE .. recv T=PLACE ..`: where the tokens of an open port are.
    Tokens {
        /// The address of the port's host.
        host: u16,
        /// The port, from 0 to 7.
        port: u8,
        /// The send tokens, by rising number.
        sends: PlaceList,
        /// The receive tokens, by rising number.
        recvs: PlaceList,
    },
    /// The injection that a plan is for.
    PlanAt(u128),
    /// `step EFFECT`: what one event did.
    Step(StepWords),
    /// `settle rounds R resets N unacked U`: a settle ended.
    Settle {
        /// How many rounds it took.
        rounds: u64,
        /// How many stuck packets were taken away.
        resets: u64,
        /// How many fragments aren't acknowledged after it.
        unacked: u64,
    },
    /// `end injected N dropped M`: the script ended.
    Finish {
        /// How many packets were injected in the run.
        injected: u64,
        /// How many packets were dropped in the run.
        dropped: u64,
    },
    /// What was generated: so many hosts from this seed, and the counts of the fabric.
    GenHead {
        /// The number that the run was asked for, from 2 to 24.
        n: u8,
        /// The seed, at most 1,000,000.
        seed: u32,
        /// How many hosts the fabric has.
        hosts: u16,
        /// How many switches it has.
        switches: u16,
        /// How many cables it has.
        cables: u16,
    },
    /// The map of a generated run, without its mapper.
    GenMap {
        /// How far the map is known to be right.
        words: MapWords,
        /// How many walks were asked.
        asks: u64,
        /// How many packets the asks injected.
        packets: u64,
    },
    /// The messages of a generated run: sends that were accepted, and polls that received one.
    GenCount {
        /// How many sends were answered with a token.
        accepted: u64,
        /// How many polls received a message.
        received: u64,
    },
    /// `duo EFFECT`: what one event of the two hosts that restart did.
    Duo(DuoEffect),
    /// `pull V P done`, or `pull V P refused nocable`: the cable at a port was pulled, or the port has none.
    Pull {
        /// The port.
        at: End,
        /// Whether it had a cable.
        done: bool,
    },
    /// `plug V P W Q done`, or `plug V P W Q refused CAUSE`: two ports were joined, or why they weren't.
    Plug {
        /// The one port.
        a: End,
        /// The other.
        b: End,
        /// Whether they were joined, or why they weren't.
        words: PlugWords,
    },
    /// `revoked N`: so many hosts gave up the epoch of the adopted routes.
    Revoked(u32),
    /// `broken A B`: an adopted route crosses a cable that was pulled since the adoption.
    Broken {
        /// The address of the sender.
        from: u16,
        /// The address of the receiver.
        to: u16,
    },
    /// `endbroken`: the broken routes end.
    EndBroken,
    /// `broken refused noroutes`: no routes are adopted.
    NoBroken,
}
