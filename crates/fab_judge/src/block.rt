//! Which lines follow an answer's first line.

ghost use Rattle.std.specs.Prelude.{◌≡◌};
ghost use Rattle.fab_judge.specs.Blocks.{block_in, block_of_map};

use report_lines::{MapSaid, ReportLine};

/// The lines that follow a first line.
#[derive(Clone, Copy)]
pub(crate) enum Block {
    /// Those of a map.
    Map,
    /// Those of a map of circuit links.
    Circuit,
    /// So many routes, their ranks, and `endroutes`.
    Routes(u64),
    /// The tables of so many hosts, of which at least so many acknowledged theirs.
    Tables {
        /// The hosts that acknowledged their tables.
        acked: u64,
        /// The hosts.
        count: u64,
    },
    /// Broken routes after the one of this sender and this receiver, and `endbroken`.
    Broken(u16, u16),
    /// None: no route is broken.
    NoneBroken,
    /// None; or broken routes, where the words of the refusal are two hosts.
    Refused,
    /// None.
    Nothing,
}

/// The lines that follow a first line.
pub(crate) fn block_in(line: &ReportLine) -> Block
    ensures { result ≡ block_in line.now }
{
    match line {
        ReportLine::Map { said, .. } => block_of_map(*said),
        ReportLine::Circuit { .. } => Block::Circuit,
        ReportLine::Routes(count) => Block::Routes(*count),
        ReportLine::Installed { acked, count } => Block::Tables {
            acked: *acked,
            count: *count,
        },
        ReportLine::Broken { from, to } => Block::Broken(*from, *to),
        ReportLine::EndBroken => Block::NoneBroken,
        ReportLine::NoBroken => Block::Refused,
        _ => Block::Nothing,
    }
}

// The lines that follow the line of a map.
fn block_of_map(said: MapSaid) -> Block
    ensures { result ≡ block_of_map said }
{
    match said {
        MapSaid::Overgrown => Block::Nothing,
        _ => Block::Map,
    }
}
