//! The lines of a generated run that no other run has.

ghost use Rattle.std.specs.Prelude.{◌≡◌, ◌++◌, ◌∷◌, [], OnOk, codes, decimal};
ghost use Rattle.fab_text.specs.Written.{spaced};
ghost use Rattle.net_defs.specs.Network.{Network};
ghost use Rattle.run_defs.specs.LineText.{words_in};
ghost use Rattle.run_defs.specs.declared.line.Line.TheVariants.{GenMap};
ghost use Rattle.fab_report.specs.Kinds.{IsGeneratedLine};

use crate::mapping::append_map_words;
use line_writing::Word::{Number, Text};
use line_writing::append_words;
use run_defs::{Line, MapWords};
use std::alloc::AllocError;

/// The words of a line that a generated run alone has, by its kind.
pub(crate) fn append_generated_line(text: &mut Vec<u8>, l: &Line) -> Result<(), AllocError>
    requires generated { IsGeneratedLine l.now }
    ensures { OnOk result ((n : Network) → text.new.items ≡ text.old.items ++ spaced (words_in n l.now)) }
{
    match l {
        Line::GenHead {
            n,
            seed,
            hosts,
            switches,
            cables,
        } => gen_line(
            text,
            *n,
            *seed,
            FabricSize {
                hosts: *hosts,
                switches: *switches,
                cables: *cables,
            },
        ),
        Line::GenMap {
            words,
            asks,
            packets,
        } => gen_map_line(text, *words, *asks, *packets),
        Line::GenCount { accepted, received } => gen_count_line(text, *accepted, *received),
        _ => unreachable!(),
    }
}

// How many hosts, switches and cables a fabric has.
#[derive(Clone, Copy)]
struct FabricSize {
    hosts: u16,
    switches: u16,
    cables: u16,
}

// `gen N SEED hosts H switches S cables K`
fn gen_line(text: &mut Vec<u8>, n: u8, seed: u32, size: FabricSize) -> Result<(), AllocError>
    ensures { OnOk result (text.new.items ≡ text.old.items
        ++ spaced (codes "gen" ∷ decimal n ∷ decimal seed ∷ codes "hosts" ∷ decimal size.hosts
        ∷ codes "switches" ∷ decimal size.switches ∷ codes "cables" ∷ decimal size.cables ∷ [])) }
{
    append_words(
        text,
        &[
            Text(b"gen"),
            Number(u64::from(n)),
            Number(u64::from(seed)),
            Text(b"hosts"),
            Number(u64::from(size.hosts)),
            Text(b"switches"),
            Number(u64::from(size.switches)),
            Text(b"cables"),
            Number(u64::from(size.cables)),
        ],
    )
}

// `map WORDS asks A packets P`
fn gen_map_line(
    text: &mut Vec<u8>,
    words: MapWords,
    asks: u64,
    packets: u64,
) -> Result<(), AllocError>
    ensures { OnOk result ((n : Network) → text.new.items ≡ text.old.items
        ++ spaced (words_in n (GenMap words asks packets))) }
{
    append_words(text, &[Text(b"map")])?;
    append_map_words(text, words, asks, packets)
}

// `messages X received Y`
fn gen_count_line(text: &mut Vec<u8>, accepted: u64, received: u64) -> Result<(), AllocError>
    ensures { OnOk result (text.new.items ≡ text.old.items
        ++ spaced (codes "messages" ∷ decimal accepted ∷ codes "received" ∷ decimal received ∷ [])) }
{
    append_words(
        text,
        &[
            Text(b"messages"),
            Number(accepted),
            Text(b"received"),
            Number(received),
        ],
    )
}
