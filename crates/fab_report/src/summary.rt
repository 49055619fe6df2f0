//! The summary of a run, from the figures of its report.

ghost use Rattle.std.specs.Prelude.{◌≡◌, ◌++◌, length, flat_map, count_by, IfOk, OnOk};
ghost use Rattle.run_defs.specs.LineText.{line_text, output_text};
ghost use Rattle.run_defs.specs.Output.{lines};
ghost use Rattle.run_defs.specs.Summary.{count_line, is_accepted, is_received, mapping_lines, settle_lines};
ghost use Rattle.run_defs.specs.declared.line.Line.TheVariants.{GenHead};
ghost use Rattle.fab_report.specs.Printed.{figure_lines};

use crate::line::{print_line, print_made_onto};
use port_graph::Fabric;
use run_defs::{Figure, Line};
use std::alloc::{AllocError, Global};

/// The first line of the summary of a generated run, which says what was generated: `n` hosts from this seed made this
/// fabric.
pub fn begin_summary(alloc: Global, n: u8, seed: u32, f: &Fabric) -> Result<Vec<u8>, AllocError>
    ensures { IfOk result (λ text. text.items ≡ line_text f.now
        (GenHead n seed (length f.now.hosts) (length f.now.switches) (length f.now.cables))) }
{
    let line = Line::GenHead {
        n,
        seed,
        hosts: f.hosts(),
        switches: f.switches(),
        cables: f.cables(),
    };
    print_line(alloc, &line, f)
}

/// The other lines of a summary after the first, from the figures of the run's report, in the names of a fabric.
pub fn end_summary(text: &mut Vec<u8>, f: &Fabric, figures: &[Figure]) -> Result<(), AllocError>
    ensures { OnOk result (text.new.items ≡ text.old.items ++ output_text f.now (lines (figure_lines figures.now))) }
{
    append_mappings(text, f, figures)?;
    append_counts(text, f, figures)?;
    append_settles(text, f, figures)
}

// The lines of maps, routes and installations.
fn append_mappings(text: &mut Vec<u8>, f: &Fabric, figures: &[Figure]) -> Result<(), AllocError>
    ensures { OnOk result (text.new.items ≡ text.old.items
        ++ flat_map (λ k. output_text f.now (lines (mapping_lines k))) figures.now) }
{
    for figure in figures {
        append_mapping(text, f, *figure)?;
    }
    Ok(())
}

// The line of a map, of routes or of an installation.
fn append_mapping(text: &mut Vec<u8>, f: &Fabric, figure: Figure) -> Result<(), AllocError>
    ensures { OnOk result (text.new.items ≡ text.old.items ++ output_text f.now (lines (mapping_lines figure))) }
{
    match figure {
        Figure::Mapped {
            words,
            asks,
            packets,
        } => print_made_onto(
            text,
            Line::GenMap {
                words,
                asks,
                packets,
            },
            f,
        ),
        Figure::Routed(count) => print_made_onto(text, Line::Routes(count), f),
        Figure::Installed { acked, of } => {
            print_made_onto(text, Line::Installed { acked, of }, f)
        }
        Figure::Accepted | Figure::Received | Figure::Settled { .. } => Ok(()),
    }
}

// The line that counts messages.
fn append_counts(text: &mut Vec<u8>, f: &Fabric, figures: &[Figure]) -> Result<(), AllocError>
    ensures { OnOk result (text.new.items ≡ text.old.items ++ line_text f.now (count_line figures.now)) }
{
    let line = Line::GenCount {
        accepted: accepted(figures),
        received: received(figures),
    };
    print_made_onto(text, line, f)
}

// How many sends were accepted.
fn accepted(figures: &[Figure]) -> u64
    ensures { result ≡ count_by is_accepted figures.now }
{
    figures.iter().filter(|k| is_accepted(**k)).count() as u64
}

// Whether a send was accepted.
fn is_accepted(figure: Figure) -> bool
    ensures { result ≡ is_accepted figure }
{
    matches!(figure, Figure::Accepted)
}

// How many polls received a message.
fn received(figures: &[Figure]) -> u64
    ensures { result ≡ count_by is_received figures.now }
{
    figures.iter().filter(|k| is_received(**k)).count() as u64
}

// Whether a message was received.
fn is_received(figure: Figure) -> bool
    ensures { result ≡ is_received figure }
{
    matches!(figure, Figure::Received)
}

// The lines of settles.
fn append_settles(text: &mut Vec<u8>, f: &Fabric, figures: &[Figure]) -> Result<(), AllocError>
    ensures { OnOk result (text.new.items ≡ text.old.items
        ++ flat_map (λ k. output_text f.now (lines (settle_lines k))) figures.now) }
{
    for figure in figures {
        append_settle(text, f, *figure)?;
    }
    Ok(())
}

// The line of a settle.
fn append_settle(text: &mut Vec<u8>, f: &Fabric, figure: Figure) -> Result<(), AllocError>
    ensures { OnOk result (text.new.items ≡ text.old.items ++ output_text f.now (lines (settle_lines figure))) }
{
    match figure {
        Figure::Settled {
            rounds,
            resets,
            unacked,
        } => print_made_onto(
            text,
            Line::Settle {
                rounds,
                resets,
                unacked,
            },
            f,
        ),
        _ => Ok(()),
    }
}
