//! The run of a generated text, and its summary.

ghost use Rattle.std.specs.Prelude.{◌≡◌, ◌≤◌, ◌++◌, IfOk, OnOk, Some};
ghost use Rattle.std.specs.List.{AllByRecursion};
ghost use Rattle.world_defs.specs.World.{fabric_of};
ghost use Rattle.run_defs.specs.Session.{new_session};
ghost use Rattle.run_defs.specs.LineText.{output_text};
ghost use Rattle.run_defs.specs.Output.{lines};
ghost use Rattle.fab_outer.specs.Fault.{Rose};
ghost use Rattle.fab_report.specs.Printed.{listed, figure_lines};
ghost use Rattle.fab_script.specs.Ranges.{IsCommandOf};
ghost use Rattle.promise_laws.specs.OneAction.{VerticesStay};
ghost use Rattle.fabric_run.specs.Ends.{HasVerticesOf};
ghost use Rattle.fabric_run.specs.Generated.{IsCounted, HaveCounted, IsGenerated};
ghost use Rattle.fabric_run.specs.Generated.{IsWritten, GenEnds};

use crate::ran::Ran;
use crate::status::Status;
use fab_outer::{Sink, write_all};
use fab_report::{Figure, begin_summary, end_summary};
use input_texts::{Accepted, read_generated};
use run_session::{Command, Printed, Session};
use std::alloc::{AllocError, Global};

/// Runs the text of so many hosts and a seed, and writes the summary of its run once all its commands ran.
pub(crate) fn run_generated<K: Sink>(alloc: Global, n: u8, seed: u32, out: &mut K) -> Ran
    requires some { 2 ≤ n }
    requires few { n ≤ 24 }
    requires seed { seed ≤ 1000000 }
    ensures ends { GenEnds n seed (out.new ≡ out.old) (K.taken out.old) (K.taken out.new)
        result.status result.session }
    ensures write_fault { result.status ≡ Status.WriteFault → Rose (K.faults out.old) (K.faults out.new) }
    ensures later { K.faults out.old ≤ K.faults out.new }
{
    match run_text(alloc, n, seed) {
        Ok((session, summary)) => write_summary(session, &summary, out),
        Err(_) => Ran::without_session(Status::NoMemory),
    }
}

// The session after all commands of the text, and the summary of what they printed.
fn run_text(alloc: Global, n: u8, seed: u32) -> Result<(Session, Vec<u8>), AllocError>
    requires some { 2 ≤ n }
    requires few { n ≤ 24 }
    requires seed { seed ≤ 1000000 }
    ensures { IfOk result (λ r. IsGenerated n seed r.1.items r.0) }
{
    let accepted = read_generated(alloc, n, seed)?;
    let head = begin_summary(alloc, n, seed, &accepted.fabric)?;
    let (session, figures) = run_accepted(alloc, accepted)?;
    with_figures(head, session, &figures)
}

// The session after all commands of what a text says, and the figures of what they printed.
fn run_accepted(alloc: Global, accepted: Accepted) -> Result<(Session, Vec<Figure>), AllocError>
    requires over { AllByRecursion (IsCommandOf accepted.network) accepted.commands }
    ensures counted { IfOk result (λ r. HaveCounted accepted.network accepted.commands r.1.items r.0) }
    ensures vertices { IfOk result (λ r. HasVerticesOf accepted.network r.0) }
{
    let Accepted { fabric, script } = accepted;
    let session = Session::new(alloc, fabric)?;
    run_commands(alloc, session, script.list())
}

// A session, and the summary that begins with this line and has the figures that the session's commands printed.
fn with_figures(
    head: Vec<u8>,
    session: Session,
    figures: &[Figure],
) -> Result<(Session, Vec<u8>), AllocError>
    ensures same { IfOk result (λ r. r.0 ≡ session) }
    ensures told { IfOk result (λ r. r.1.items ≡ head.items
        ++ output_text (fabric_of session.world) (lines (figure_lines figures.now))) }
{
    let mut summary = head;
    match end_summary(&mut summary, session.world().fabric(), figures) {
        Ok(()) => Ok((session, summary)),
        Err(wanting) => {
            session.end();
            Err(wanting)
        }
    }
}

// Lets a new session do commands: the session then, and the figures of what they printed.
fn run_commands(
    alloc: Global,
    mut session: Session,
    commands: &[Command],
) -> Result<(Session, Vec<Figure>), AllocError>
    requires fresh { session ≡ new_session (fabric_of session.world) }
    requires over { AllByRecursion (IsCommandOf (fabric_of session.world)) commands.now }
    ensures counted { IfOk result (λ r. HaveCounted (fabric_of session.world) commands.now r.1.items r.0) }
    ensures vertices { IfOk result (λ r. HasVerticesOf (fabric_of session.world) r.0) }
{
    let mut printed = Printed::nothing(alloc);
    let mut figures = Vec::new(alloc);
    for command in commands {
        session = run_command(alloc, session, command, &mut printed, &mut figures)?;
    }
    Ok((session, figures))
}

// Lets a session do a command, and puts the figure of what it printed, if there is one, after the others.
fn run_command(
    alloc: Global,
    mut session: Session,
    command: &Command,
    printed: &mut Printed,
    figures: &mut Vec<Figure>,
) -> Result<Session, AllocError>
    requires command { IsCommandOf (fabric_of session.world) command.now }
    ensures counted { IfOk result (λ next. IsCounted session command.now next figures.old.items figures.new.items) }
    ensures vertices { IfOk result (λ next. VerticesStay session.world next.world) }
{
    match session.perform(alloc, command, printed) {
        Ok(()) => keep_figure(session, printed.figure(), figures),
        Err(_) => {
            session.end();
            Err(AllocError)
        }
    }
}

// Puts a figure, if there is one, after others.
fn keep_figure(
    session: Session,
    figure: Option<Figure>,
    figures: &mut Vec<Figure>,
) -> Result<Session, AllocError>
    ensures same { IfOk result (λ next. next ≡ session) }
    ensures kept { OnOk result (figures.new.items ≡ figures.old.items ++ listed figure) }
{
    match push_figure(figure, figures) {
        Ok(()) => Ok(session),
        Err(wanting) => {
            session.end();
            Err(wanting)
        }
    }
}

// The same of the figures alone.
fn push_figure(figure: Option<Figure>, figures: &mut Vec<Figure>) -> Result<(), AllocError>
    ensures { OnOk result (figures.new.items ≡ figures.old.items ++ listed figure) }
{
    if let Some(figure) = figure {
        figures.push(figure)?;
    }
    Ok(())
}

// Writes a summary.
fn write_summary<K: Sink>(session: Session, summary: &[u8], out: &mut K) -> Ran
    ensures written { IsWritten summary.now (K.taken out.old) (K.taken out.new) result.status }
    ensures session { result.session ≡ Some session }
    ensures write_fault { result.status ≡ Status.WriteFault → Rose (K.faults out.old) (K.faults out.new) }
    ensures later { K.faults out.old ≤ K.faults out.new }
{
    match write_all(out, summary) {
        Ok(_) => Ran::with_session(Status::Done, session),
        Err(_) => Ran::with_session(Status::WriteFault, session),
    }
}
