//! What is judged of the line of an answer, as far as it tells of messages and tokens.

ghost use Rattle.std.specs.Prelude.{◌≡◌, true, List, IfOk, OnErr};
ghost use Rattle.answer_defs.specs.Answer.{Answered, Alone, answered, message_of, tokens_of};
ghost use Rattle.fab_judge.specs.Ledgers.{AreLedgersOf, JudgesLine, IsRightLine, may_take_memory};

use crate::ledgers::Ledgers;
use answer_defs::Why;
use port_ledgers::{Lane, PortName, SentMessage};
use report_lines::ReportLine;
use run_defs::Command;
use std::alloc::AllocError;

/// What fails in a line that answers a command, by the answers before: its message, or else its token. Where nothing
/// does, the ledgers are told of it. A line of no message and no token is right.
pub fn judge_line(
    ledgers: &mut Ledgers,
    command: &Command,
    line: &ReportLine,
) -> Result<Option<Why>, AllocError>
    ensures judges { IfOk result (λ why. (before : List Answered) → AreLedgersOf before ledgers.old
        → JudgesLine before (answered command.now (Alone line.now)) why ledgers.new) }
    // Memory may run out only in a line that is right, and after which a ledger may grow.
    ensures memory { OnErr result ((before : List Answered) → AreLedgersOf before ledgers.old
        → IsRightLine before (answered command.now (Alone line.now))) }
    ensures grows { OnErr result (may_take_memory line.now ≡ true) }
{
    match line {
        ReportLine::Opened(port) => judge_opened(ledgers, command, *port),
        ReportLine::Closed { port, count } => Ok(ledgers.close(*port, *count)),
        ReportLine::Provided { port, token } => Ok(ledgers.provide(*port, *token)),
        ReportLine::Accepted { port, token } => judge_accepted(ledgers, command, *port, *token),
        ReportLine::Returned { port, token } => ledgers.give_back(*port, *token),
        ReportLine::Received(received) => ledgers.receive(received),
        ReportLine::Tokens(tokens) => Ok(ledgers.place(tokens)),
        _ => Ok(None),
    }
}

// The same of a port that was opened, as its command has it.
fn judge_opened(
    ledgers: &mut Ledgers,
    command: &Command,
    port: PortName,
) -> Result<Option<Why>, AllocError>
    ensures judges { IfOk result (λ why. (before : List Answered) → AreLedgersOf before ledgers.old
        → JudgesLine before (answered command.now (Alone (ReportLine.Opened port))) why ledgers.new) }
    ensures memory { OnErr result ((before : List Answered) → AreLedgersOf before ledgers.old
        → IsRightLine before (answered command.now (Alone (ReportLine.Opened port)))) }
{
    match tokens_of(command) {
        Some((sends, recvs)) => {
            ledgers.open(port, sends, recvs)?;
            Ok(None)
        }
        None => Ok(None),
    }
}

// How many tokens of each kind a command asks for that opens a port.
fn tokens_of(command: &Command) -> Option<(u16, u16)>
    ensures { result ≡ tokens_of command.now }
{
    match command {
        Command::Begin { sends, recvs, .. } => Some((*sends, *recvs)),
        _ => None,
    }
}

// The same of a message that was accepted, as its command has it.
fn judge_accepted(
    ledgers: &mut Ledgers,
    command: &Command,
    port: PortName,
    token: u64,
) -> Result<Option<Why>, AllocError>
    ensures judges { IfOk result (λ why. (before : List Answered) → AreLedgersOf before ledgers.old
        → JudgesLine before (answered command.now (Alone (ReportLine.Accepted port token))) why ledgers.new) }
    ensures memory { OnErr result ((before : List Answered) → AreLedgersOf before ledgers.old
        → IsRightLine before (answered command.now (Alone (ReportLine.Accepted port token)))) }
{
    match message_of(command, port) {
        Some((lane, message)) => ledgers.accept(lane, message, token),
        None => Ok(None),
    }
}

// The message of a command that sends one from this port, with its lane.
fn message_of(command: &Command, port: PortName) -> Option<(Lane, SentMessage)>
    ensures { result ≡ message_of command.now port }
{
    match command {
        Command::Send {
            dest,
            dport,
            prio,
            len,
            seed,
            ..
        } => {
            let lane = Lane {
                from: port.host,
                to: *dest,
                port: *dport,
                prio: *prio,
            };
            let message = SentMessage {
                sport: port.port,
                len: *len,
                seed: *seed,
            };
            Some((lane, message))
        }
        _ => None,
    }
}
