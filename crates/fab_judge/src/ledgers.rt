//! The messages that wait and the tokens that are held, as the answers so far tell them.

ghost use Rattle.std.specs.Prelude.{◌≡◌, ◌↔◌, true, List, [], length, Some, None, IfOk, OnOk, OnErr};
ghost use Rattle.run_defs.specs.declared.command.Command.{Command};
ghost use Rattle.answer_defs.specs.Answer.{Answered, Alone, answered, message_of, tokens_of};
ghost use Rattle.fab_judge.specs.Ledgers.{AreLedgersOf, JudgesLine, IsRightLine, token_unless};

use answer_defs::Why;
use port_ledgers::{Lane, MessageLedger, PortName, SentMessage, TokenLedger};
use report_lines::{ReceivedLine, ReportLine, TokensLine};
use std::alloc::{AllocError, Global};
use std::marker::Model;

/// For each lane the messages that were sent and not received, and for each port the tokens that its client holds.
#[derive(Drop)]
pub struct Ledgers {
    messages: MessageLedger,
    tokens: TokenLedger,
}

impl Model for Ledgers {
    ghost use Rattle.fab_judge.specs.Ledgers.{LedgersState};

    ghost Value = { LedgersState };

    ghost view = { λ l. record { messages = l.messages; tokens = l.tokens } };
}

impl Ledgers {
    /// Before any answer. It takes no memory.
    pub fn new(alloc: Global) -> Ledgers
        ensures { AreLedgersOf [] result }
    {
        Ledgers {
            messages: MessageLedger::new(alloc),
            tokens: TokenLedger::new(alloc),
        }
    }

    /// A port was opened with so many tokens.
    pub(crate) fn open(&mut self, port: PortName, sends: u16, recvs: u16) -> Result<(), AllocError>
        ensures told { OnOk result ((before : List Answered) (c : Command) → AreLedgersOf before self.old
            → tokens_of c ≡ Some (sends, recvs)
            → JudgesLine before (answered c (Alone (ReportLine.Opened port))) None self.new) }
        ensures memory { OnErr result ((before : List Answered) (c : Command) → AreLedgersOf before self.old
            → tokens_of c ≡ Some (sends, recvs)
            → IsRightLine before (answered c (Alone (ReportLine.Opened port)))) }
    {
        self.tokens.open(port, sends, recvs)
    }

    /// A port was closed, and so many receive tokens came back.
    pub(crate) fn close(&mut self, port: PortName, count: u64) -> Option<Why>
        ensures { (before : List Answered) (c : Command) → AreLedgersOf before self.old
            → JudgesLine before (answered c (Alone (ReportLine.Closed port count))) result self.new }
    {
        token_unless(self.tokens.close(port, count))
    }

    /// A receive token was provided.
    pub(crate) fn provide(&mut self, port: PortName, token: u64) -> Option<Why>
        ensures { (before : List Answered) (c : Command) → AreLedgersOf before self.old
            → JudgesLine before (answered c (Alone (ReportLine.Provided port token))) result self.new }
    {
        token_unless(self.tokens.provide(port, token))
    }

    /// A message was accepted with a send token.
    pub(crate) fn accept(
        &mut self,
        lane: Lane,
        message: SentMessage,
        token: u64,
    ) -> Result<Option<Why>, AllocError>
        ensures judges { IfOk result (λ why. (before : List Answered) (c : Command) (a : PortName)
            → AreLedgersOf before self.old → message_of c a ≡ Some (lane, message)
            → JudgesLine before (answered c (Alone (ReportLine.Accepted a token))) why self.new) }
        ensures memory { OnErr result ((before : List Answered) (c : Command) (a : PortName)
            → AreLedgersOf before self.old → message_of c a ≡ Some (lane, message)
            → IsRightLine before (answered c (Alone (ReportLine.Accepted a token)))) }
    {
        if self.tokens.send(lane, message, token) {
            self.messages.send(lane, message)?;
            Ok(None)
        } else {
            Ok(Some(Why::Token))
        }
    }

    /// A send token came back.
    pub(crate) fn give_back(
        &mut self,
        port: PortName,
        token: u64,
    ) -> Result<Option<Why>, AllocError>
        ensures judges { IfOk result (λ why. (before : List Answered) (c : Command) → AreLedgersOf before self.old
            → JudgesLine before (answered c (Alone (ReportLine.Returned port token))) why self.new) }
        ensures memory { OnErr result ((before : List Answered) (c : Command) → AreLedgersOf before self.old
            → IsRightLine before (answered c (Alone (ReportLine.Returned port token)))) }
    {
        let is_right = self.tokens.give_back(port, token)?;
        Ok(token_unless(is_right))
    }

    /// A message was received.
    pub(crate) fn receive(&mut self, line: &ReceivedLine) -> Result<Option<Why>, AllocError>
        ensures judges { IfOk result (λ why. (before : List Answered) (c : Command) → AreLedgersOf before self.old
            → JudgesLine before (answered c (Alone (ReportLine.Received line.now))) why self.new) }
        ensures memory { OnErr result ((before : List Answered) (c : Command) → AreLedgersOf before self.old
            → IsRightLine before (answered c (Alone (ReportLine.Received line.now)))) }
    {
        if gives_length(line) {
            self.receive_next(line)
        } else {
            Ok(Some(Why::Message))
        }
    }

    // The same where the line gives the number of its bytes.
    fn receive_next(&mut self, line: &ReceivedLine) -> Result<Option<Why>, AllocError>
        requires { line.now.len ≡ length line.now.body }
        ensures judges { IfOk result (λ why. (before : List Answered) (c : Command) → AreLedgersOf before self.old
            → JudgesLine before (answered c (Alone (ReportLine.Received line.now))) why self.new) }
        ensures memory { OnErr result ((before : List Answered) (c : Command) → AreLedgersOf before self.old
            → IsRightLine before (answered c (Alone (ReportLine.Received line.now)))) }
    {
        let lane = lane_of(line);
        if self.messages.receive(lane, line.sport, line.body.bytes()) {
            let is_right = self.tokens.receive(lane, line.token)?;
            Ok(token_unless(is_right))
        } else {
            Ok(Some(Why::Message))
        }
    }

    /// A line says where each token of a port is.
    pub(crate) fn place(&self, line: &TokensLine) -> Option<Why>
        ensures { (before : List Answered) (c : Command) → AreLedgersOf before self.now
            → JudgesLine before (answered c (Alone (ReportLine.Tokens line.now))) result self.now }
    {
        token_unless(
            self.tokens
                .are_placed(line.port, line.sends.list(), line.recvs.list()),
        )
    }
}

// What fails where a token isn't right.
fn token_unless(is_right: bool) -> Option<Why>
    ensures { result ≡ token_unless is_right }
{
    if is_right { None } else { Some(Why::Token) }
}

// Whether a received line gives the number of its bytes.
fn gives_length(line: &ReceivedLine) -> bool
    ensures { (result ≡ true) ↔ (line.now.len ≡ length line.now.body) }
{
    line.len == line.body.bytes().len() as u64
}

// The lane of a received message.
fn lane_of(line: &ReceivedLine) -> Lane
    ensures { result ≡ record {
      from = line.now.from;
      to = line.now.port.host;
      port = line.now.port.port;
      prio = line.now.prio;
    } }
{
    Lane {
        from: line.from,
        to: line.port.host,
        port: line.port.port,
        prio: line.prio,
    }
}
