//! The calls of commands and of lines.

ghost use Rattle.std.specs.Prelude.{◌≡◌};
ghost use Rattle.judge_defs.specs.Form.{same_call, call_of, call_in};

use port_ledgers::PortName;
use report_lines::ReportLine;
use run_defs::{ClientCall, Command};

/// Whether both are there, and the same call of the same port.
pub(crate) fn same_call(
    a: Option<(ClientCall, PortName)>,
    b: Option<(ClientCall, PortName)>,
) -> bool
    ensures { result ≡ same_call a b }
{
    match (a, b) {
        (Some((due, at)), Some((call, port))) => {
            due == call && port.host == at.host && port.port == at.port
        }
        _ => false,
    }
}

/// The call of a command, with its port.
pub(crate) fn call_of(command: &Command) -> Option<(ClientCall, PortName)>
    ensures { result ≡ call_of command.now }
{
    match command {
        Command::Begin { host, port, .. } => Some((ClientCall::Begin, port_of(*host, *port))),
        Command::Close { host, port } => Some((ClientCall::Close, port_of(*host, *port))),
        Command::Provide { host, port, .. } => Some((ClientCall::Provide, port_of(*host, *port))),
        Command::Send { host, port, .. } => Some((ClientCall::Send, port_of(*host, *port))),
        Command::Poll { host, port } => Some((ClientCall::Poll, port_of(*host, *port))),
        Command::Tokens { host, port } => Some((ClientCall::Tokens, port_of(*host, *port))),
        _ => None,
    }
}

// A port of a host.
fn port_of(host: u16, port: u8) -> PortName
    ensures { result ≡ record { host = host; port = port } }
{
    PortName { host, port }
}

/// The call of a line, with its port.
pub(crate) fn call_in(line: &ReportLine) -> Option<(ClientCall, PortName)>
    ensures { result ≡ call_in line.now }
{
    match line {
        ReportLine::Opened(port) => Some((ClientCall::Begin, *port)),
        ReportLine::Closed { port, .. } => Some((ClientCall::Close, *port)),
        ReportLine::Provided { port, .. } => Some((ClientCall::Provide, *port)),
        ReportLine::Accepted { port, .. } => Some((ClientCall::Send, *port)),
        ReportLine::Returned { port, .. } => Some((ClientCall::Poll, *port)),
        ReportLine::Received(line) => Some((ClientCall::Poll, line.port)),
        ReportLine::NothingCame(port) => Some((ClientCall::Poll, *port)),
        ReportLine::CallRefused { call, port } => Some((*call, *port)),
        ReportLine::Tokens(line) => Some((ClientCall::Tokens, line.port)),
        _ => None,
    }
}
