//! One end: made, ended and read.

ghost use Rattle.std.specs.Prelude.{◌≡◌, ◌<◌, [], reverse, IfSome, IfOk};
ghost use Rattle.std.specs.Option.{IfNone};
ghost use Rattle.duo_defs.specs.Duo.{tokens_each, beginning, other, sent_in, got_in, period_in, new_period};
ghost use Rattle.duo_defs.specs.Emitting.{sends_on};
ghost use Rattle.gm_conn.specs.Lane.{unused};
ghost use Rattle.port_client.specs.Serving.{newly_served};

use crate::period::{Back, Past};
use gm_conn::Lane;
use gm_defs::Message;
use gm_tokens::NoMemory;
use port_client::ClientPort;
use std::alloc::Global;
use std::collections::VecDeque;
use std::marker::Model;

// How many tokens of each kind the port of an end has.
const TOKENS: u16 = 4;

/// One of the two ends, with its client. It must be spent, by [`End::end`].
pub(crate) struct End {
    pub(crate) host: u16,
    pub(crate) inc: u32,
    pub(crate) known: u32,
    pub(crate) lane: Lane,
    pub(crate) past: Vec<Past>,
    pub(crate) owes_hello: bool,
    pub(crate) returned: VecDeque<Back>,
    pub(crate) held: ClientPort,
}

impl Model for End {
    ghost use Rattle.gm_restart.specs.End.{HostEnd, end_of, IsOneEnd};

    ghost Value = { HostEnd };

    ghost view = { λ e. end_of e.host e.inc e.known e.lane e.past.items e.owes_hello e.returned.items e.held };

    ghost invariant = { λ e. IsOneEnd e.host e.lane e.held };
}

/// The number of the other end.
pub(crate) fn other(host: u16) -> u16
    requires { host < 2 }
    ensures { result ≡ other host }
{
    if host == 0 { 1 } else { 0 }
}

/// The port of an end as an incarnation begins: its client has all tokens.
pub(crate) fn new_port(alloc: Global, host: u16) -> Result<ClientPort, NoMemory>
    ensures { IfOk result (λ p. p ≡ newly_served host 0 tokens_each tokens_each) }
{
    ClientPort::open(alloc, host, 0, TOKENS, TOKENS)
}

/// The lane of an end as a period begins. Takes no memory.
pub(crate) fn new_lane(host: u16) -> Lane
    requires { host < 2 }
    ensures { result ≡ unused (sends_on host) }
{
    Lane::new(host, other(host), 0)
}

impl End {
    /// The end of a number, as an incarnation begins.
    pub(crate) fn new(alloc: Global, host: u16, inc: u32) -> Result<End, NoMemory>
        requires { host < 2 }
        ensures { IfOk result (λ e. e ≡ record { host = host; state = beginning inc [] }) }
    {
        let held = new_port(alloc, host)?;
        Ok(End {
            host,
            inc,
            known: 0,
            lane: new_lane(host),
            past: Vec::new(alloc),
            owes_hello: false,
            returned: VecDeque::new(alloc),
            held,
        })
    }

    /// Spends it: each of its tokens is retired once. Takes no memory.
    pub(crate) fn end(self, alloc: Global) {
        let End {
            host: _,
            inc: _,
            known: _,
            lane: _,
            past: _,
            owes_hello: _,
            returned: _,
            held,
        } = self;
        held.end(alloc);
    }

    /// Its incarnation.
    pub(crate) fn incarnation(&self) -> u32
        ensures { result ≡ self.now.state.present.inc }
    {
        self.inc
    }

    /// The messages that it accepted as one incarnation for one of its peer, in order.
    pub(crate) fn sent(&self, inc: u32, known: u32) -> &[Message]
        ensures { result.now ≡ sent_in self.now.state inc known }
    {
        if self.inc == inc && self.known == known {
            return self.lane.sent();
        }
        match past_of(&self.past, inc, known) {
            Some(past) => past.lane.sent(),
            None => &[],
        }
    }

    /// The messages that it put into its queue as one incarnation from one of its peer, in order.
    pub(crate) fn got(&self, inc: u32, known: u32) -> &[Message]
        ensures { result.now ≡ got_in self.now.state inc known }
    {
        if self.inc == inc && self.known == known {
            return self.lane.got();
        }
        match past_of(&self.past, inc, known) {
            Some(past) => past.lane.got(),
            None => &[],
        }
    }
}

// The period of these incarnations among those that are over, the latest last. None where there is none.
fn past_of(past: &[Past], inc: u32, known: u32) -> Option<&Past>
    ensures found { IfSome result (λ p. period_in (reverse past.now) inc known ≡ p.now) }
    ensures absent { IfNone result (period_in (reverse past.now) inc known ≡ new_period inc known) }
{
    let mut at = past.len();
    while at > 0 {
        at -= 1;
        if past[at].is_of(inc, known) {
            return Some(&past[at]);
        }
    }
    None
}
