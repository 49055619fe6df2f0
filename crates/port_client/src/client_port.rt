//! A port with its client.

ghost use Rattle.std.specs.Prelude.{◌≡◌, ◌<◌, length, slice_get, is_some, option_map, true, None, Some, IfOk, IsSome};
ghost use Rattle.gm_defs.specs.Body.{is_head};
ghost use Rattle.gm_defs.specs.Token.{can_take};
ghost use Rattle.gm_defs.specs.Port.{sent_with, provided_with, send_of, finished, delivered, next_event, polled};
ghost use Rattle.gm_port.specs.Refusal.{send_refusal, provide_refusal};
ghost use Rattle.port_client.specs.Back.{IsWhole, event_said};
ghost use Rattle.port_client.specs.Serving.{newly_served, in_state, send_used, recv_used, handed_back};

use crate::client::Client;
use crate::returning::{end_wreck, retire, take_back};
use gm_defs::FrameHead;
use gm_port::{Port, SendAsk};
use gm_tokens::NoMemory;
use reg_mem::Reg;
use std::alloc::Global;
use std::marker::Model;
use world_defs::Said;

/// An open port, and the client that holds the tokens which the port doesn't.
///
/// It must be spent, by [`ClientPort::end`].
pub struct ClientPort {
    port: Port,
    client: Client,
}

impl Model for ClientPort {
    ghost use Rattle.port_client.specs.Serving.{ServedPort, served, IsClientOf};

    ghost Value = { ServedPort };

    ghost view = { λ p. served p.port p.client };

    ghost invariant = { λ p. IsClientOf p.port p.client };
}

impl ClientPort {
    /// Opens a port with so many tokens of each kind, all of which its client holds.
    pub fn open(
        alloc: Global,
        host: u16,
        port: u8,
        sends: u16,
        recvs: u16,
    ) -> Result<ClientPort, NoMemory>
        ensures { IfOk result (λ p. p ≡ newly_served host port sends recvs) }
    {
        let client = Client::open(alloc, host, port, sends, recvs)?;
        match Port::begin(alloc, host, port, sends, recvs) {
            Ok(port) => Ok(ClientPort { port, client }),
            Err(error) => {
                retire(alloc, client);
                Err(error)
            }
        }
    }

    /// The number of the send token that the client has held longest. None exactly where it holds none.
    pub fn first_send(&self) -> Option<u16>
        ensures { result ≡ slice_get self.now.held.sends 0 }
    {
        self.client.first_send()
    }

    /// Whether the client holds a receive token.
    pub fn has_recv(&self) -> bool
        ensures { result ≡ is_some (slice_get self.now.held.recvs 0) }
    {
        self.client.has_recv()
    }

    /// The client sends the message of a buffer with the send token that it has held longest, whose number is the
    /// answer. Takes no memory.
    pub fn send(&mut self, b: Reg, a: SendAsk) -> u16
        requires held { IsSome (slice_get self.old.held.sends 0) }
        requires right { send_refusal a.len b ≡ None }
        requires dport { a.dport < 8 }
        requires prio { a.prio < 2 }
        ensures first { slice_get self.old.held.sends 0 ≡ Some result }
        ensures port { self.new.state ≡ sent_with self.old.state result b }
        ensures client { self.new.held ≡ send_used self.old.held }
        ensures same { (self.new.host ≡ self.old.host) × (self.new.port ≡ self.old.port) }
    {
        match self.client.take_send() {
            Some(token) => {
                let number = token.number();
                match self.port.send(token, b, a) {
                    Ok(_ticket) => number,
                    Err(_) => unreachable!(),
                }
            }
            None => unreachable!(),
        }
    }

    /// The client provides a buffer with the receive token that it has held longest, whose number is the answer. Takes
    /// no memory.
    pub fn provide(&mut self, b: Reg, size: u8, prio: u8) -> u16
        requires held { is_some (slice_get self.old.held.recvs 0) ≡ true }
        requires right { provide_refusal b size prio ≡ None }
        ensures first { slice_get self.old.held.recvs 0 ≡ Some result }
        ensures port { self.new.state ≡ provided_with self.old.state
            (record { token = result; size = size; prio = prio; filling = None; buffer = b }) }
        ensures client { self.new.held ≡ recv_used self.old.held }
        ensures same { (self.new.host ≡ self.old.host) × (self.new.port ≡ self.old.port) }
    {
        match self.client.take_recv() {
            Some(token) => {
                let number = token.number();
                match self.port.provide(token, b, size, prio) {
                    Ok(()) => number,
                    Err(_) => unreachable!(),
                }
            }
            None => unreachable!(),
        }
    }

    /// All of an unfinished send's message is acknowledged, or never will be: its token and its buffer go into an
    /// event.
    pub fn finish(&mut self, token: u16)
        requires { IsSome (send_of self.old.state token) }
        ensures { self.new ≡ in_state self.old (finished self.old.state token) }
    {
        self.port.finish(usize::from(token));
    }

    /// Whether a provided token takes a fragment.
    pub fn can_take(&self, h: &FrameHead) -> bool
        ensures { result ≡ can_take self.now.state h.now }
    {
        self.port.can_take(h)
    }

    /// A fragment came that a provided token takes.
    pub fn deliver(&mut self, h: &FrameHead, part: &[u8])
        requires taken { can_take self.old.state h.now ≡ true }
        requires head { is_head h.now ≡ true }
        requires part { length part.now ≡ h.now.len }
        ensures { self.new ≡ in_state self.old (delivered self.old.state h.now part.now) }
    {
        self.port.deliver(h, part);
    }

    /// The client takes the first event of the port's queue, and is told what it was. None exactly where no event
    /// waits. Takes no memory.
    pub fn poll(&mut self) -> Option<Said>
        ensures said { result ≡ option_map event_said (next_event self.old.state) }
        ensures port { self.new.state ≡ polled self.old.state }
        ensures client { self.new.held ≡ handed_back self.old.held (next_event self.old.state) }
        ensures same { (self.new.host ≡ self.old.host) × (self.new.port ≡ self.old.port) }
    {
        match self.port.poll() {
            Some(event) => Some(take_back(&mut self.client, event)),
            None => None,
        }
    }

    /// Ends it, whatever the port holds: each token is retired once, and each buffer let go. Takes no memory.
    pub fn end(self, alloc: Global) {
        let ClientPort { port, client } = self;
        end_wreck(alloc, client, port.abandon());
    }
}
