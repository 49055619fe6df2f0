//! The ports of a host.

ghost use Rattle.std.specs.Prelude.{◌≡◌, ◌<◌, map, length, true, is_some, None, Some, IfOk, IfErr, IfNone, IfSome};
ghost use Rattle.std.specs.Prelude.{OnOk, OnErr, OnSome, MatchResult, MatchOption, option_map, IsSome};
ghost use Rattle.std.specs.Option.{ForSome};
ghost use Rattle.net_defs.specs.Refusal.{Refuses};
ghost use Rattle.gm_defs.specs.Body.{is_head};
ghost use Rattle.gm_defs.specs.Token.{opened, place_of_send, place_of_recv};
ghost use Rattle.gm_defs.specs.Port.{sent_with, provided_with, send_of, finished, delivered, next_event, polled};
ghost use Rattle.gm_tokens.specs.Token.{token_at};
ghost use Rattle.gm_port.specs.Held.{send_at, receive_at, event_at};
ghost use Rattle.world_defs.specs.Hearing.{port_takes};
ghost use Rattle.host_ports.specs.Held.{none_open, open_at, with_open, changed, place_at, unfinished_at, port_in};
ghost use Rattle.host_ports.specs.Refusal.{begin_bar, send_bar, provide_bar, provide_word, close_bar};

use crate::ask::{NodeBegin, NodeClose, NodeProvide, NotOpen, PortSend};
use crate::slot;
use gm_defs::{FrameHead, TokenPlace};
use gm_port::{Port, PortEvent, ProvideRefusal, SendAsk, Wreck};
use gm_tokens::{RecvToken, SendToken, is_too_long};
use reg_mem::Reg;
use std::alloc::{AllocError, Global};
use std::marker::Model;

// How many ports a host has.
const PORTS: usize = 8;

/// The eight ports of a host, each where it is open.
///
/// They must be spent, by [`Ports::end`] once all are closed.
pub struct Ports {
    host: u16,
    ports: Vec<Option<Port>>,
}

impl Model for Ports {
    ghost use Rattle.host_ports.specs.Held.{HostPorts, IsHostPorts, states};

    ghost Value = { HostPorts };

    ghost view = { λ p. record { host = p.host; ports = states p.ports.items } };

    ghost invariant = { λ p. IsHostPorts p.host p.ports.items };
}

impl Ports {
    /// The ports of a host, all of them closed.
    pub fn new(alloc: Global, host: u16) -> Result<Ports, AllocError>
        ensures { IfOk result (λ p. p ≡ none_open host) }
    {
        let mut ports = Vec::with_capacity(alloc, PORTS)?;
        for _ in 0..PORTS {
            ports.push_reserved(None);
        }
        Ok(Ports { host, ports })
    }

    /// Opens a port with room for all of its tokens. A refusal changes nothing: Already exactly where the port is open.
    pub fn begin(
        &mut self,
        alloc: Global,
        port: u8,
        sends: u16,
        recvs: u16,
    ) -> Result<(), NodeBegin>
        requires { port < 8 }
        ensures refused { Refuses (begin_bar (open_at self.old port)) NodeBegin.NoMemory result }
        ensures begun { OnOk result (self.new ≡ with_open self.old port (Some (opened sends recvs))) }
        ensures unchanged { OnErr result (self.new ≡ self.old) }
    {
        let place = usize::from(port);
        if self.ports[place].is_some() {
            return Err(NodeBegin::Already);
        }
        match Port::begin(alloc, self.host, port, sends, recvs) {
            Ok(opened) => {
                slot::put_back(&mut self.ports[place], opened);
                Ok(())
            }
            Err(_) => Err(NodeBegin::NoMemory),
        }
    }

    /// The message of a token is acknowledged: token and buffer go into an event. Nothing changes where there is no
    /// such port, it isn't open, or the token has no unfinished send.
    pub fn finish(&mut self, port: u8, token: u16)
        ensures { self.new ≡ changed self.old port (λ s. finished s token) }
    {
        let place = usize::from(port);
        let _ = &self.host;
        if place >= PORTS {
            return;
        }
        if let Some(open) = &mut self.ports[place] {
            finish_open(open, token);
        }
    }

    /// Whether the fragment's port is open and takes it: it is the first of a message that a token fits, or goes on
    /// where the token that is filling for its host and priority stands.
    pub fn can_take(&self, h: &FrameHead) -> bool
        requires { h.now.dport < 8 }
        ensures { result ≡ port_takes (open_at self.now h.now.dport) h.now }
    {
        match self.at(h.dport) {
            Some(open) => open.can_take(h),
            None => false,
        }
    }

    /// Why a send of so many bytes of a buffer is refused: NotOpen, TooLong above the greatest length of a message,
    /// BufferShort where the buffer is shorter than the message.
    pub fn refuse_send(&self, port: u8, len: u32, buffer: &[u8]) -> Option<PortSend>
        requires { port < 8 }
        ensures { result ≡ send_bar (open_at self.now port) len buffer.now }
    {
        if self.at(port).is_none() {
            Some(PortSend::NotOpen)
        } else if is_too_long(len) {
            Some(PortSend::TooLong)
        } else if buffer.len() < len as usize {
            Some(PortSend::BufferShort)
        } else {
            None
        }
    }

    /// Takes a message to send, which is not refused.
    pub fn send(&mut self, port: u8, t: SendToken, b: Reg, a: SendAsk)
        requires able { send_bar (open_at self.old port) a.len b ≡ None }
        requires port { port < 8 }
        requires own { t ≡ token_at self.old.host port t.number }
        requires minted { ForSome (open_at self.old port) (λ p. t.number < p.sends) }
        requires free { ForSome (open_at self.old port) (λ p. place_of_send p t.number ≡ None) }
        requires dport { a.dport < 8 }
        requires prio { a.prio < 2 }
        ensures { self.new ≡ changed self.old port (λ s. sent_with s t.number b) }
    {
        match &mut self.ports[usize::from(port)] {
            Some(open) => match open.send(t, b, a) {
                Ok(_ticket) => {}
                Err(_) => unreachable!(),
            },
            None => unreachable!(),
        }
    }

    /// Takes a buffer to receive into. A refusal hands token and buffer back and changes nothing: NotOpen, BadSize
    /// where the size is not from 4 to 16 or the priority is above 1, BufferShort where the buffer has fewer bytes
    /// than its size has room for.
    pub fn provide(
        &mut self,
        port: u8,
        t: RecvToken,
        b: Reg,
        size: u8,
        prio: u8,
    ) -> Result<(), (RecvToken, Reg, NodeProvide)>
        requires port { port < 8 }
        requires own { t ≡ token_at self.old.host port t.number }
        requires minted { ForSome (open_at self.old port) (λ p. t.number < p.recvs) }
        requires free { ForSome (open_at self.old port) (λ p. place_of_recv p t.number ≡ None) }
        ensures refused { MatchResult result (λ _. provide_bar (open_at self.old port) b size prio ≡ None) (λ e.
            provide_bar (open_at self.old port) b size prio ≡ Some e.2) }
        ensures handed_back { IfErr result (λ e. (e.0 ≡ t) × (e.1 ≡ b)) }
        ensures unchanged { OnErr result (self.new ≡ self.old) }
        ensures provided { OnOk result (self.new ≡ changed self.old port (λ s.
            provided_with s (record { token = t.number; size = size; prio = prio; filling = None; buffer = b }))) }
    {
        match &mut self.ports[usize::from(port)] {
            Some(open) => match open.provide(t, b, size, prio) {
                Ok(()) => Ok(()),
                Err((t, b, refusal)) => Err((t, b, not_provided(refusal))),
            },
            None => Err((t, b, NodeProvide::NotOpen)),
        }
    }

    /// A fragment came, and goes into a buffer at its offset: of a token that fits its message and was provided first,
    /// or of the one that is filling. The last one makes an event.
    pub fn deliver(&mut self, h: &FrameHead, part: &[u8])
        requires port { h.now.dport < 8 }
        requires taken { port_takes (open_at self.old h.now.dport) h.now ≡ true }
        requires head { is_head h.now ≡ true }
        requires part { length part.now ≡ h.now.len }
        ensures { self.new ≡ changed self.old h.now.dport (λ s. delivered s h.now part.now) }
    {
        match &mut self.ports[usize::from(h.dport)] {
            Some(open) => open.deliver(h, part),
            None => unreachable!(),
        }
    }

    /// The bytes of the buffer of an unfinished send, by its port and the number of its token.
    pub fn sending(&self, port: u8, token: u16) -> &[u8]
        requires port { port < 8 }
        requires unfinished { IsSome (unfinished_at self.now port token) }
        ensures { option_map (λ s. s.buffer) (unfinished_at self.now port token) ≡ Some result.now }
    {
        match self.at(port) {
            Some(open) => open.sending(usize::from(token)),
            None => unreachable!(),
        }
    }

    /// Hands out the event that was put in first. None exactly where no event waits, NotOpen exactly where the port
    /// isn't open.
    pub fn poll(&mut self, port: u8) -> Result<Option<PortEvent>, NotOpen>
        requires { port < 8 }
        ensures open { MatchResult result (λ _. is_some (open_at self.old port) ≡ true) (λ _.
            open_at self.old port ≡ None) }
        ensures first { IfOk result (λ e. IfSome (open_at self.old port) (λ p.
            e ≡ option_map (event_at self.old.host port) (next_event p))) }
        ensures rest { self.new ≡ changed self.old port (λ s. polled s) }
    {
        match &mut self.ports[usize::from(port)] {
            Some(open) => Ok(open.poll()),
            None => Err(NotOpen),
        }
    }

    /// Closes a port, and hands each provided token back with its buffer, first provided first. A refusal changes
    /// nothing: NotOpen, Busy where sends aren't finished, Unread where events wait, Filling where tokens are filling.
    pub fn close(&mut self, port: u8) -> Result<Vec<(RecvToken, Reg)>, NodeClose>
        requires { port < 8 }
        ensures refused { MatchResult result (λ _. close_bar (open_at self.old port) ≡ None) (λ e.
            close_bar (open_at self.old port) ≡ Some e) }
        ensures unchanged { OnErr result (self.new ≡ self.old) }
        ensures closed { OnOk result (self.new ≡ with_open self.old port None) }
        ensures provided { IfOk result (λ v. IfSome (open_at self.old port) (λ p.
            v.items ≡ map (receive_at self.old.host port) p.provided)) }
    {
        slot::close(&mut self.ports[usize::from(port)])
    }

    /// Ends a port, whatever it holds, and hands all of it back. None exactly where the port isn't open.
    pub fn abandon(&mut self, port: u8) -> Option<Wreck>
        requires { port < 8 }
        ensures open { is_some result ≡ is_some (open_at self.old port) }
        ensures sending { IfSome result (λ w. IfSome (open_at self.old port) (λ p.
            w.sending.items ≡ map (send_at self.old.host port) p.queue)) }
        ensures provided { IfSome result (λ w. IfSome (open_at self.old port) (λ p.
            w.provided.items ≡ map (receive_at self.old.host port) p.provided)) }
        ensures events { IfSome result (λ w. IfSome (open_at self.old port) (λ p.
            w.events.items ≡ map (event_at self.old.host port) p.events)) }
        ensures ended { self.new ≡ with_open self.old port None }
    {
        match self.ports[usize::from(port)].take() {
            Some(open) => Some(open.abandon()),
            None => None,
        }
    }

    /// The place of a send token or of a receive token of a port, by its number. None where the client has it, or the
    /// port isn't open.
    pub fn place(&self, port: u8, send: bool, number: u16) -> Option<TokenPlace>
        requires { port < 8 }
        ensures { result ≡ place_at (open_at self.now port) send number }
    {
        match self.at(port) {
            Some(open) => open.place(send, number),
            None => None,
        }
    }

    // A port, where it is open.
    fn at(&self, port: u8) -> Option<&Port>
        requires { port < 8 }
        ensures open { IfSome result (λ p. open_at self.now port ≡ Some p.now.state) }
        ensures closed { IfNone result (open_at self.now port ≡ None) }
    {
        match &self.ports[usize::from(port)] {
            Some(open) => Some(open),
            None => None,
        }
    }

    /// Spends the ports of a host, all of which are closed.
    pub fn end(self)
        requires { self ≡ none_open self.host }
    {
        let Ports { host: _, mut ports } = self;
        while let Some(port) = ports.pop() {
            if let Some(_open) = port {
                unreachable!();
            }
        }
        ports.destroy_empty();
    }
}

// The message of a token is acknowledged. Nothing changes where the token has no unfinished send.
fn finish_open(port: &mut Port, token: u16)
    ensures { port.new ≡ port_in port.old (finished port.old.state token) }
{
    if is_unfinished(port, token) {
        port.finish(usize::from(token));
    }
}

// Whether a token has an unfinished send.
fn is_unfinished(port: &Port, number: u16) -> bool
    ensures { result ≡ is_some (send_of port.now.state number) }
{
    port.place(true, number) == Some(TokenPlace::Queue)
}

// Why an open port takes no buffer, as the host says it.
fn not_provided(refusal: ProvideRefusal) -> NodeProvide
    ensures { result ≡ provide_word refusal }
{
    match refusal {
        ProvideRefusal::BadSize => NodeProvide::BadSize,
        ProvideRefusal::BufferShort => NodeProvide::BufferShort,
    }
}
