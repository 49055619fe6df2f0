//! The port.

ghost use Rattle.std.specs.Prelude.{◌≡◌, ◌<◌, length, map, find, false, true, is_some, IsSome, Some, None, IfOk};
ghost use Rattle.std.specs.Prelude.{IfErr, OnErr, OnOk, MatchResult, option_map, slice_get};
ghost use Rattle.gm_defs.specs.Body.{is_head, is_last};
ghost use Rattle.gm_defs.specs.Token.{opened, HasOneOwner, AreFilling, place_of_send, place_of_recv, can_take};
ghost use Rattle.gm_defs.specs.Port.{sent_with, provided_with, send_of, finished, delivered, next_event, polled};
ghost use Rattle.gm_tokens.specs.Token.{token_at};
ghost use Rattle.gm_port.specs.Held.{send_at, receive_at, event_at};
ghost use Rattle.gm_port.specs.Opened.{place_of};
ghost use Rattle.gm_port.specs.Refusal.{send_refusal, provide_refusal, close_refusal};

use crate::ask::{CloseRefusal, ProvideRefusal, SendAsk, SendRefusal};
use crate::buffers::BufferList;
use crate::event::{PortEvent, ProvidedToken, Wreck};
use crate::events::EventQueue;
use crate::sends::SendQueue;
use gm_defs::{FrameHead, TokenPlace};
use gm_tokens::{NoMemory, RecvToken, SendToken, is_too_long};
use reg_mem::Reg;
use std::alloc::Global;
use std::marker::Model;

/// An open port, with the tokens and buffers that its client handed over.
///
/// It must be spent, by [`Port::close`] or [`Port::abandon`].
pub struct Port {
    sends: SendQueue,
    buffers: BufferList,
    events: EventQueue,
}

impl Model for Port {
    ghost use Rattle.gm_port.specs.Opened.{OpenPort, state_of, IsPort};

    ghost Value = { OpenPort };

    ghost view = { λ p. record {
      host = p.sends.host;
      port = p.sends.port;
      state = state_of p.sends p.buffers p.events;
    } };

    ghost invariant = { λ p. IsPort p.sends p.buffers p.events };
}

impl Port {
    /// Opens a port with room for all of its tokens. It mints nothing: the client mints the tokens of the opening by
    /// the same four numbers.
    pub fn begin(
        alloc: Global,
        host: u16,
        port: u8,
        sends: u16,
        recvs: u16,
    ) -> Result<Port, NoMemory>
        ensures { IfOk result (λ p. p ≡ record { host = host; port = port; state = opened sends recvs }) }
    {
        let send_queue = SendQueue::with_room(alloc, host, port, sends)?;
        let buffers = match BufferList::with_room(alloc, host, port, recvs) {
            Ok(buffers) => buffers,
            Err(error) => {
                send_queue.into_list().destroy_empty();
                return Err(error);
            }
        };
        match EventQueue::with_room(alloc, host, port, sends, recvs) {
            Ok(events) => Ok(Port {
                sends: send_queue,
                buffers,
                events,
            }),
            Err(error) => {
                send_queue.into_list().destroy_empty();
                buffers.into_list().destroy_empty();
                Err(error)
            }
        }
    }

    /// Takes a message to send: the buffer's first `len` bytes. The answer is its ticket, the number of its token. A
    /// refusal hands token and buffer back and changes nothing: TooLong above the greatest length of a message, then
    /// BufferShort where the buffer is shorter than the message.
    pub fn send(
        &mut self,
        t: SendToken,
        b: Reg,
        a: SendAsk,
    ) -> Result<usize, (SendToken, Reg, SendRefusal)>
        requires own { t ≡ token_at self.old.host self.old.port t.number }
        requires minted { t.number < self.old.state.sends }
        requires free { place_of_send self.old.state t.number ≡ None }
        requires dport { a.dport < 8 }
        requires prio { a.prio < 2 }
        ensures refused { MatchResult result (λ ticket. send_refusal a.len b ≡ None) (λ e.
            send_refusal a.len b ≡ Some e.2) }
        ensures handed_back { IfErr result (λ e. (e.0 ≡ t) × (e.1 ≡ b)) }
        ensures unchanged { OnErr result (self.new ≡ self.old) }
        ensures sent { OnOk result (self.new ≡ record self.old { state = sent_with self.old.state t.number b }) }
        ensures ticket { IfOk result (λ ticket. ticket ≡ t.number) }
        ensures one_owner { HasOneOwner self.new.state }
    {
        match refuse_send(a.len, b.bytes()) {
            Some(refusal) => Err((t, b, refusal)),
            None => Ok(self.sends.insert(t, b)),
        }
    }

    /// Takes a buffer to receive into. A refusal hands token and buffer back and changes nothing: BadSize where the
    /// size is not from 4 to 16 or the priority is above 1, then BufferShort where the buffer has fewer bytes than
    /// its size has room for.
    pub fn provide(
        &mut self,
        t: RecvToken,
        b: Reg,
        size: u8,
        prio: u8,
    ) -> Result<(), (RecvToken, Reg, ProvideRefusal)>
        requires own { t ≡ token_at self.old.host self.old.port t.number }
        requires minted { t.number < self.old.state.recvs }
        requires free { place_of_recv self.old.state t.number ≡ None }
        ensures refused { MatchResult result (λ _. provide_refusal b size prio ≡ None) (λ e.
            provide_refusal b size prio ≡ Some e.2) }
        ensures handed_back { IfErr result (λ e. (e.0 ≡ t) × (e.1 ≡ b)) }
        ensures unchanged { OnErr result (self.new ≡ self.old) }
        ensures provided { OnOk result (self.new ≡ record self.old {
          state = provided_with self.old.state
              (record { token = t.number; size = size; prio = prio; filling = None; buffer = b });
        }) }
        ensures one_owner { HasOneOwner self.new.state }
    {
        match refuse_buffer(b.bytes(), size, prio) {
            Some(refusal) => Err((t, b, refusal)),
            None => {
                self.buffers.push(ProvidedToken {
                    token: t,
                    buffer: b,
                    size,
                    prio,
                    filling: None,
                });
                Ok(())
            }
        }
    }

    /// The buffer of an unfinished send.
    pub fn sending(&self, ticket: usize) -> &[u8]
        requires { IsSome (send_of self.now.state ticket) }
        ensures { option_map (λ s. s.buffer) (send_of self.now.state ticket) ≡ Some result.now }
    {
        self.sends.buffer(ticket)
    }

    /// All of an unfinished send's message is acknowledged: its token and its buffer, unchanged, go into an event.
    pub fn finish(&mut self, ticket: usize)
        requires { IsSome (send_of self.old.state ticket) }
        ensures finished { self.new ≡ record self.old { state = finished self.old.state ticket } }
        ensures one_owner { HasOneOwner self.new.state }
    {
        let (token, buffer) = self.sends.remove(ticket);
        self.events.push(PortEvent::Sent(token, buffer));
    }

    /// Whether a provided token takes a fragment: at offset 0 where no token is filling for its host and priority and
    /// one that isn't filling fits; above it where a token is filling with its message and holds exactly what comes
    /// before.
    pub fn can_take(&self, h: &FrameHead) -> bool
        ensures { result ≡ can_take self.now.state h.now }
    {
        self.buffers.can_take(h)
    }

    /// A fragment came. A message's first goes to the token provided first of those that fit and aren't filling, a
    /// later one to the token that is filling with its message. It stands at its offset of the buffer, whose other
    /// bytes stay. With the last one token and buffer go into an event; before, the token is filling.
    pub fn deliver(&mut self, h: &FrameHead, part: &[u8])
        requires taken { can_take self.old.state h.now ≡ true }
        requires head { is_head h.now ≡ true }
        requires part { length part.now ≡ h.now.len }
        ensures delivered { self.new ≡ record self.old { state = delivered self.old.state h.now part.now } }
        ensures one_owner { HasOneOwner self.new.state }
        ensures filling { AreFilling self.new.state }
    {
        if h.is_last() {
            self.end(h, part);
        } else {
            self.buffers.fill(h, part);
        }
    }

    // The last fragment of a message came: its token goes into an event.
    fn end(&mut self, h: &FrameHead, part: &[u8])
        requires taken { can_take self.old.state h.now ≡ true }
        requires head { is_head h.now ≡ true }
        requires part { length part.now ≡ h.now.len }
        requires last { is_last h.now.total h.now.offset ≡ true }
        ensures delivered { self.new ≡ record self.old { state = delivered self.old.state h.now part.now } }
        ensures one_owner { HasOneOwner self.new.state }
        ensures filling { AreFilling self.new.state }
    {
        let ProvidedToken {
            token,
            mut buffer,
            size: _,
            prio: _,
            filling: _,
        } = self.buffers.take(h);
        buffer.fill(h.offset as usize, part);
        self.events.push(PortEvent::Received {
            token,
            buffer,
            from: h.src,
            sport: h.sport,
            prio: h.prio,
            len: h.total,
        });
    }

    /// Hands out the event that was put in first. None exactly where no event waits.
    pub fn poll(&mut self) -> Option<PortEvent>
        ensures first { result ≡ option_map (event_at self.old.host self.old.port) (next_event self.old.state) }
        ensures rest { self.new ≡ record self.old { state = polled self.old.state } }
        ensures one_owner { HasOneOwner self.new.state }
    {
        self.events.pop()
    }

    /// Closes the port, and hands each provided token back with its buffer, first provided first. A refusal hands the
    /// port back: Busy where sends aren't finished, then Unread where events wait, then Filling where provided tokens
    /// hold a part of a message.
    pub fn close(self) -> Result<Vec<(RecvToken, Reg)>, (Port, CloseRefusal)>
        ensures refused { MatchResult result (λ _. close_refusal self.state ≡ None) (λ e.
            close_refusal self.state ≡ Some e.1) }
        ensures handed_back { IfErr result (λ e. e.0 ≡ self) }
        ensures provided { IfOk result (λ v. v.items ≡ map (receive_at self.host self.port) self.state.provided) }
    {
        if let Some(refusal) = self.refuse_close() {
            return Err((self, refusal));
        }
        let Port {
            sends,
            buffers,
            events,
        } = self;
        sends.into_list().destroy_empty();
        events.into_list().destroy_empty();
        Ok(buffers.into_list())
    }

    // Why the port is not closed.
    fn refuse_close(&self) -> Option<CloseRefusal>
        ensures { result ≡ close_refusal self.now.state }
    {
        let (unfinished, unread, filling) = (
            self.sends.len(),
            self.events.len(),
            self.buffers.filling(),
        );
        if unfinished > 0 {
            Some(CloseRefusal::Busy(unfinished))
        } else if unread > 0 {
            Some(CloseRefusal::Unread(unread))
        } else if filling > 0 {
            Some(CloseRefusal::Filling(filling))
        } else {
            None
        }
    }

    /// Ends the port, whatever it holds, and hands all of it back. The buffer of a token that is filling begins with
    /// what it took, and its other bytes are as they were provided.
    pub fn abandon(self) -> Wreck
        ensures sending { result.sending.items ≡ map (send_at self.host self.port) self.state.queue }
        ensures provided { result.provided.items ≡ map (receive_at self.host self.port) self.state.provided }
        ensures events { result.events.items ≡ map (event_at self.host self.port) self.state.events }
    {
        let Port {
            sends,
            buffers,
            events,
        } = self;
        Wreck {
            sending: sends.into_list(),
            provided: buffers.into_list(),
            events: events.into_list(),
        }
    }

    /// The place of a send token or of a receive token, by its number. None where the client has it. A token that is
    /// filling is provided.
    pub fn place(&self, send: bool, number: u16) -> Option<TokenPlace>
        ensures place { result ≡ place_of self.now.state send number }
        ensures one_owner { HasOneOwner self.now.state }
        ensures filling { AreFilling self.now.state }
    {
        if send {
            self.place_of_send(number)
        } else {
            self.place_of_recv(number)
        }
    }

    fn place_of_send(&self, number: u16) -> Option<TokenPlace>
        ensures place { result ≡ place_of_send self.now.state number }
        ensures one_owner { HasOneOwner self.now.state }
        ensures filling { AreFilling self.now.state }
    {
        if self.sends.has(number) {
            Some(TokenPlace::Queue)
        } else if self.events.has_sent(number) {
            Some(TokenPlace::Event)
        } else {
            None
        }
    }

    fn place_of_recv(&self, number: u16) -> Option<TokenPlace>
        ensures place { result ≡ place_of_recv self.now.state number }
        ensures one_owner { HasOneOwner self.now.state }
        ensures filling { AreFilling self.now.state }
    {
        if self.buffers.has(number) {
            Some(TokenPlace::Provided)
        } else if self.events.has_received(number) {
            Some(TokenPlace::Event)
        } else {
            None
        }
    }
}

// Why a send of so many bytes of a buffer is refused.
fn refuse_send(len: u32, buffer: &[u8]) -> Option<SendRefusal>
    ensures { result ≡ send_refusal len buffer.now }
{
    if is_too_long(len) {
        Some(SendRefusal::TooLong)
    } else if buffer.len() < len as usize {
        Some(SendRefusal::BufferShort)
    } else {
        None
    }
}

// Why a buffer is not provided.
fn refuse_buffer(buffer: &[u8], size: u8, prio: u8) -> Option<ProvideRefusal>
    ensures { result ≡ provide_refusal buffer.now size prio }
{
    if size < 4 || size > 16 || prio > 1 {
        Some(ProvideRefusal::BadSize)
    } else if buffer.len() < (1usize << size).saturating_sub(8) {
        Some(ProvideRefusal::BufferShort)
    } else {
        None
    }
}
