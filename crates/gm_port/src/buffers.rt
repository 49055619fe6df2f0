//! The provided tokens of a port, with their buffers.

ghost use Rattle.std.specs.Prelude.{◌≡◌, ◌<◌, ◌≤◌, ◌+◌, ◌++◌, ◌∷◌, [], length, map, find, position, nat_eq, is_some};
ghost use Rattle.std.specs.Prelude.{◌&&◌, Some, IsSome, IfSome, IfOk, option_map, vec_capacity};
ghost use Rattle.std.specs.List.{list_any, filter, count_by};
ghost use Rattle.gm_defs.specs.Token.{has_number, is_from, is_filling_for, is_free_for, takes, holds_before};
ghost use Rattle.gm_defs.specs.Port.{without_first, filling_with};
ghost use Rattle.gm_port.specs.Held.{provided_at, provided_at_token, provided_of, receive_at};
ghost use Rattle.gm_port.specs.Lists.{IsFillingOnlyIf, taking, taking_here, filled_in};

use crate::event::ProvidedToken;
use crate::tally::Tally;
use gm_defs::{Filling, FrameHead};
use gm_tokens::{RecvToken, fits};
use reg_mem::Reg;
use std::alloc::{AllocError, Global};
use std::collections::VecDeque;
use std::marker::Model;

/// The provided tokens of a port, first provided first, with room for all of its tokens.
pub(crate) struct BufferList {
    host: u16,
    port: u8,
    limit: u16,
    provided: VecDeque<ProvidedToken>,
    // How many of them have each number.
    tally: Tally,
    // Whether one of them may be filling.
    may_fill: bool,
    // Empty: the list in which the tokens are handed back.
    listed: Vec<(RecvToken, Reg)>,
}

impl Model for BufferList {
    ghost use Rattle.std.specs.Prelude.{map, vec_capacity};
    ghost use Rattle.std.specs.VecDeque.{deque_capacity};
    ghost use Rattle.gm_port.specs.Held.{Buffers, provided_of};

    ghost Value = { Buffers };

    ghost use Rattle.gm_port.specs.Lists.{AreBuffers};
    ghost use Rattle.gm_port.specs.Lists.{IsFillingOnlyIf};
    ghost use Rattle.gm_port.specs.Tallies.{AreTallied, numbers_of};

    ghost view = { λ b. record {
      host = b.host;
      port = b.port;
      limit = b.limit;
      provided = map provided_of b.provided.items;
    } };

    ghost invariant = { λ b. AreBuffers b.host b.port b.limit b.provided.items
        (deque_capacity b.provided) b.listed.items (vec_capacity b.listed)
        × AreTallied b.tally (numbers_of b.provided.items)
        × IsFillingOnlyIf b.may_fill b.provided.items };
}

impl BufferList {
    /// A list with room for this many tokens.
    pub(crate) fn with_room(
        alloc: Global,
        host: u16,
        port: u8,
        limit: u16,
    ) -> Result<BufferList, AllocError>
        ensures { IfOk result (λ b. b ≡ record { host = host; port = port; limit = limit; provided = [] }) }
    {
        let tally = Tally::with_room(alloc, limit)?;
        let provided = VecDeque::with_capacity(alloc, usize::from(limit))?;
        match Vec::with_capacity(alloc, usize::from(limit)) {
            Ok(listed) => Ok(BufferList {
                host,
                port,
                limit,
                provided,
                tally,
                may_fill: false,
                listed,
            }),
            Err(error) => {
                provided.destroy_empty();
                Err(error)
            }
        }
    }

    /// Whether the token of this number is provided.
    pub(crate) fn has(&self, number: u16) -> bool
        ensures { result ≡ has_number (map (λ r. r.token) self.now.provided) number }
    {
        match self.tally.has(number) {
            Some(known) => known,
            None => has_token(&self.provided, number),
        }
    }

    /// Whether a token takes a fragment.
    pub(crate) fn can_take(&self, h: &FrameHead) -> bool
        ensures { result ≡ is_some (find (taking h.now self.now.provided) self.now.provided) }
    {
        first_taking(&self.provided, self.may_fill, h).is_some()
    }

    /// How many tokens are filling.
    pub(crate) fn filling(&self) -> u32
        ensures { result ≡ length (filter (λ r. is_some r.filling) self.now.provided) }
    {
        // No more tokens are provided than a port has, which 16 bits count.
        let _limit = self.limit;
        count_filling(&self.provided) as u32
    }

    /// Takes a token in, after the others.
    pub(crate) fn push(&mut self, r: ProvidedToken)
        requires own { provided_at self.old.host self.old.port (provided_of r) ≡ r }
        requires room { length self.old.provided < self.old.limit }
        ensures { self.new ≡ record self.old { provided = self.old.provided ++ provided_of r ∷ [] } }
    {
        // No more tokens are provided than a port has, which 16 bits count.
        let _limit = self.limit;
        self.tally.add(r.token.number());
        self.may_fill |= r.filling.is_some();
        self.provided.push_back_reserved(r);
    }

    /// Takes the token out that takes a fragment.
    pub(crate) fn take(&mut self, h: &FrameHead) -> ProvidedToken
        requires { IsSome (find (taking h.now self.old.provided) self.old.provided) }
        ensures taken { option_map (provided_at self.old.host self.old.port)
            (find (taking h.now self.old.provided) self.old.provided) ≡ Some result }
        ensures rest { self.new ≡ record self.old {
          provided = without_first (taking h.now self.old.provided) self.old.provided;
        } }
    {
        let Some(at) = first_taking(&self.provided, self.may_fill, h) else {
            unreachable!();
        };
        match self.provided.remove(at) {
            Some(taken) => {
                self.tally.remove(taken.token.number());
                taken
            }
            None => unreachable!(),
        }
    }

    /// Writes a fragment that isn't its message's last into the buffer of the token that takes it, which is filling
    /// from then on and stays in its place.
    pub(crate) fn fill(&mut self, h: &FrameHead, part: &[u8])
        requires taken { IsSome (find (taking h.now self.old.provided) self.old.provided) }
        requires room { IfSome (find (taking h.now self.old.provided) self.old.provided) (λ r.
            h.now.offset + length part.now ≤ length r.buffer) }
        requires within { h.now.offset + length part.now ≤ h.now.total }
        ensures { self.new ≡ record self.old { provided = filled_in h.now part.now self.old.provided } }
    {
        let Some(at) = first_taking(&self.provided, self.may_fill, h) else {
            unreachable!();
        };
        fill_token(&mut self.provided[at], h, part);
        self.may_fill = true;
    }

    /// All tokens with their buffers, first provided first. Takes no memory.
    pub(crate) fn into_list(self) -> Vec<(RecvToken, Reg)>
        ensures { result.items ≡ map (receive_at self.host self.port) self.provided }
    {
        let BufferList {
            host: _,
            port: _,
            limit: _,
            provided,
            tally: _,
            may_fill: _,
            listed,
        } = self;
        list_provided(provided, listed)
    }
}

// Whether a token has this number.
fn has_token(provided: &VecDeque<ProvidedToken>, number: u16) -> bool
    ensures { result ≡ list_any (λ r. nat_eq number r.token.number) provided.now.items }
{
    provided.iter().any(|r| number == r.token.number())
}

// The place of the token that takes a fragment: of several the one provided first.
fn first_taking(provided: &VecDeque<ProvidedToken>, may_fill: bool, h: &FrameHead) -> Option<usize>
    requires { IsFillingOnlyIf may_fill provided.now.items }
    ensures { result ≡ position (taking_here h.now provided.now.items) provided.now.items }
{
    let begun = is_begun(provided, may_fill, h);
    first_by(provided, h, begun)
}

// The same, where a message of the fragment's host and priority has begun or not.
fn first_by(provided: &VecDeque<ProvidedToken>, h: &FrameHead, begun: bool) -> Option<usize>
    ensures { result ≡ position (λ r. takes h.now begun (provided_of r)) provided.now.items }
{
    provided.iter().position(|r| takes(r, h, begun))
}

// Whether this is a first fragment, and a message of its host and priority has begun. No later one is asked for that.
fn is_begun(provided: &VecDeque<ProvidedToken>, may_fill: bool, h: &FrameHead) -> bool
    ensures { result ≡ (may_fill && (nat_eq h.now.offset 0
        && list_any (λ r. is_filling_for h.now.src h.now.prio (provided_of r)) provided.now.items)) }
{
    may_fill && h.offset == 0 && has_begun(provided, h.src, h.prio)
}

// Whether a token is filling for a host and a priority.
fn has_begun(provided: &VecDeque<ProvidedToken>, src: u16, prio: u8) -> bool
    ensures { result ≡ list_any (λ r. is_filling_for src prio (provided_of r)) provided.now.items }
{
    provided.iter().any(|r| is_filling_for(r, src, prio))
}

// Whether this token is.
fn is_filling_for(r: &ProvidedToken, src: u16, prio: u8) -> bool
    ensures { result ≡ is_filling_for src prio (provided_of r.now) }
{
    is_from(&r.filling, src) && r.prio == prio
}

// Whether a token is filling with a message of a host.
fn is_from(filling: &Option<Filling>, src: u16) -> bool
    ensures { result ≡ is_from src filling.now }
{
    match filling {
        Some(f) => f.src == src,
        None => false,
    }
}

// Whether a token takes a fragment, where a message of its host and priority has begun or not.
fn takes(r: &ProvidedToken, h: &FrameHead, begun: bool) -> bool
    ensures { result ≡ takes h.now begun (provided_of r.now) }
{
    if h.offset == 0 {
        !begun && is_free_for(r, h.total, h.prio)
    } else {
        holds_before(&r.filling, h) && r.prio == h.prio
    }
}

// Whether a token is free for a message: it isn't filling, and fits.
fn is_free_for(r: &ProvidedToken, len: u32, prio: u8) -> bool
    ensures { result ≡ is_free_for len prio (provided_of r.now) }
{
    r.filling.is_none() && fits(r.size, r.prio, len, prio)
}

// Whether a token holds exactly what comes before a fragment.
fn holds_before(filling: &Option<Filling>, h: &FrameHead) -> bool
    ensures { result ≡ holds_before h.now filling.now }
{
    match filling {
        Some(f) => f.src == h.src && f.total == h.total && f.held == h.offset,
        None => false,
    }
}

// How many tokens are filling.
fn count_filling(provided: &VecDeque<ProvidedToken>) -> usize
    ensures { result ≡ count_by (λ r. is_some r.filling) provided.now.items }
{
    provided.iter().filter(|r| r.filling.is_some()).count()
}

// A fragment goes into the buffer of its token.
fn fill_token(r: &mut ProvidedToken, h: &FrameHead, part: &[u8])
    requires room { h.now.offset + length part.now ≤ length r.old.buffer }
    requires within { h.now.offset + length part.now ≤ h.now.total }
    ensures { r.new ≡ provided_at_token r.old.token (filling_with h.now part.now (provided_of r.old)) }
{
    r.buffer.fill(h.offset as usize, part);
    r.filling = Some(Filling {
        src: h.src,
        total: h.total,
        held: h.offset + part.len() as u32,
    });
}

// Moves all tokens into a list, in their order.
fn list_provided(
    mut provided: VecDeque<ProvidedToken>,
    mut listed: Vec<(RecvToken, Reg)>,
) -> Vec<(RecvToken, Reg)>
    requires empty { listed.items ≡ [] }
    requires room { length provided.items ≤ vec_capacity listed }
    ensures { result.items ≡ map (λ r. (r.token, r.buffer)) provided.items }
{
    while let Some(taken) = provided.pop_front() {
        let ProvidedToken {
            token,
            buffer,
            size: _,
            prio: _,
            filling: _,
        } = taken;
        listed.push_reserved((token, buffer));
    }
    provided.destroy_empty();
    listed
}
