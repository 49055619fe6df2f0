//! The client of an open port.

ghost use Rattle.std.specs.Prelude.{◌≡◌, ◌<◌, ◌++◌, ◌∷◌, [], length, drop, slice_get, is_some, option_map, IfOk};
ghost use Rattle.gm_tokens.specs.Token.{token_at};
ghost use Rattle.gm_tokens.specs.Minted.{AreAll};
ghost use Rattle.port_client.specs.Held.{opened_client, with_sends, with_recvs, tokens_of};

use gm_tokens::{Bank, Minted, NoMemory, RecvToken, SendToken};
use std::alloc::Global;
use std::collections::VecDeque;
use std::marker::Model;

/// The client of one opening of a port: the right to retire its tokens, and those that it holds, longest held first.
///
/// It must be spent, by [`Client::end`], and it can't be cloned.
pub struct Client {
    bank: Bank,
    minted_sends: u16,
    minted_recvs: u16,
    sends: VecDeque<SendToken>,
    recvs: VecDeque<RecvToken>,
}

impl Model for Client {
    ghost use Rattle.port_client.specs.Held.{OpenClient, client_of};

    ghost Value = { OpenClient };

    ghost use Rattle.port_client.specs.Kept.{IsClient};
    ghost use Rattle.std.specs.VecDeque.{deque_capacity};

    ghost view = { λ c. client_of c.bank.host c.bank.port c.minted_sends c.minted_recvs c.sends.items c.recvs.items };

    ghost invariant = { λ c. IsClient c.bank c.minted_sends c.minted_recvs c.sends.items
        (deque_capacity c.sends) c.recvs.items (deque_capacity c.recvs) };
}

impl Client {
    /// Mints the tokens of an opening of a port. The client holds all of them, by rising number.
    pub fn open(
        alloc: Global,
        host: u16,
        port: u8,
        sends: u16,
        recvs: u16,
    ) -> Result<Client, NoMemory>
        ensures { IfOk result (λ c. c ≡ opened_client host port sends recvs) }
    {
        let Minted {
            bank,
            sends: send_tokens,
            recvs: recv_tokens,
        } = Bank::mint(alloc, host, port, sends, recvs)?;
        Ok(Client {
            bank,
            minted_sends: sends,
            minted_recvs: recvs,
            sends: VecDeque::from_vec(send_tokens),
            recvs: VecDeque::from_vec(recv_tokens),
        })
    }

    /// How many send tokens and receive tokens were minted.
    pub fn minted(&self) -> (u16, u16)
        ensures sends { result.0 ≡ self.now.minted_sends }
        ensures recvs { result.1 ≡ self.now.minted_recvs }
    {
        (self.minted_sends, self.minted_recvs)
    }

    /// The number of the send token that was held longest. None exactly where none is held.
    pub fn first_send(&self) -> Option<u16>
        ensures { result ≡ slice_get self.now.held.sends 0 }
    {
        match self.sends.front() {
            Some(token) => Some(token.number()),
            None => None,
        }
    }

    /// Whether a receive token is held.
    pub fn has_recv(&self) -> bool
        ensures { result ≡ is_some (slice_get self.now.held.recvs 0) }
    {
        self.recvs.front().is_some()
    }

    /// Takes the send token that was held longest. None exactly where none is held.
    pub fn take_send(&mut self) -> Option<SendToken>
        ensures token { result ≡ option_map (token_at self.old.host self.old.port) (slice_get self.old.held.sends 0) }
        ensures rest { self.new ≡ with_sends self.old (drop 1 self.old.held.sends) }
    {
        self.sends.pop_front()
    }

    /// Takes the receive token that was held longest. None exactly where none is held.
    pub fn take_recv(&mut self) -> Option<RecvToken>
        ensures token { result ≡ option_map (token_at self.old.host self.old.port) (slice_get self.old.held.recvs 0) }
        ensures rest { self.new ≡ with_recvs self.old (drop 1 self.old.held.recvs) }
    {
        self.recvs.pop_front()
    }

    /// Takes a send token back behind those that it holds.
    pub fn give_back_send(&mut self, t: SendToken)
        requires own { t ≡ token_at self.old.host self.old.port t.number }
        requires room { length self.old.held.sends < self.old.minted_sends }
        ensures { self.new ≡ with_sends self.old (self.old.held.sends ++ t.number ∷ []) }
    {
        self.sends.push_back_reserved(t);
    }

    /// Takes a receive token back behind those that it holds.
    pub fn give_back_recv(&mut self, t: RecvToken)
        requires own { t ≡ token_at self.old.host self.old.port t.number }
        requires room { length self.old.held.recvs < self.old.minted_recvs }
        ensures { self.new ≡ with_recvs self.old (self.old.held.recvs ++ t.number ∷ []) }
    {
        self.recvs.push_back_reserved(t);
    }

    /// Takes the send token of a refused call back before those that it holds.
    pub fn return_send(&mut self, t: SendToken)
        requires own { t ≡ token_at self.old.host self.old.port t.number }
        requires room { length self.old.held.sends < self.old.minted_sends }
        ensures { self.new ≡ with_sends self.old (t.number ∷ self.old.held.sends) }
    {
        self.sends.push_front_reserved(t);
    }

    /// Takes the receive token of a refused call back before those that it holds.
    pub fn return_recv(&mut self, t: RecvToken)
        requires own { t ≡ token_at self.old.host self.old.port t.number }
        requires room { length self.old.held.recvs < self.old.minted_recvs }
        ensures { self.new ≡ with_recvs self.old (t.number ∷ self.old.held.recvs) }
    {
        self.recvs.push_front_reserved(t);
    }

    /// Spends all tokens of the opening: those that it holds, and those handed in. Takes no memory.
    pub fn end(self, sends: Vec<SendToken>, recvs: Vec<RecvToken>)
        requires sends { AreAll self.host self.port self.minted_sends
            (tokens_of self.host self.port self.held.sends ++ sends.items) }
        requires recvs { AreAll self.host self.port self.minted_recvs
            (tokens_of self.host self.port self.held.recvs ++ recvs.items) }
    {
        let Client {
            bank,
            minted_sends: _,
            minted_recvs: _,
            sends: held_sends,
            recvs: held_recvs,
        } = self;
        bank.retire_held(held_sends, sends, held_recvs, recvs);
    }
}
