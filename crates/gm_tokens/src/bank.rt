//! The bank of one opening of a port.

ghost use Rattle.std.specs.Prelude.{◌≡◌, ◌≤◌, ◌++◌, IfOk, vec_len, vec_capacity};
ghost use Rattle.gm_tokens.specs.Minted.{tokens, AreAll};

use crate::token::{RecvToken, SendToken};
use std::alloc::{AllocError, Global};
use std::collections::VecDeque;

/// Memory ran out.
pub type NoMemory = AllocError;

/// The right to retire the tokens of one opening of a port: whose they are, and how many of each kind were minted.
///
/// It must be spent, by [`Bank::retire`], and it can't be cloned.
pub struct Bank {
    host: u16,
    port: u8,
    sends: u16,
    recvs: u16,
}

/// A bank with its tokens, as they were minted.
pub struct Minted {
    /// The right to retire them.
    pub bank: Bank,
    /// By rising number. The list has room for all of them, so a holder takes each one back without memory.
    pub sends: Vec<SendToken>,
    /// Likewise.
    pub recvs: Vec<RecvToken>,
}

impl Bank {
    /// Mints the tokens of an opening of a port.
    pub fn mint(
        alloc: Global,
        host: u16,
        port: u8,
        sends: u16,
        recvs: u16,
    ) -> Result<Minted, NoMemory>
        ensures bank { IfOk result (λ m. m.bank ≡ record { host = host; port = port; sends = sends; recvs = recvs }) }
        ensures sends { IfOk result (λ m. m.sends.items ≡ tokens host port sends) }
        ensures recvs { IfOk result (λ m. m.recvs.items ≡ tokens host port recvs) }
        ensures send_room { IfOk result (λ m. sends ≤ vec_capacity m.sends) }
        ensures recv_room { IfOk result (λ m. recvs ≤ vec_capacity m.recvs) }
    {
        let send_room = Vec::with_capacity(alloc, usize::from(sends))?;
        match Vec::with_capacity(alloc, usize::from(recvs)) {
            Ok(recv_room) => Ok(Minted {
                bank: Bank {
                    host,
                    port,
                    sends,
                    recvs,
                },
                sends: mint_sends(send_room, host, port, sends),
                recvs: mint_recvs(recv_room, host, port, recvs),
            }),
            Err(error) => {
                send_room.destroy_empty();
                Err(error)
            }
        }
    }

    /// Spends all tokens that were minted with this bank, and the bank. Takes no memory.
    pub fn retire(self, sends: Vec<SendToken>, recvs: Vec<RecvToken>)
        requires sends { AreAll self.host self.port self.sends sends.items }
        requires recvs { AreAll self.host self.port self.recvs recvs.items }
    {
        self.spend();
        spend_sends(VecDeque::from_vec(sends));
        spend_recvs(VecDeque::from_vec(recvs));
    }

    /// Spends all tokens that were minted with this bank, those in a holder's hands and others, and the bank: each
    /// where it stands. Takes no memory.
    pub fn retire_held(
        self,
        held_sends: VecDeque<SendToken>,
        sends: Vec<SendToken>,
        held_recvs: VecDeque<RecvToken>,
        recvs: Vec<RecvToken>,
    )
        requires sends { AreAll self.host self.port self.sends (held_sends.items ++ sends.items) }
        requires recvs { AreAll self.host self.port self.recvs (held_recvs.items ++ recvs.items) }
    {
        self.spend();
        spend_sends(held_sends);
        spend_sends(VecDeque::from_vec(sends));
        spend_recvs(held_recvs);
        spend_recvs(VecDeque::from_vec(recvs));
    }

    // The bank alone.
    fn spend(self) {
        let Bank {
            host: _,
            port: _,
            sends: _,
            recvs: _,
        } = self;
    }
}

fn mint_sends(mut room: Vec<SendToken>, host: u16, port: u8, count: u16) -> Vec<SendToken>
    requires empty { vec_len room ≡ 0 }
    requires room { count ≤ vec_capacity room }
    ensures items { result.items ≡ tokens host port count }
    ensures capacity { vec_capacity result ≡ vec_capacity room }
{
    for number in 0..count {
        room.push_reserved(SendToken { host, port, number });
    }
    room
}

fn mint_recvs(mut room: Vec<RecvToken>, host: u16, port: u8, count: u16) -> Vec<RecvToken>
    requires empty { vec_len room ≡ 0 }
    requires room { count ≤ vec_capacity room }
    ensures items { result.items ≡ tokens host port count }
    ensures capacity { vec_capacity result ≡ vec_capacity room }
{
    for number in 0..count {
        room.push_reserved(RecvToken { host, port, number });
    }
    room
}

fn spend_sends(mut tokens: VecDeque<SendToken>) {
    while let Some(token) = tokens.pop_front() {
        let SendToken {
            host: _,
            port: _,
            number: _,
        } = token;
    }
    tokens.destroy_empty();
}

fn spend_recvs(mut tokens: VecDeque<RecvToken>) {
    while let Some(token) = tokens.pop_front() {
        let RecvToken {
            host: _,
            port: _,
            number: _,
        } = token;
    }
    tokens.destroy_empty();
}
