//! Both ends and the medium, as events lead to them.

ghost use Rattle.std.specs.Prelude.{◌≡◌, ◌<◌, ◌≤◌, ℕ, true, false, IfOk, OnErr};
ghost use Rattle.world_defs.specs.Sound.{IsPrefix};
ghost use Rattle.duo_defs.specs.declared.event.DuoEvent.TheVariants.{Poll};
ghost use Rattle.duo_defs.specs.Duo.{new_duo, end_at, sent, got};
ghost use Rattle.duo_defs.specs.Step.{IsFair, step};
ghost use Rattle.duo_defs.specs.Theorem.{HasFour, IsSentRight, IsUnsureRight};
ghost use Rattle.gm_restart.specs.Calls.{is_quiet, takes_memory};

use crate::ends::Ends;
use duo_defs::{DuoEffect, DuoEvent};
use gm_defs::Message;
use gm_tokens::NoMemory;
use std::alloc::Global;
use std::marker::Model;

/// Two hosts that restart, and the medium between them: what events lead to from two new ends.
///
/// It must be spent, by [`Duo::end`].
pub struct Duo {
    ends: Ends,
}

impl Model for Duo {
    ghost use Rattle.duo_defs.specs.Duo.{DuoState};
    ghost use Rattle.duo_defs.specs.Theorem.{IsReached};

    ghost Value = { DuoState };

    ghost view = { λ d. d.ends };

    ghost invariant = { λ d. IsReached d.ends };
}

impl Duo {
    /// Both ends at incarnation 1: each knows nobody, its client holds 4 send and 4 receive tokens, and nothing was
    /// emitted.
    pub fn new(alloc: Global) -> Result<Duo, NoMemory>
        ensures { IfOk result (λ d. d ≡ new_duo 1) }
    {
        Duo::starting(alloc, 1)
    }

    /// The same with both ends at a given incarnation.
    pub fn starting(alloc: Global, inc: u32) -> Result<Duo, NoMemory>
        requires { 1 ≤ inc }
        ensures { IfOk result (λ d. d ≡ new_duo inc) }
    {
        let ends = Ends::new(alloc, inc)?;
        Ok(Duo { ends })
    }

    /// One event, and what it did. Running out of memory changes nothing, and hides no refusal and no idle event; a
    /// poll and a timer that runs out take none. A poll answers sent only for a message that the peer has
    /// got, and unsure only where the peer's incarnation is above the one to which the message is counted.
    pub fn step(&mut self, alloc: Global, e: DuoEvent) -> Result<DuoEffect, NoMemory>
        requires { IsFair e }
        ensures ok { IfOk result (λ effect. step self.old e ≡ (effect, self.new)) }
        ensures sent { IfOk result (λ effect.
            (x t : ℕ) → e ≡ Poll x → effect ≡ DuoEffect.Sent t → IsSentRight self.old x t) }
        ensures unsure { IfOk result (λ effect.
            (x t : ℕ) → e ≡ Poll x → effect ≡ DuoEffect.Unsure t → IsUnsureRight self.old x t) }
        ensures wanting { OnErr result (is_quiet (step self.old e).0 ≡ false) }
        ensures memory { OnErr result (takes_memory e ≡ true) }
        ensures err { OnErr result (self.new ≡ self.old) }
    {
        self.ends.step(alloc, e)
    }

    /// The incarnation of an end. Each token of it has one owner, its port or its client.
    pub fn incarnation(&self, x: u8) -> u32
        requires { x < 2 }
        ensures incarnation { result ≡ (end_at self.now x).present.inc }
        ensures owners { HasFour (end_at self.now x).port (end_at self.now x).client }
    {
        if x == 0 {
            self.ends.first.incarnation()
        } else {
            self.ends.second.incarnation()
        }
    }

    /// The messages that end x, as incarnation i, accepted for incarnation j of its peer, in order: those accepted
    /// while it knew none are counted to the first that it learnt.
    pub fn sent(&self, x: u8, i: u32, j: u32) -> &[Message]
        requires { x < 2 }
        ensures sent { result.now ≡ sent self.now x i j }
        ensures prefix { IsPrefix (got self.now x i j) (sent self.now x i j) }
    {
        if x == 0 {
            self.ends.first.sent(i, j)
        } else {
            self.ends.second.sent(i, j)
        }
    }

    /// The messages that the peer of end x, as incarnation j, put into its queue from incarnation i of x, in order: a
    /// prefix of those that were sent.
    pub fn got(&self, x: u8, i: u32, j: u32) -> &[Message]
        requires { x < 2 }
        ensures got { result.now ≡ got self.now x i j }
        ensures prefix { IsPrefix (got self.now x i j) (sent self.now x i j) }
    {
        if x == 0 {
            self.ends.second.got(j, i)
        } else {
            self.ends.first.got(j, i)
        }
    }

    /// Spends it: each token of the living incarnations is retired once. Takes no memory.
    pub fn end(self, alloc: Global) {
        let Duo { ends } = self;
        ends.end(alloc);
    }
}
