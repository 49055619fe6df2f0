//! How a period of an end ends: it restarts, or its peer did.

ghost use Rattle.std.specs.Prelude.{◌≡◌, false, IfOk, OnOk, OnErr};
ghost use Rattle.duo_defs.specs.Hearing.{renewed};
ghost use Rattle.duo_defs.specs.Step.{restarting};
ghost use Rattle.duo_defs.specs.Theorem.{IsWaiting};
ghost use Rattle.gm_restart.specs.End.{in_state};
ghost use Rattle.gm_restart.specs.Calls.{is_quiet};

use crate::end::{End, new_lane, new_port};
use crate::giving_back::{Manner, give_back};
use crate::period::Past;
use duo_defs::{DuoCause, DuoEffect};
use gm_tokens::NoMemory;
use std::alloc::Global;
use std::mem;

impl End {
    /// Knows a greater incarnation of its peer from now on: both halves of the connection begin anew, and each send
    /// that isn't finished comes back, unsure.
    pub(crate) fn renew(&mut self, inc: u32) -> Result<(), NoMemory>
        requires { IsWaiting self.old.state.port self.old.state.present.lane }
        ensures ok { OnOk result (self.new ≡ in_state self.old (renewed inc self.old.state)) }
        ensures err { OnErr result (self.new ≡ self.old) }
    {
        let count = self.lane.unacked() as usize;
        self.past.reserve(1)?;
        self.returned.reserve(count)?;
        let manner = Manner {
            known: self.known,
            first: self.lane.sent().len() - count,
            unsure: true,
        };
        give_back(
            &mut self.held,
            &mut self.returned,
            &self.lane,
            count,
            manner,
        );
        let lane = mem::replace(&mut self.lane, new_lane(self.host));
        self.past.push_reserved(Past {
            inc: self.inc,
            known: self.known,
            lane,
        });
        self.known = inc;
        Ok(())
    }

    /// Restarts with its client, unless its incarnation is the last: all tokens are retired with their buffers, and a
    /// new port begins, at which the end knows nobody.
    pub(crate) fn restart(&mut self, alloc: Global) -> Result<DuoEffect, NoMemory>
        ensures ok { IfOk result (λ effect. restarting self.old.state ≡ (effect, self.new.state)) }
        ensures host { self.new.host ≡ self.old.host }
        ensures wanting { OnErr result (is_quiet (restarting self.old.state).0 ≡ false) }
        ensures err { OnErr result (self.new ≡ self.old) }
    {
        if self.inc == u32::MAX {
            return Ok(DuoEffect::Refused(DuoCause::Spent));
        }
        self.past.reserve(1)?;
        let held = new_port(alloc, self.host)?;
        mem::replace(&mut self.held, held).end(alloc);
        let lane = mem::replace(&mut self.lane, new_lane(self.host));
        self.past.push_reserved(Past {
            inc: self.inc,
            known: self.known,
            lane,
        });
        self.inc += 1;
        self.known = 0;
        self.owes_hello = false;
        self.returned.clear();
        Ok(DuoEffect::Restarted(self.inc))
    }
}
