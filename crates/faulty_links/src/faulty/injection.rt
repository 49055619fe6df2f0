//! Planned faults, and the injections that they strike.

ghost use Rattle.std.specs.Prelude.{◌≡◌, ◌<◌, ◌≤◌, ◌+◌, length, nat_eq, true, None, IfOk, IfErr, OnOk, OnErr};
ghost use Rattle.std.specs.Map.{lookup};
ghost use Rattle.world_defs.specs.Links.{packet_in, put};
ghost use Rattle.world_defs.specs.World.{WorldState, planned};
ghost use Rattle.world_defs.specs.Step.{fault_on, is_harm, planned_strikes};
ghost use Rattle.faulty_links.specs.Held.{with_part, can_inject, pull_end, put_under_next};

use super::FaultyLinks;
use link_model::Links;
use myri_packet::Packet;
use net_defs::End;
use std::alloc::{AllocError, Global};
use world_defs::{Effect, Fault};

impl FaultyLinks {
    /// Plans a fault for the injection so far ahead, in the place of an earlier one, and answers that injection's
    /// number.
    pub fn plan(&mut self, ahead: u64, fault: Fault) -> Result<u128, AllocError>
        requires { 1 ≤ ahead }
        ensures ok { IfOk result (λ number. (w : WorldState)
            → planned (with_part w self.old) ahead fault ≡ (number, with_part w self.new)) }
        ensures err { OnErr result (self.new ≡ self.old) }
    {
        let number = u128::from(self.counts.injected()) + u128::from(ahead);
        self.plan.put(number, fault)?;
        Ok(number)
    }

    /// The port of the pull that is planned for the next injection; none where another fault is planned, or no fault.
    pub fn next_pull(&self) -> Option<End>
        ensures { result ≡ pull_end (lookup (nat_eq (self.now.injected + 1)) self.now.plan) }
    {
        self.plan.pull_at(u128::from(self.counts.injected()) + 1)
    }

    /// A packet to write into: one that left, whose buffer serves again, or one without a buffer.
    pub fn spare(&mut self, alloc: Global) -> Packet
        ensures { self.new ≡ self.old }
    {
        self.links.spare(alloc)
    }

    /// Puts a packet into an empty channel under the next number; the fault that is planned for this injection
    /// strikes at once. Where memory runs out it hands the packet back, and nothing has changed. It stands in its
    /// callers, which need not hand the packet over.
    #[inline(always)]
    pub fn inject(
        &mut self,
        alloc: Global,
        c: u16,
        p: Packet,
    ) -> Result<Effect, (Packet, AllocError)>
        requires there { c < length self.old.links.channels }
        requires free { can_inject self.old c ≡ true }
        ensures number { IfOk result (λ e. e ≡ Effect.Injected (self.old.injected + 1)) }
        ensures strikes { OnOk result ((w : WorldState)
            → planned_strikes (put_under_next (with_part w self.old) c p) c ≡ with_part w self.new) }
        ensures err { OnErr result (self.new ≡ self.old) }
        ensures back { IfErr result (λ e. e.0 ≡ p) }
    {
        let number = self.counts.injected() + 1;
        let Some(fault) = self.plan.at(number) else {
            let _ = self.links.put(c, p);
            self.counts.inject();
            return Ok(Effect::Injected(number));
        };
        let strikes = put_under(&mut self.links, alloc, c, p, fault)?;
        self.counts.inject_under(strikes, is_harm(fault));
        self.plan.remove(number);
        Ok(Effect::Injected(number))
    }
}

// Puts a packet into an empty channel, where a fault strikes it: whether it did. It keeps a copy, to hand it back
// where memory runs out.
fn put_under(
    links: &mut Links,
    alloc: Global,
    c: u16,
    p: Packet,
    fault: Fault,
) -> Result<bool, (Packet, AllocError)>
    requires there { c < length links.old.channels }
    requires empty { packet_in links.old c ≡ None }
    ensures strikes { IfOk result (λ b. b ≡ (fault_on (put links.old c p).1 c fault).0) }
    ensures links { OnOk result (links.new ≡ (fault_on (put links.old c p).1 c fault).1) }
    ensures err { OnErr result (links.new ≡ links.old) }
    ensures back { IfErr result (λ e. e.0 ≡ p) }
{
    let spare = match p.copy(alloc) {
        Ok(spare) => spare,
        Err(e) => return Err((p, e)),
    };
    let _ = links.put(c, p);
    match strike(links, alloc, c, fault) {
        Ok(strikes) => Ok(strikes),
        Err(e) => {
            let _ = links.lose(c);
            Err((spare, e))
        }
    }
}

// A fault strikes a channel's packet, or the cable at its port: whether it was possible.
fn strike(links: &mut Links, alloc: Global, c: u16, fault: Fault) -> Result<bool, AllocError>
    requires { c < length links.old.channels }
    ensures strikes { IfOk result (λ b. b ≡ (fault_on links.old c fault).0) }
    ensures links { OnOk result (links.new ≡ (fault_on links.old c fault).1) }
    ensures err { OnErr result (links.new ≡ links.old) }
{
    match fault {
        Fault::Lose => Ok(links.lose(c)),
        Fault::Repeat => Ok(links.repeat(alloc, c)?.is_some()),
        Fault::Hold => Ok(links.hold(c)?.is_some()),
        Fault::Flip { bit, pattern } => links.flip(c, bit, pattern),
        Fault::Pull { at } => Ok(links.pull(at)),
    }
}

// Whether a fault keeps its packet from its host, or spoils it.
const fn is_harm(fault: Fault) -> bool
    ensures { result ≡ is_harm fault }
{
    match fault {
        Fault::Lose | Fault::Hold | Fault::Flip { .. } => true,
        Fault::Repeat | Fault::Pull { .. } => false,
    }
}
