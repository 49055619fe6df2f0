//! Events of a world, and its fabric as it follows them.

ghost use Rattle.std.specs.Prelude.{◌≡◌, ◌≢◌, length, true, false, None, IfOk, IfSome, OnErr};
ghost use Rattle.net_defs.specs.Network.{far};
ghost use Rattle.net_defs.specs.Building.{with_cable};
ghost use Rattle.world_defs.specs.World.{fabric_of, host_count};
ghost use Rattle.world_defs.specs.Step.{step, injected, pulled, plugged};
ghost use Rattle.adopted_routes.specs.Adopting.{IsSetOfHosts};
ghost use Rattle.client_host.specs.Calls.{IsClientCall};
ghost use Rattle.fab_world.specs.Events.{IsHostOf, IsGiven, takes_memory};
ghost use Rattle.fab_world.specs.Following.{struck_fabric, kept_fabric};
ghost use Rattle.fab_world.specs.Held.{IsPolledOfHosts, is_refusal};

use crate::machine::Machine;
use net_defs::End;
use port_graph::{Fabric, GraphFault};
use std::alloc::{AllocError, Global};
use world_defs::{Effect, Event};

/// One event: its effect, and the machine after it, with its fabric as that stands then. Running out of memory changes
/// nothing, and hides no refusal of a client's call.
pub(crate) fn step(
    fabric: &mut Fabric,
    machine: &mut Machine,
    alloc: Global,
    e: &Event,
) -> Result<Effect, AllocError>
    requires given { IsGiven machine.old e.now }
    requires hosts { host_count machine.old ≡ length (fabric_of machine.old).hosts }
    requires routes { IfSome machine.old.adopted (IsSetOfHosts (host_count machine.old)) }
    requires its_own { fabric.old ≡ fabric_of machine.old }
    ensures ok { IfOk result (λ x. step machine.old e.now ≡ (x, machine.new)) }
    ensures polled { IfOk result (λ x. IsPolledOfHosts (host_count machine.old) e.now x) }
    ensures wanting { OnErr result (IsClientCall e.now → is_refusal (step machine.old e.now).0 ≡ false) }
    ensures memory { OnErr result (takes_memory e.now ≡ true) }
    ensures err { OnErr result (machine.new ≡ machine.old) }
    ensures follows { fabric.new ≡ fabric_of machine.new }
{
    match e {
        Event::Inject(host) => inject(fabric, machine, alloc, *host),
        Event::Pull(at) => Ok(pull(fabric, machine, *at)),
        Event::Plug(a, b) => plug(fabric, machine, *a, *b),
        _ => machine.step(alloc, e),
    }
}

/// A host puts a packet into its channel. A pull that is planned for this injection takes its cable out of the fabric
/// as well.
pub(crate) fn inject(
    fabric: &mut Fabric,
    machine: &mut Machine,
    alloc: Global,
    host: u16,
) -> Result<Effect, AllocError>
    requires there { IsHostOf machine.old host }
    requires its_own { fabric.old ≡ fabric_of machine.old }
    ensures ok { IfOk result (λ x. injected machine.old host ≡ (x, machine.new)) }
    ensures err { OnErr result (machine.new ≡ machine.old) }
    ensures follows { fabric.new ≡ fabric_of machine.new }
{
    let planned = machine.next_pull();
    let effect = machine.inject(alloc, host)?;
    strike(fabric, planned, &effect);
    Ok(effect)
}

// The cable of a pull that was planned for an injection is gone where that came about.
fn strike(fabric: &mut Fabric, planned: Option<End>, effect: &Effect)
    ensures { fabric.new ≡ struck_fabric fabric.old planned effect.now }
{
    if let (Some(at), Effect::Injected(_)) = (planned, effect) {
        fabric.remove_cable(at);
    }
}

// The cable at a port is taken out, of the fabric as of the links.
fn pull(fabric: &mut Fabric, machine: &mut Machine, at: End) -> Effect
    requires { fabric.old ≡ fabric_of machine.old }
    ensures ok { pulled machine.old at ≡ (result, machine.new) }
    ensures follows { fabric.new ≡ fabric_of machine.new }
{
    fabric.remove_cable(at);
    machine.pull(at)
}

// Two ports are joined, in the fabric first: it refuses what the links refuse, but for the number of cables.
fn plug(fabric: &mut Fabric, machine: &mut Machine, a: End, b: End) -> Result<Effect, AllocError>
    requires { fabric.old ≡ fabric_of machine.old }
    ensures ok { IfOk result (λ x. plugged machine.old a b ≡ (x, machine.new)) }
    ensures err { OnErr result (machine.new ≡ machine.old) }
    ensures follows { fabric.new ≡ fabric_of machine.new }
{
    match fabric.add_cable(a, b) {
        Ok(_) => plug_links(fabric, machine, a, b),
        Err(fault) => refused(fault),
    }
}

// What a plug comes to that the fabric refuses.
fn refused(fault: GraphFault) -> Result<Effect, AllocError>
    ensures { IfOk result (λ x. (x ≡ Effect.Idle) × (fault ≢ GraphFault.NoMemory)) }
{
    match fault {
        GraphFault::NoMemory => Err(AllocError),
        _ => Ok(Effect::Idle),
    }
}

// The same where the fabric has the cable already: it goes again where the links don't take it.
fn plug_links(
    fabric: &mut Fabric,
    machine: &mut Machine,
    a: End,
    b: End,
) -> Result<Effect, AllocError>
    requires free { far (fabric_of machine.old) a ≡ None }
    requires joined { fabric.old ≡ with_cable (fabric_of machine.old) a b }
    ensures ok { IfOk result (λ x. plugged machine.old a b ≡ (x, machine.new)) }
    ensures err { OnErr result (machine.new ≡ machine.old) }
    ensures follows { fabric.new ≡ fabric_of machine.new }
{
    let effect = machine.plug(a, b);
    keep(fabric, a, &effect);
    effect
}

// The cable at a port stays only where the links took it.
fn keep(fabric: &mut Fabric, at: End, effect: &Result<Effect, AllocError>)
    ensures { fabric.new ≡ kept_fabric fabric.old at effect.now }
{
    if !matches!(effect, Ok(Effect::Said(_))) {
        fabric.remove_cable(at);
    }
}
