//! A message between two hosts, by the calls of the crates alone: what a message layer on them begins with.
//!
//! It reads nothing, and prints what each call came to, which the gate compares with the file `stdout` beside `src/`.
//! `docs/LIBRARY.md` goes through it call by call.
//!
//! ```text
//!   fabric --> world --> map --> routes --> installed --> ports --> sent --> advanced --> settled --> polled
//! ```
#![tactic(auto)]

ghost use Rattle.std.specs.Prelude.{◌≡◌, ◌≤◌, length, true, IfOk, OnOk};
ghost use Rattle.world_defs.specs.History.{fabric_at};
ghost use Rattle.world_defs.specs.Links.{is_idle};
ghost use Rattle.world_defs.specs.World.{fabric_of, host_count};
ghost use Rattle.fab_world.specs.Events.{IsGiven};
ghost use Rattle.route_making.specs.Kept.{IsKeptMap};

use anyhow::{Context, Result, bail, ensure};
use fab_world::{Event, Fault, PortAt, Said, World};
use fabric_file::read_fabric;
use map_making::{FabricMap, MapWords, make_map};
use net_defs::{Answer, Walk};
use probe::Prober;
use route_calc::routes;
use route_making::hosts_of_map;
use table_installing::adopt_and_install;
use updown::orient;
use world_asking::WorldProber;
use world_drain::settle;

const FABRIC: &[u8] =
    b"host ann\nhost ben\nswitch hub 8\ncable ann 0 hub 2\ncable ben 0 hub 5\nscript\n";

fn main(rt: HostRuntime) -> Result<()> {
    asks(&rt, new_world(&rt)?)?;
    asks(&rt, lossy_world(&rt)?)?;
    let mut prober = WorldProber::new(rt.alloc(), new_world(&rt)?, 0, 1);
    let map = complete_map(&rt, &mut prober);
    let mut world = prober.into_world();
    let done = talk(&rt, &mut world, map);
    world.end();
    done
}

// A new world of the fabric.
fn new_world(rt: &HostRuntime) -> Result<World>
    ensures idle { IfOk result (λ w. is_idle w.links ≡ true) }
    ensures unchanged { IfOk result (λ w. w.links.cables.changes ≡ 0) }
    ensures two { IfOk result (λ w. length (fabric_of w).hosts ≡ 2) }
    ensures there { IfOk result (λ w. host_count w ≡ 2) }
{
    let fabric = read_fabric(rt.alloc(), FABRIC)?.fabric;
    ensure!(fabric.hosts() == 2, "the fabric hasn't two hosts");
    let world = World::new(rt.alloc(), fabric)?;
    Ok(world)
}

// One in which the third packet that is injected is lost.
fn lossy_world(rt: &HostRuntime) -> Result<World>
    ensures idle { IfOk result (λ w. is_idle w.links ≡ true) }
    ensures there { IfOk result (λ w. host_count w ≡ 2) }
{
    let mut world = new_world(rt)?;
    let Ok(_) = world.plan(3, Fault::Lose) else {
        world.end();
        bail!("no memory for the plan");
    };
    Ok(world)
}

// Asks three walks from host 0.
fn asks(rt: &HostRuntime, world: World) -> Result<()>
    requires idle { is_idle world.links ≡ true }
    requires there { host_count world ≡ 2 }
{
    let mut prober = WorldProber::new(rt.alloc(), world, 0, 1);
    let told = answers(rt, &mut prober);
    let drowned = prober.drowned();
    let world = prober.into_world();
    let (injected, dropped) = (world.injected(), world.dropped());
    world.end();
    println!(rt;
        "{:?}: drowned {drowned}, injected {injected}, dropped {dropped}",
        told?
    )?;
    Ok(())
}

// The empty walk ends at the switch. A turn of 3 leads on to the other host, and one of 4 to a port without a cable.
fn answers(rt: &HostRuntime, prober: &mut WorldProber) -> Result<[Answer; 3]>
    requires idle { is_idle prober.old.world.links ≡ true }
{
    Ok([
        ask(rt, prober, &[])?,
        ask(rt, prober, &[3])?,
        ask(rt, prober, &[4])?,
    ])
}

// Asks a walk.
fn ask(rt: &HostRuntime, prober: &mut WorldProber, turns: &[i8]) -> Result<Answer>
    requires few { length turns.now ≤ 31 }
    requires idle { is_idle prober.old.world.links ≡ true }
    ensures idle { OnOk result (is_idle prober.new.world.links ≡ true) }
{
    let walk = Walk::new(rt.alloc(), turns)?;
    Ok(prober.ask(&walk)?)
}

// Maps from the prober's host by probe packets, four cables deep.
fn complete_map(rt: &HostRuntime, prober: &mut WorldProber) -> Result<FabricMap>
    requires idle { is_idle prober.old.world.links ≡ true }
    requires fresh { prober.old.drowned ≡ 0 }
    ensures kept { IfOk result
        (IsKeptMap (fabric_at prober.new.world.links.cables prober.old.made) prober.old.host) }
    ensures idle { OnOk result (is_idle prober.new.world.links ≡ true) }
    ensures hosts { length (fabric_of prober.new.world).hosts ≡ length (fabric_of prober.old.world).hosts }
{
    let made = make_map(rt.alloc(), prober, 4)?;
    let MapWords::Complete = made.words else {
        bail!("the map isn't complete");
    };
    let (host, vertices) = (prober.host(), made.map.vertices().len());
    println!(rt; "map of host {host}: complete, {vertices} vertices")?;
    Ok(made.map)
}

// Installs the least legal routes of a map of host 0, and sends a message. The map is of the fabric as it stands where
// no cable of the new world was pulled or plugged meanwhile.
fn talk(rt: &HostRuntime, w: &mut World, map: Result<FabricMap>) -> Result<()>
    requires kept { IfOk map (IsKeptMap (fabric_at w.old.links.cables 0) 0) }
    requires idle { OnOk map (is_idle w.old.links ≡ true) }
    requires two { length (fabric_of w.old).hosts ≡ 2 }
{
    let map = map?;
    w.moment();
    ensure!(w.changes() == 0, "a cable came or went meanwhile");
    let set = routes(rt.alloc(), &map, &orient(rt.alloc(), &map)?)?;
    let hosts = hosts_of_map(rt.alloc(), &map, w.hosts())?;
    let installed = adopt_and_install(rt.alloc(), w, 0, &set, &hosts, 1)?;
    println!(rt; "{installed:?}")?;
    message(rt, w)
}

// Gives the world an event, and prints its effect by a name.
fn happen(rt: &HostRuntime, name: &str, event: Event, w: &mut World) -> Result<()>
    requires given { IsGiven w.old event }
    ensures hosts { host_count w.new ≡ host_count w.old }
{
    println!(rt; "{name}: {:?}", w.step(rt.alloc(), event)?)?;
    Ok(())
}

// Sends five bytes from port 2 of host 0 to port 5 of host 1, in single steps as far as the switch. A settle then
// brings them and their acknowledgement, and each port is polled.
fn message(rt: &HostRuntime, w: &mut World) -> Result<()>
    requires two { host_count w.old ≡ 2 }
{
    let (ann, ben) = (PortAt::new(0, 2), PortAt::new(1, 5));
    happen(rt, "begin", ann.begin(1, 0), w)?;
    happen(rt, "begin", ben.begin(0, 1), w)?;
    happen(rt, "provide", ben.provide(4, 0), w)?;
    happen(rt, "send", ann.send(ben, 0, 5, 72), w)?;
    happen(rt, "inject", Event::Inject(0), w)?;
    let channel = w.lone().context("no packet is on its way")?;
    happen(rt, "advance", Event::Advance(channel), w)?;
    println!(rt; "settle: {:?}", settle(rt.alloc(), w)?)?;
    happen(rt, "poll", ann.poll(), w)?;
    if let Said::Received { from, body, .. } = w.call(rt.alloc(), ben.poll())? {
        println!(rt; "poll: from host {from}: {:?}", body.bytes())?;
    }
    Ok(())
}
