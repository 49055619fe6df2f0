//! A map made over a world, and what it prints.

ghost use Rattle.std.specs.Prelude.{◌≡◌, ◌≤◌, ◌<◌, ◌^◌, ◌∷◌, [], ℕ, true, false, Option, Some, IfOk};
ghost use Rattle.std.specs.Prelude.{IfSome, IfNone, IfErr, OnOk, OnErr};
ghost use Rattle.world_defs.specs.Links.{is_idle};
ghost use Rattle.world_defs.specs.History.{fabric_at};
ghost use Rattle.world_defs.specs.World.{fabric_of};
ghost use Rattle.map_canon.specs.Printing.{AreOfFabric};
ghost use Rattle.run_defs.specs.Output.{OneLine};
ghost use Rattle.run_defs.specs.Session.{LastRoutes};
ghost use Rattle.run_defs.specs.declared.command.Command.TheVariants.{Map};
ghost use Rattle.run_defs.specs.declared.line.Line.TheVariants.{MapBusy};
ghost use Rattle.run_defs.specs.declared.line.MapWords.TheVariants.{Complete};
ghost use Rattle.fab_report.specs.Printed.{printed_of};
ghost use Rattle.fab_report.specs.There.{IsHost};
ghost use Rattle.fab_script.specs.Ranges.{IsCommandOf};
ghost use Rattle.map_making.specs.Lines.{map_lines};
ghost use Rattle.world_commands.specs.Done.{session_of};
ghost use Rattle.promise_laws.specs.CutShort.{IsCutShort, IsBegunMap};
ghost use Rattle.run_session.specs.Kept.{IsKeptMap, IsLastMap, GoesOn};
ghost use Rattle.run_session.specs.Obeyed.{IsObeyed};
ghost use Rattle.run_session.specs.Told.{IsMadeOver, map_of};

use crate::last::LastMade;
use fab_report::Printed;
use fab_world::World;
use map_making::{MadeMap, make_map, print_made};
use run_defs::{Command, Line};
use std::alloc::{AllocError, Global};
use world_asking::WorldProber;
use world_commands::{OutOfMemory, one_line};

/// A map to be made: from which host, to how many cables, and how often a probe of each kind is tried.
#[derive(Clone, Copy)]
pub(crate) struct MapOrder {
    pub(crate) host: u16,
    pub(crate) depth: u8,
    pub(crate) tries: u8,
}

/// The map that a command makes: none for another command, and none while a channel holds a packet.
pub(crate) fn map_ordered(w: &World, c: &Command) -> Option<MapOrder>
    ensures made { IfSome result (λ m. (c.now ≡ map_of m) × (is_idle w.now.links ≡ true)) }
    ensures none { IfNone result ((host depth tries : ℕ) → c.now ≡ Map host depth tries → is_idle w.now.links ≡ false) }
{
    match c {
        Command::Map { host, depth, tries } => {
            if !w.links_idle() {
                return None;
            }
            Some(MapOrder {
                host: *host,
                depth: *depth,
                tries: *tries,
            })
        }
        _ => None,
    }
}

/// The refusal of a map while a channel holds a packet.
pub(crate) fn busy_text(printed: &mut Printed, w: &World, host: u16) -> Result<(), OutOfMemory>
    requires { IsHost (fabric_of w.now) host }
    ensures text { OnOk result (printed.new ≡ printed_of (fabric_of w.now) (OneLine (MapBusy host) ∷ [])) }
    ensures err { IfErr result (λ e. e ≡ OutOfMemory.InLine) }
{
    one_line(printed, Line::MapBusy(host), w.fabric())
}

/// Maps from a host of an idle world: the world then, and the text, unless memory ran out. The map is the last
/// one then. Running out of memory leaves the last map, and a world that a prefix of the map's acts leads to.
pub(crate) fn map(
    alloc: Global,
    world: World,
    last_map: &mut Option<LastMade>,
    order: MapOrder,
    printed: &mut Printed,
) -> (World, Result<(), OutOfMemory>)
    requires idle { is_idle world.links ≡ true }
    requires order { IsCommandOf (fabric_of world) (map_of order) }
    requires kept { IsLastMap world.links.cables last_map.old }
    ensures obeyed { OnOk result.1 ((found : Option LastRoutes)
        → IsObeyed (session_of world last_map.old found) (map_of order)
        (session_of result.0 last_map.new found) printed.new) }
    ensures kept { IsLastMap result.0.links.cables last_map.new }
    ensures cables { GoesOn world result.0 }
    ensures err { OnErr result.1 (last_map.new ≡ last_map.old) }
    ensures cut { OnErr result.1 ((found : Option LastRoutes)
        → IsCutShort (session_of world last_map.old found) (map_of order) result.0) }
    ensures doing { IfErr result.1 (λ e. e ≡ OutOfMemory.InDoing) }
{
    world.moment();
    let (world, mapping) = map_world(alloc, world, order);
    match mapping {
        Ok(mapping) => {
            let kept = keep_map(alloc, &world, order.host, mapping, last_map, printed);
            (world, kept)
        }
        Err(_) => (world, Err(OutOfMemory::InDoing)),
    }
}

// A map, how many packets its asks injected, and after how many changes of cables it began.
#[derive(Drop)]
struct Mapping {
    made: MadeMap,
    packets: u64,
    began: u64,
}

// Maps from a host of an idle world: the world then, and the map, unless memory ran out.
fn map_world(alloc: Global, world: World, order: MapOrder) -> (World, Result<Mapping, AllocError>)
    requires idle { is_idle world.links ≡ true }
    requires order { IsCommandOf (fabric_of world) (map_of order) }
    ensures mapped { IfOk result.1 (λ m. IsMadeOver order world result.0 m.made m.packets) }
    ensures of_fabric { IfOk result.1 (λ m. AreOfFabric (fabric_of world) m.made.map) }
    ensures began { IfOk result.1 (λ m. m.began ≡ world.links.cables.changes) }
    ensures cables { GoesOn world result.0 }
    ensures begun { OnErr result.1 (IsBegunMap order.host order.depth order.tries world result.0) }
{
    world.moment();
    let before = world.injected();
    let began = world.changes();
    let mut p = WorldProber::new(alloc, world, order.host, order.tries);
    let made = make_map(alloc, &mut p, order.depth);
    let world = p.into_world();
    match made {
        Ok(made) => {
            count_fits(made.asks);
            let packets = world.injected() - before;
            let mapping = Mapping {
                made,
                packets,
                began,
            };
            (world, Ok(mapping))
        }
        Err(wanting) => (world, Err(wanting)),
    }
}

// A count of asks has 64 bits.
const fn count_fits(_asks: u64)
    ensures { _asks < 2 ^ 64 }
{}

// The text of a map, which is the last one then.
fn keep_map(
    alloc: Global,
    w: &World,
    host: u16,
    mapping: Mapping,
    last_map: &mut Option<LastMade>,
    printed: &mut Printed,
) -> Result<(), OutOfMemory>
    requires host { IsHost (fabric_of w.now) host }
    requires hosts { AreOfFabric (fabric_of w.now) mapping.made.map }
    requires past { mapping.began ≤ w.now.links.cables.changes }
    requires right { mapping.made.words ≡ Complete
        → IsKeptMap (fabric_at w.now.links.cables mapping.began) host mapping.made.map }
    requires kept { IsLastMap w.now.links.cables last_map.old }
    ensures text { OnOk result (printed.new ≡ printed_of (fabric_of w.now)
        (map_lines host mapping.made mapping.packets)) }
    ensures last { OnOk result (last_map.new ≡ Some (record {
      mapper = host;
      words = mapping.made.words;
      made = mapping.made.map;
      began = mapping.began;
    })) }
    ensures kept { IsLastMap w.now.links.cables last_map.new }
    ensures err { OnErr result (last_map.new ≡ last_map.old) }
    ensures doing { IfErr result (λ e. e ≡ OutOfMemory.InDoing) }
{
    let Ok(told) = print_made(alloc, w.fabric(), host, &mapping.made, mapping.packets) else {
        return Err(OutOfMemory::InDoing);
    };
    *last_map = Some(LastMade {
        mapper: host,
        words: mapping.made.words,
        made: mapping.made.map,
        began: mapping.began,
    });
    *printed = told;
    Ok(())
}
