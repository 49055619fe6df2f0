//! Routes are adopted, and parts of them staged.

ghost use Rattle.std.specs.Prelude.{◌≡◌, true, Some, IfOk, IfSome, OnOk, OnErr, if◌then◌else◌};
ghost use Rattle.world_defs.specs.Fault.{accept};
ghost use Rattle.world_defs.specs.Mapping.{is_part};
ghost use Rattle.port_graph.specs.Routes.{HandsBack};
ghost use Rattle.world_defs.specs.World.{host_count, standing_of, adopted_by};
ghost use Rattle.world_defs.specs.Step.{part_staged, stage_at};
ghost use Rattle.adopted_routes.specs.Adopting.{IsSetOfHosts, adopt_refusal};
ghost use Rattle.fab_world.specs.Events.{IsHostOf};

use super::Machine;
use adopted_routes::{AdoptRefusal, PartToSend};
use faulty_links::FaultyLinks;
use port_graph::RouteSet;
use std::alloc::{AllocError, Global};
use world_defs::Effect;

impl Machine {
    /// Adopts routes. Their adopter's table is theirs at once; where that begins an epoch, no cable is new any more.
    pub(crate) fn adopt(
        &mut self,
        alloc: Global,
        mapper: u16,
        set: RouteSet,
    ) -> Result<(), (RouteSet, AdoptRefusal)>
        requires { IsHostOf self.old mapper }
        ensures adopted { OnOk result (self.new ≡ adopted_by self.old mapper set) }
        ensures refused { HandsBack (adopt_refusal (standing_of self.old) set self.old.adopted)
            AdoptRefusal.NoMemory set result }
        ensures unchanged { OnErr result (self.new ≡ self.old) }
    {
        let standing = self.standing();
        let keeps = self.adopted.keeps(&set, standing);
        let table = self.adopted.adopt(alloc, mapper, set, standing)?;
        begin_epoch(&mut self.links, keeps);
        let at = usize::from(mapper);
        self.hosts[at].take_table(table);
        self.marks.mark(at);
        Ok(())
    }

    /// Stages a part of a host's table at the adopter. Idle where no routes are adopted, or they have no such part.
    #[tactic(auto, unfolding(world_defs::specs::Step::part_staged))]
    pub(crate) fn part(&mut self, alloc: Global, dst: u16, part: u8) -> Result<Effect, AllocError>
        requires { IfSome self.old.adopted (IsSetOfHosts (host_count self.old)) }
        ensures ok { IfOk result (λ x. part_staged self.old dst part ≡ (x, self.new)) }
        ensures err { OnErr result (self.new ≡ self.old) }
    {
        match self.adopted.part(alloc, dst, part)? {
            Some(sent) => Ok(self.stage_part(sent)),
            None => Ok(Effect::Idle),
        }
    }

    // The adopter stages a part.
    fn stage_part(&mut self, sent: PartToSend) -> Effect
        requires there { IsHostOf self.old sent.mapper }
        requires part { is_part sent.part ≡ true }
        ensures { stage_at self.old sent.mapper (Some sent.part) (Some sent.by) ≡ (result, self.new) }
    {
        let PartToSend { mapper, part, by } = sent;
        let at = usize::from(mapper);
        self.hosts[at].part(part, by);
        self.marks.mark(at);
        Effect::Staged
    }
}

// Where an epoch begins, no cable is new any more.
fn begin_epoch(links: &mut FaultyLinks, keeps: bool)
    ensures { links.new ≡ (if keeps then links.old else record links.old { links = accept links.old.links }) }
{
    if !keeps {
        links.accept_cables();
    }
}
