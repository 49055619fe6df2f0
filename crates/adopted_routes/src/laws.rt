//! What holds of routes that may be adopted: the contract is the law, and the body is empty.

ghost use Rattle.adopted_routes.specs.Adopting.{AdoptableIsOfHosts, RefusedExactly};

/// Routes that a host may adopt go from hosts to hosts, and each host's table fits into sixteen parts.
pub fn adoptable_routes_are_of_hosts()
    ensures { AdoptableIsOfHosts }
{}

/// Routes are refused exactly where they may not be adopted.
#[tactic(auto, using(crate::proofs::Refusals::refused_exactly))]
pub fn refused_routes()
    ensures { RefusedExactly }
{}
