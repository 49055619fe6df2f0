//! What is part of the way along a log: the worlds in which a drain, a clear, a settle, an ask or an installation
//! stops where memory runs out.
//!
//! It runs nothing: the calls are in `world_drain`, `world_asking` and `table_installing`, and each that runs out of
//! memory leaves a world that a prefix of its own log's events leads to. `specs/Row.antt` of `world_defs` says what
//! that is; `specs/Drains.antt` here, that a drain goes on pass by pass. The lemmas that loops cite stand in `proofs/`:
//! one file for what is repeated up to its last, and one for each log.
#![tactic(auto)]

ghost use Rattle.log_laws.specs.Drains.{DrainRests, DrainGoesOn};
ghost use Rattle.log_laws.specs.Leads.{DrainLeads, ClearLeads, SettleLeads, AskLeads, AsksLead, InstallLeads};
ghost use Rattle.log_laws.specs.Examples.{AskFindsHost, AskIsItsEvents};

/// A drain goes on after a pass that changes something, and rests after one that doesn't.
pub fn passes_of_drains()
    ensures rests { DrainRests }
    ensures goes_on { DrainGoesOn }
{}

/// The events of each log, of a drain, a clear, a settle, an ask, asks in a row and an installation, flip eight bits at
/// most, and lead to its world.
pub fn logs_lead()
    ensures drain { DrainLeads }
    ensures clear { ClearLeads }
    ensures settle { SettleLeads }
    ensures ask { AskLeads }
    ensures asks { AsksLead }
    ensures install { InstallLeads }
{}

/// An ask over two hosts at one switch finds the host, and its events are these.
pub fn worked_ask()
    ensures answer { AskFindsHost }
    ensures events { AskIsItsEvents }
{}
