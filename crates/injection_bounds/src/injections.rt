//! The laws: `specs/Paid.antt`, `Settled.antt` and `Commands.antt` have the statements.

ghost use Rattle.injection_bounds.specs.Paid.{InjectionsArePaid, InjectionsAreOfActs};
ghost use Rattle.injection_bounds.specs.Settled.{SettleCostsOneRound};
ghost use Rattle.injection_bounds.specs.Commands.{ActCostsFew, AskCostsFew, InstallCostsFew};

/// Acts inject no more packets than they and the credit of the world before them pay for.
pub fn paid_injections()
    ensures { InjectionsArePaid }
{}

/// From a fabric's new world on there are no more injections than acts paid for.
pub fn injections_of_acts()
    ensures { InjectionsAreOfActs }
{}

/// In every world that is reached a settle costs one round at most: all others are paid by the fragments that they
/// acknowledge and the faults that they meet.
pub fn settle_costs()
    ensures { SettleCostsOneRound }
{}

/// An ask of at most eight tries costs 32 at most: two for each try of each of its two kinds of probe.
pub fn ask_costs()
    ensures { AskCostsFew }
{}

/// An installation of at most eight tries costs 256 at most for each host, where each has at most sixteen parts.
pub fn install_costs()
    ensures { InstallCostsFew }
{}

/// An act costs no more than a message of the greatest length, and a round for each of its pieces.
pub fn act_costs()
    ensures { ActCostsFew }
{}
