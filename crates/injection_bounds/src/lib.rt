//! How many packets acts and runs may inject: each injection is paid for, and a run injects at most 2^26 for each of
//! its commands.
//!
//! A world has a credit: the fragments that are still to be sent, the acknowledgements that are owed, what hosts have
//! staged, the packets that ask for an answer, and the planned faults. An injection spends it. Only a few acts bring
//! some, each a bounded amount: a staged probe or part, an accepted message, a plan, a copy, a flip, an expiry. Drains,
//! clears and replays bring none. The rounds of settles are paid by the fragments that were accepted and by the faults
//! that were planned, wherever in the run these stand. Read `specs/Paid.antt` first.
//!
//! | file of `specs/` | says |
//! |---|---|
//! | `Credit` | what a world has in store to inject |
//! | `Paid` | what each act brings, and that injections are paid for |
//! | `Settled` | that a settle costs one round: what is left to acknowledge pays for all others |
//! | `Commands` | the most that an act, an ask and an installation cost |
//! | `Runs` | the most that a run injects |
//!
//! ```text
//!   Ask, Part, Send, Expire, Plan, Repeat, Flip --> credit --> Inject
//!                                                     ^          |
//!                                  answers are owed --+----------'
//! ```
#![tactic(auto)]

mod injections;
mod laws;

pub use injections::{
    act_costs, ask_costs, injections_of_acts, install_costs, paid_injections, settle_costs,
};
pub use laws::runs_inject_few;
