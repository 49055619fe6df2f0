//! What each move of a token, between the client of a port and the port's places, makes of its owners: one before, one
//! after.
//!
//! It holds no token and no host: that each token has one owner after every list of acts is `owner_laws`, and after
//! every list of events of two hosts that restart is `duo_laws`. Read `specs/Moves.antt`.
//!
//! ```text
//!   client --- send ----> queue ---- acknowledged ----> event --- poll ---> client
//!   client -- provide --> buffer --- message taken ---> event --- poll ---> client
//! ```
#![tactic(auto)]

ghost use Rattle.token_moves.specs.Moves.{OpeningOwns, SendingKeeps, ProvidingKeeps, FinishingKeeps, DeliveringKeeps};
ghost use Rattle.token_moves.specs.Moves.{PollingSentKeeps, PollingReceivedKeeps};

/// The tokens of a port that opens have one owner each, and keep one wherever they go.
pub fn moves_keep_owners()
    ensures opening { OpeningOwns }
    ensures sending { SendingKeeps }
    ensures providing { ProvidingKeeps }
    ensures finishing { FinishingKeeps }
    ensures delivering { DeliveringKeeps }
    ensures polling_sent { PollingSentKeeps }
    ensures polling_received { PollingReceivedKeeps }
{}
