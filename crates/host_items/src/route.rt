//! The turns of ways back.

ghost use Rattle.std.specs.Prelude.{◌≡◌, ◌<◌, ◌≤◌, ◌+◌, ◌*◌, ◌++◌, ◌∷◌, length, take, drop, slice_index_or, pos};
ghost use Rattle.std.specs.Prelude.{neg_ℤ, All};
ghost use Rattle.net_defs.specs.Turn.{IsTurn};
ghost use Rattle.world_defs.specs.Node.{way_back};

// The turn the other way.
#[tactic(auto, using(crate::proofs::Ways::opposite_turn))]
fn opposite(turn: i8) -> i8
    requires { IsTurn turn }
    ensures value { result ≡ neg_ℤ turn }
    ensures turn { IsTurn result }
{
    -turn
}

/// The turn at a place, the other way.
pub(crate) fn opposite_at(turns: &[i8], at: usize) -> i8
    requires there { at < length turns.now }
    requires turns { All IsTurn turns.now }
    ensures value { result ≡ neg_ℤ (slice_index_or turns.now at (pos 0)) }
    ensures turn { IsTurn result }
{
    opposite(turns[at])
}
