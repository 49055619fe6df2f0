//! What holds of every bank: the function's contract is the law, and its body is empty.

ghost use Rattle.gm_tokens.specs.Minted.{MintedAreAll};

/// Minted tokens are all that their bank takes back: numbered below their count, each number once.
pub fn minted_are_all()
    ensures { MintedAreAll }
{}
