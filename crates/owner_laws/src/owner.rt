//! The owners of tokens: `specs/Owned.antt` has the statement.

ghost use Rattle.owner_laws.specs.Owned.{TokensHaveOneOwner};

/// Each token of an open port has one owner, whatever happens.
pub fn tokens_have_one_owner()
    ensures one_owner { TokensHaveOneOwner }
{}
