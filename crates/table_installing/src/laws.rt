//! What an adoption leaves for an installation: the contract is the law, and the body is empty.

ghost use Rattle.table_installing.specs.Installing.{AdoptedIsUnrevoked, AdoptedIsUnchanged};
ghost use Rattle.table_installing.specs.Installing.{AdoptedCanBeInstalled};

/// After an adoption no host has given up the epoch, and no cable came or went since. So the routes can be installed on
/// the hosts that they name, where no packet was on its way.
pub fn unrevoked_adoptions()
    ensures unrevoked { AdoptedIsUnrevoked }
    ensures unchanged { AdoptedIsUnchanged }
    ensures installable { AdoptedCanBeInstalled }
{}
