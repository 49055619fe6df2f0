//! A worked example, computed by the prover: the function's contract is the example, and its body is empty.

ghost use Rattle.std.specs.Prelude.{◌≡◌, ◌++◌};
ghost use Rattle.fabric_gen.specs.Text.{gen_text};
ghost use Rattle.fabric_gen.specs.Examples.{two_hosts_mapped, two_hosts_called};

/// The text of two hosts and the seed 0.
pub fn text_of_two_hosts()
    ensures { gen_text 2 0 ≡ two_hosts_mapped ++ two_hosts_called }
{}
