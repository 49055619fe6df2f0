//! Where memory ran out in a command.

ghost use Rattle.std.specs.Prelude.{◌≡◌, ◌∷◌, [], IfErr, OnOk};
ghost use Rattle.run_defs.specs.Output.{OneLine};
ghost use Rattle.fab_report.specs.Printed.{printed_of};
ghost use Rattle.fab_report.specs.There.{AreThere};

use fab_report::Printed;
use fab_world::Fabric;
use run_defs::Line;

/// Where memory ran out in a command.
#[derive(Clone, Copy, Debug, PartialEq, Eq)]
pub enum OutOfMemory {
    /// While it was done, or a text of several lines was made. It isn't refused, unless it is of the two hosts' lines.
    InDoing,
    /// In the text of its one line. A refused command runs out of memory here alone, unless it is of those lines.
    InLine,
}

/// A command's one line is printed, for which memory may run out. The line is done with: callers that make one need not
/// end it.
pub fn one_line(printed: &mut Printed, l: Line, f: &Fabric) -> Result<(), OutOfMemory>
    requires of_fabric { AreThere f.now l }
    ensures printed { OnOk result (printed.new ≡ printed_of f.now (OneLine l ∷ [])) }
    ensures err { IfErr result (λ e. e ≡ OutOfMemory.InLine) }
{
    let Ok(()) = printed.put_line(&l, f) else {
        return Err(OutOfMemory::InLine);
    };
    Ok(())
}
