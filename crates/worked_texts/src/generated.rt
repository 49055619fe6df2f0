//! A generated text, whose run is one of the folder.

use crate::{Row, Tally, Wanted, compare};
use fabric_gen::gen_text;
use std::io;

const NAME: &str = "generated-two-hosts";

/// Compares the text that is generated for two hosts with the one of the folder.
pub fn try_generated(rt: &HostRuntime, tally: &mut Tally) -> io::Result<()> {
    let Some(row) = Row::read(rt, NAME)? else {
        return tally.fail(rt, NAME, &"it has no report");
    };
    let text = gen_text(rt.alloc(), 2, 0)?;
    let wanted = Wanted {
        status: 0,
        report: &row.text,
    };
    let name = format!(in rt.alloc(); "{NAME}, generated anew")?;
    tally.tell(rt, &name, &compare(rt.alloc(), wanted, 0, &text)?)
}
