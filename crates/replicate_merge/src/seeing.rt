//! The frames of nodes as callers see them, all at once.

ghost use Rattle.std.specs.Prelude.{◌≡◌, ◌<◌, ℕ, length, map, set};
ghost use Rattle.net_defs.specs.Turn.{IsTurn};
ghost use Rattle.replicate_merge.specs.Heads.{AreSeen, seen_frame};
ghost use Rattle.replicate_merge.specs.Ways.{frame_at};

use crate::heads::Head;
use port_align::ClassFrame;

/// What callers see of a frame, by the heads of classes.
pub(crate) fn seen(heads: &[Head], frame: ClassFrame) -> ClassFrame
    requires named { frame.class < length heads.now }
    requires turn { IsTurn (seen_frame heads.now frame).offset }
    ensures { result ≡ seen_frame heads.now frame }
{
    let head = heads[frame.class as usize];
    ClassFrame {
        class: head.number,
        offset: frame.offset - head.base,
    }
}

/// Puts in place of each frame what callers see of it.
pub(crate) fn see_all(heads: &[Head], frames: &mut Vec<ClassFrame>)
    requires { AreSeen heads.now frames.old.items }
    ensures { frames.new.items ≡ map (seen_frame heads.now) frames.old.items }
{
    for node in 0..frames.len() {
        see(heads, frames, node);
    }
}

// Puts in place of the frame of a node what callers see of it.
fn see(heads: &[Head], frames: &mut Vec<ClassFrame>, node: usize)
    requires there { node < length frames.old.items }
    requires named { (frame_at frames.old.items node).class < length heads.now }
    requires turn { IsTurn (seen_frame heads.now (frame_at frames.old.items node)).offset }
    ensures { frames.new.items ≡ set frames.old.items node (seen_frame heads.now (frame_at frames.old.items node)) }
{
    let frame = frames[node];
    frames[node] = seen(heads, frame);
}
