//! Sends come back to their client, finished or not.

ghost use Rattle.std.specs.Prelude.{◌≡◌, ◌≤◌, ◌<◌, ◌+◌, ◌^◌, ◌++◌, length, take};
ghost use Rattle.std.specs.VecDeque.{deque_capacity};
ghost use Rattle.duo_defs.specs.Hearing.{finished_all, returned_from};
ghost use Rattle.duo_defs.specs.Theorem.{AreWaiting};
ghost use Rattle.port_client.specs.Serving.{in_state};

use crate::period::Back;
use gm_conn::Lane;
use port_client::ClientPort;
use std::collections::VecDeque;

/// How sends come back: which incarnation of the peer their messages are counted to, where the first of these stands
/// among those sent to it, and whether they weren't acknowledged.
#[derive(Clone, Copy)]
pub(crate) struct Manner {
    pub(crate) known: u32,
    pub(crate) first: usize,
    pub(crate) unsure: bool,
}

/// So many of a lane's sends, those that wait longest, leave the port's queue for its events. Takes no memory.
pub(crate) fn give_back(
    held: &mut ClientPort,
    returned: &mut VecDeque<Back>,
    lane: &Lane,
    count: usize,
    manner: Manner,
)
    requires count { count ≤ length lane.now.state.pending }
    requires waiting { AreWaiting held.old.state (take count lane.now.state.pending) }
    requires room { length returned.old.items + count ≤ deque_capacity returned.old }
    requires places { manner.first + count < 2 ^ 63 }
    ensures port { held.new ≡ in_state held.old
        (finished_all held.old.state (take count lane.now.state.pending)) }
    ensures returned { returned.new.items ≡ returned.old.items
        ++ returned_from manner.known manner.unsure manner.first (take count lane.now.state.pending) }
{
    for at in 0..count {
        match lane.pending(at) {
            Some(ticket) => {
                let token = ticket.token();
                held.finish(token);
                returned.push_back_reserved(Back {
                    token,
                    known: manner.known,
                    place: manner.first + at,
                    unsure: manner.unsure,
                });
            }
            None => unreachable!(),
        }
    }
}
