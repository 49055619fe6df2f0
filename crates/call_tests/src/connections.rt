//! A pair of a sender and a receiver, and a sender at its last number.

use gm_conn::{Desc, OfferRefusal, Pair, PairEvent, Sender};
use std::alloc::Global;
use std::test::Fail;

#[test]
fn a_message_is_taken_once_it_is_delivered(rt: HostRuntime) -> Result<(), Fail> {
    let mut pair = Pair::new(rt.alloc(), 0, 1, 0);
    pair.step(PairEvent::Offer { total: 1 })?;
    pair.step(PairEvent::Emit)?;
    pair.step(PairEvent::Deliver {
        packet: 0,
        fits: true,
    })?;
    assert!(rt; pair.taken().len() == 1);
    Ok(())
}

// The first number of a message of one byte whose connection begins at the last number, what a second one is refused
// for, how many messages the acknowledgement of the first finishes, and how many fragments are then unacknowledged.
fn told_of_the_last_number(
    alloc: Global,
) -> Result<(u32, Result<(), OfferRefusal>, u32, u32), OfferRefusal> {
    let mut sender = Sender::starting(alloc, 0, 1, 0, 4_294_967_294);
    sender.reserve(1)?;
    let first = sender.offer(Desc {
        ticket: 0,
        sport: 2,
        dport: 2,
        prio: 0,
        total: 1,
    });
    let second = sender.reserve(1);
    sender.mark_sent();
    let finished = sender.on_ack(4_294_967_295);
    Ok((first, second, finished, sender.unacked()))
}

#[test]
fn the_last_number_is_used_and_no_later_one(rt: HostRuntime) {
    let told = told_of_the_last_number(rt.alloc());
    assert!(rt; told == Ok((4_294_967_294, Err(OfferRefusal::Spent), 1, 0)));
}
