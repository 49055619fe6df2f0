//! What the world is: all hosts and links of a fabric with their clients, what each event does to them, and what
//! holds at every moment; and what may happen to it: acts, which are events, plans of faults and adoptions of routes.
//!
//! This crate holds definitions, the types of events and effects, and worked examples. It runs no world.
//!
//! | file of `specs/` | says |
//! |---|---|
//! | `World`, `Node`, `Lane`, `Table` | the state: of all, of a host, of its connections with a peer of one priority, of its routes |
//! | `Client` | the tokens that a client holds, and its calls |
//! | `Hearing` | what a host makes of a packet that reaches it |
//! | `Step` | one event: its effect, and the world after it |
//! | `Acts` | what an act does, when it may happen, and what it is that every moment is sound |
//! | `Drain`, `Settle`, `Asking`, `Install` | what drains, settles, asks and installations are made of |
//! | `Log`, `Logs` | what a log is, and its words; a drain, a clear, a settle, an ask and an installation, said with them |
//! | `Row` | events in a row from one world to another, and a part of the way along them |
//! | `Traffic`, `Sound`, `Settled` | lawful and honest packets, what is sound at a moment, settled connections |
//! | `Cables` | which events may change the cables |
//! | `Examples`, `ActExamples`, `Cuts` | worlds and acts for worked examples |
//!
//! ```text
//!   host a                                      host b
//!   +---------------------------+               +---------------------------+
//!   | staged  reply  part_ack   |   channels    | staged  reply  part_ack   |
//!   | table   lanes  ports 0..7 |==============>| table   lanes  ports 0..7 |
//!   | clients' tokens           |<==============| clients' tokens           |
//!   +---------------------------+     limbo     +---------------------------+
//! ```
//!
//! Its cables come and go, and each has its number for life, the change that plugged it and the one that pulled it, so
//! that the fabric as it stands and as it stood are read off one list: `specs/History.antt` says what a history is and
//! what changes it, `specs/Crossed.antt` which channels it has, `specs/Fewer.antt` what walks over fewer cables keep of
//! walks over more, `specs/Later.antt` what later changes keep.
//!
//! ```text
//!   changes          0          1 pull         2 plug        accept
//!   cable 0     a === s     a === s        a === s       a === s
//!   cable 1     b === s        -              -             -         channels 2 and 3, for life
//!   cable 2        -           -           b === s new   b === s      channels 4 and 5
//! ```
//!
//! The link machine is channels that hold one packet each, limbo, the step of a channel, and what a cable may do to a
//! packet. `specs/Links.antt` says what the links of a fabric are, `specs/Switch.antt` where a switch sends a packet,
//! `specs/Advance.antt` what a step does, `specs/Fault.antt` what a loss, a copy, a delay, a flip and a replay do, and
//! what a pulled and a plugged cable, and `specs/Hops.antt` how far packets may still go.
//!
//! ```text
//!            channel 0 ->            channel 3 ->
//!   host a ================ switch ================ host b
//!            <- channel 1            <- channel 2
//! ```
//!
//! The bodies of the mapper's protocol are bytes, by `specs/Mapping.antt`; `probe` and `route_parts` read them.
//!
//! ```text
//!   host probe       1 | number (8) | mapper (2) | n | n route bytes of the way back
//!   host reply       2 | number (8) | host (2)
//!   loopback probe   3 | number (8) | mapper (2)
//!   part             4 | epoch (4) | mapper (2) | host (2) | part | parts | way back | count | entries
//!   acknowledgement  5 | epoch (4) | host (2) | part
//! ```
#![tactic(auto)]

mod act_examples;
mod applied;
mod arrival;
mod body_examples;
mod body_laws;
mod cable_examples;
mod cable_laws;
mod client;
mod cuts;
mod effect;
mod event;
mod examples;
mod fault;
mod heard;
mod link_examples;
mod link_laws;
mod moved;
mod replayed;
mod standing;
mod turned;
mod wire;

pub use act_examples::{flips_that_may_happen, routes_that_may_be_adopted, sound_moment_of_acts};
pub use applied::Applied;
pub use arrival::Arrival;
pub use body_examples::bodies_of_mapping;
pub use body_laws::mapping_is_read;
pub use cable_examples::{cables_of_two_hosts, pulled_and_plugged};
pub use cable_laws::{
    ends_for_life, fewer_cables, first_histories, kept_histories, later_changes, the_past,
};
pub use client::ClientCause;
pub use cuts::{
    broken_routes, cable_renewed, map_while_a_cable_goes, new_cables, planned_pulls,
    pulls_and_plugs, pulls_take_packets, traffic_of_cut_routes,
};
pub use effect::{Cause, Effect, Said};
pub use event::Event;
pub use examples::{
    asks_of_the_map, flipped_route_byte, installation, lanes_of_peers, message_of_two_fragments,
    message_waits_for_a_token, plans_for_one_injection, priority_passes, settled_worlds,
    soundness_of_moments, step_by_step, three_messages, traffic_of_one_frame, two_epochs,
};
pub use fault::Fault;
pub use heard::Heard;
pub use link_examples::{
    aims, blocked_packets, changed_cables, dropped_packets, faults, flips,
    packet_to_the_other_host, places_of_lone_packets,
};
pub use link_laws::{
    falling_hops, idle_steps, kept_by_steps, limbo_in_order, lone_packets, stuck_links, true_marks,
};
pub use moved::{Course, Moved, Why};
pub use replayed::Replayed;
pub use standing::Standing;
pub use turned::Turned;
pub use wire::Wire;
