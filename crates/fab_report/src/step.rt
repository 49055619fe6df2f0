//! What one event did.

ghost use Rattle.std.specs.Prelude.{◌≡◌, ◌++◌, ◌∷◌, [], OnOk, IsTrue, codes, decimal};
ghost use Rattle.net_defs.specs.Network.{has_vertex};
ghost use Rattle.fab_text.specs.Written.{spaced};
ghost use Rattle.run_defs.specs.LineRows.{cause_word, heard_word};
ghost use Rattle.run_defs.specs.LineText.{words_in};
ghost use Rattle.line_table.specs.Form.{EndAt, words_of_value};
ghost use Rattle.run_defs.specs.declared.line.Line.TheVariants.{Step};
ghost use Rattle.run_defs.specs.declared.line.StepWords.TheVariants.{Arrived};
ghost use Rattle.fab_report.specs.There.{AreWordsOf, IsHost};

use line_writing::Word::{Number, Text};
use line_writing::append_words;
use port_graph::{End, Fabric, Vertex};
use run_defs::StepWords;
use std::alloc::AllocError;
use world_defs::{Cause, Heard};

/// `step EFFECT`
pub(crate) fn step_line(text: &mut Vec<u8>, f: &Fabric, words: StepWords) -> Result<(), AllocError>
    requires { AreWordsOf f.now words }
    ensures { OnOk result (text.new.items ≡ text.old.items ++ spaced (words_in f.now (Step words))) }
{
    match words {
        StepWords::Idle => alone_line(text, b"idle"),
        StepWords::Injected(number) => number_line(text, b"injected", number),
        StepWords::Moved(e) => end_line(text, f, b"moved", e),
        StepWords::Blocked(e) => end_line(text, f, b"blocked", e),
        StepWords::Arrived(host, heard) => arrived_line(text, f, host, heard),
        StepWords::Dropped(cause) => dropped_line(text, cause),
        StepWords::Lost => alone_line(text, b"lost"),
        StepWords::Reset => alone_line(text, b"reset"),
        StepWords::Flipped => alone_line(text, b"flipped"),
        StepWords::Expired => alone_line(text, b"expired"),
        StepWords::GaveUp => alone_line(text, b"gaveup"),
        StepWords::Repeated(serial) => number_line(text, b"repeated", serial),
        StepWords::Held(serial) => number_line(text, b"held", serial),
        StepWords::Replayed(e) => end_line(text, f, b"replayed", e),
    }
}

// `step WORD`
fn alone_line(text: &mut Vec<u8>, word: &[u8]) -> Result<(), AllocError>
    ensures { OnOk result (text.new.items ≡ text.old.items ++ spaced (codes "step" ∷ word.now ∷ [])) }
{
    append_words(text, &[Text(b"step"), Text(word)])
}

// `step WORD NUMBER`
fn number_line(text: &mut Vec<u8>, word: &[u8], number: u64) -> Result<(), AllocError>
    ensures { OnOk result (text.new.items ≡ text.old.items ++ spaced (codes "step" ∷ word.now ∷ decimal number ∷ [])) }
{
    append_words(text, &[Text(b"step"), Text(word), Number(number)])
}

// `step WORD NAME PORT`
fn end_line(text: &mut Vec<u8>, f: &Fabric, word: &'static [u8], e: End) -> Result<(), AllocError>
    requires { IsTrue (has_vertex f.now e.v) }
    ensures { OnOk result (text.new.items ≡ text.old.items
        ++ spaced (codes "step" ∷ word.now ∷ words_of_value f.now (EndAt e))) }
{
    let name = Text(f.name_of(e.v));
    let port = Number(u64::from(e.p));
    append_words(text, &[Text(b"step"), Text(word), name, port])
}

// `step arrived NAME HEARD`
fn arrived_line(text: &mut Vec<u8>, f: &Fabric, host: u16, heard: Heard) -> Result<(), AllocError>
    requires { IsHost f.now host }
    ensures { OnOk result (text.new.items ≡ text.old.items
        ++ spaced (words_in f.now (Step (Arrived host heard)))) }
{
    let name = Text(f.name_of(Vertex::Host(host)));
    let heard = Text(word_of(heard));
    append_words(text, &[Text(b"step"), Text(b"arrived"), name, heard])
}

// `step dropped CAUSE`
fn dropped_line(text: &mut Vec<u8>, cause: Cause) -> Result<(), AllocError>
    ensures { OnOk result (text.new.items ≡ text.old.items
        ++ spaced (codes "step" ∷ codes "dropped" ∷ cause_word cause ∷ [])) }
{
    let cause = Text(cause_of(cause));
    append_words(text, &[Text(b"step"), Text(b"dropped"), cause])
}

// What a host heard, in one word.
fn word_of(heard: Heard) -> &'static [u8]
    ensures { result.now ≡ heard_word heard }
{
    match heard {
        Heard::Probe => b"probe",
        Heard::Reply { number: _, host: _ } => b"reply",
        Heard::Loop { number: _ } => b"loop",
        Heard::Routes => b"routes",
        Heard::RoutesAck {
            epoch: _,
            host: _,
            part: _,
        } => b"routesack",
        Heard::Message => b"message",
        Heard::Fragment => b"fragment",
        Heard::NotNext => b"notnext",
        Heard::NoToken => b"notoken",
        Heard::Ack => b"ack",
    }
}

// Why a packet was dropped, in one word.
fn cause_of(cause: Cause) -> &'static [u8]
    ensures { result.now ≡ cause_word cause }
{
    match cause {
        Cause::OutOfRange => b"outofrange",
        Cause::NotRoute => b"notroute",
        Cause::NoCable => b"nocable",
        Cause::NewCable => b"newcable",
        Cause::BadCrc => b"badcrc",
        Cause::RouteLeft => b"routeleft",
        Cause::UnknownType => b"unknowntype",
        Cause::Malformed => b"malformed",
        Cause::NotMine => b"notmine",
    }
}
