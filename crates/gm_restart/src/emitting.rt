//! What an end emits.

ghost use Rattle.std.specs.Prelude.{◌≡◌, is_some, option_map, true, false, Some, IfOk, OnErr};
ghost use Rattle.duo_defs.specs.Emitting.{says_hello, hello_of, data_of, ack_emission, frame_emission, due_frame};
ghost use Rattle.duo_defs.specs.Emitting.{emission};
ghost use Rattle.duo_defs.specs.Theorem.{IsWaiting};
ghost use Rattle.gm_restart.specs.End.{in_state};

use crate::end::End;
use duo_defs::Packet;
use gm_defs::Blob;
use gm_frame::{encode_ack, encode_frame};
use gm_tokens::NoMemory;
use std::alloc::Global;

impl End {
    /// Whether it has something to emit.
    pub(crate) fn emits(&self) -> bool
        ensures { result ≡ is_some (emission self.now.host self.now.state) }
    {
        self.says_hello() || self.lane.owes() || self.lane.is_due()
    }

    // Whether the next that it emits is a hello.
    fn says_hello(&self) -> bool
        ensures { result ≡ says_hello self.now.state }
    {
        self.known == 0 || self.owes_hello
    }

    /// Emits a hello, else the acknowledgement that it owes, else the frame that is due.
    pub(crate) fn emit(&mut self, alloc: Global) -> Result<Packet, NoMemory>
        requires emits { is_some (emission self.old.host self.old.state) ≡ true }
        requires waiting { IsWaiting self.old.state.port self.old.state.present.lane }
        ensures ok { IfOk result (λ p. emission self.old.host self.old.state ≡ Some (p, self.new.state)) }
        ensures host { self.new.host ≡ self.old.host }
        ensures err { OnErr result (self.new ≡ self.old) }
    {
        if self.says_hello() {
            Ok(self.emit_hello())
        } else if self.lane.owes() {
            self.emit_ack(alloc)
        } else {
            self.emit_frame(alloc)
        }
    }

    // Emits a hello.
    fn emit_hello(&mut self) -> Packet
        ensures packet { result ≡ hello_of self.old.host self.old.state }
        ensures after { self.new ≡ in_state self.old (record self.old.state { owes_hello = false }) }
    {
        self.owes_hello = false;
        Packet::Hello {
            src: self.host as u8,
            inc: self.inc,
            knows: self.known,
        }
    }

    // Emits the acknowledgement of what it took.
    fn emit_ack(&mut self, alloc: Global) -> Result<Packet, NoMemory>
        ensures ok { IfOk result (λ p. ack_emission self.old.host self.old.state ≡ (p, self.new.state)) }
        ensures host { self.new.host ≡ self.old.host }
        ensures err { OnErr result (self.new ≡ self.old) }
    {
        let body = encode_ack(alloc, &self.lane.ack())?;
        self.lane.answered();
        Ok(self.data(body))
    }

    // Emits the frame of the number that is due, whose message stands at that place.
    fn emit_frame(&mut self, alloc: Global) -> Result<Packet, NoMemory>
        requires due { is_some (due_frame self.old.host self.old.state) ≡ true }
        requires waiting { IsWaiting self.old.state.port self.old.state.present.lane }
        ensures ok { IfOk result (λ p. option_map (frame_emission self.old.host self.old.state)
            (due_frame self.old.host self.old.state) ≡ Some (p, self.new.state)) }
        ensures host { self.new.host ≡ self.old.host }
        ensures err { OnErr result (self.new ≡ self.old) }
    {
        match self.lane.due() {
            Some(due) => {
                let head = due.head;
                let message = &self.lane.sent()[head.seq as usize];
                let body = encode_frame(alloc, &head, message.body.bytes())?;
                self.lane.sent_one();
                Ok(self.data(body))
            }
            None => unreachable!(),
        }
    }

    // A body from its incarnation to the one that it knows of its peer.
    fn data(&self, body: Vec<u8>) -> Packet
        ensures { result ≡ data_of self.now.host self.now.state body.items }
    {
        Packet::Data {
            src: self.host as u8,
            src_inc: self.inc,
            dst_inc: self.known,
            body: Blob::new(body),
        }
    }
}
