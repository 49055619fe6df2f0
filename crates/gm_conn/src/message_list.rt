//! Messages in order, of which one alone takes no list.

ghost use Rattle.std.specs.Prelude.{◌≡◌, ◌++◌, ◌∷◌, [], OnOk};
ghost use Rattle.gm_conn.specs.MessageList.{HasRoom, IsOne, messages_in};

use gm_defs::Message;
use std::alloc::{AllocError, Global};
use std::mem;

// How many messages a list has room for at first.
const FIRST_ROOM: usize = 4;

/// Messages in order. Many lanes have no second one, so one alone lies in the lane itself.
#[derive(Drop)]
pub(crate) enum MessageList {
    /// None.
    None,
    /// One alone.
    One([Message; 1]),
    /// Any number, in a block of their own.
    Many(Vec<Message>),
}

impl MessageList {
    /// No messages, and room for one.
    pub(crate) fn new() -> MessageList
        ensures { messages_in result ≡ [] }
    {
        MessageList::None
    }

    /// Makes room for one message more.
    pub(crate) fn make_room(&mut self, alloc: Global) -> Result<(), AllocError>
        ensures items { messages_in self.new ≡ messages_in self.old }
        ensures room { OnOk result (HasRoom self.new) }
    {
        match self {
            MessageList::None => Ok(()),
            MessageList::One(_) => self.spread(alloc),
            MessageList::Many(list) => list.reserve(1),
        }
    }

    // The one message goes into a list with room for others.
    fn spread(&mut self, alloc: Global) -> Result<(), AllocError>
        requires { IsOne self.old }
        ensures items { messages_in self.new ≡ messages_in self.old }
        ensures room { OnOk result (HasRoom self.new) }
    {
        let mut list = Vec::with_capacity(alloc, FIRST_ROOM)?;
        match mem::replace(self, MessageList::None) {
            MessageList::One([message]) => {
                list.push_reserved(message);
                *self = MessageList::Many(list);
                Ok(())
            }
            MessageList::None => unreachable!(),
            MessageList::Many(_list) => unreachable!(),
        }
    }

    /// Adds a message, for which there is room.
    pub(crate) fn push_reserved(&mut self, message: Message)
        requires { HasRoom self.old }
        ensures { messages_in self.new ≡ messages_in self.old ++ message ∷ [] }
    {
        match self {
            MessageList::Many(list) => list.push_reserved(message),
            _ => *self = MessageList::One([message]),
        }
    }

    /// The messages.
    pub(crate) fn list(&self) -> &[Message]
        ensures { result.now ≡ messages_in self.now }
    {
        match self {
            MessageList::None => &[],
            MessageList::One(one) => one.as_slice(),
            MessageList::Many(list) => list.as_slice(),
        }
    }
}
