//! What holds of the messages of every run: each function's contract is the law, and its body is empty.

ghost use Rattle.fabric_gen.specs.Laws.{HasRoom, GoesOn, HasOneSender};

/// Each message has a buffer of the least size that has room for it.
pub fn messages_have_room()
    ensures { HasRoom }
{}

/// Each message goes to another host, and no two messages of one number to the same.
pub fn messages_go_on()
    ensures elsewhere { GoesOn }
    ensures apart { HasOneSender }
{}
