//! How a generated text is read: the function's contract is the law, and its body is empty.

ghost use Rattle.input_texts.specs.Generated.{EachIsAccepted};

/// Every generated text is accepted: its fabric part as the chain of switches with a host at each, and its script as
/// exactly its commands.
pub fn texts_are_accepted()
    ensures { EachIsAccepted }
{}
