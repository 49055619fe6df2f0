//! What holds of every sender and every pair: each function's contract is the law, and its body is empty.

ghost use Rattle.gm_conn.specs.Laws.{PairInOrder, DueIsOfMessage};

/// After every list of events the messages taken whole are a prefix of those offered, and the numbers are in order.
pub fn pair_in_order()
    ensures { PairInOrder }
{}

/// A sender whose descriptors are of the messages that were sent has due the frame of the message of that number.
pub fn due_is_of_message()
    ensures { DueIsOfMessage }
{}
