//! What holds of every body, connection and size: each function's contract is the law, and its body is empty.

ghost use Rattle.gm_defs.specs.Laws.{FrameIsRead, AckIsRead, FrameWasWritten, AckWasWritten, StartingIsSender};
ghost use Rattle.gm_defs.specs.Laws.{SendingStays, AcknowledgingStays, ExpiringStays, OfferingStays, SizeIsLeast};
ghost use Rattle.gm_defs.specs.Laws.{NoSizeAbove, PiecesMakeMessage, ShortIsOnePiece, NextFragment, NoneBelowFirst};
ghost use Rattle.gm_defs.specs.Laws.{MoreIsSent, AllBelowLast, TakenInTwoCases};

/// Bytes that were written are read as what they are.
pub fn bodies_are_read()
    ensures frame { FrameIsRead }
    ensures acknowledgement { AckIsRead }
{}

/// And bytes that are read were written so.
pub fn bodies_were_written()
    ensures frame { FrameWasWritten }
    ensures acknowledgement { AckWasWritten }
{}

/// The four numbers of a sender stay in order.
pub fn senders_stay()
    ensures starting { StartingIsSender }
    ensures sending { SendingStays }
    ensures acknowledging { AcknowledgingStays }
    ensures expiring { ExpiringStays }
    ensures offering { OfferingStays }
{}

/// The size for a length is the least that has room for it.
pub fn sizes_are_least()
    ensures least { SizeIsLeast }
    ensures none { NoSizeAbove }
{}

/// A message is its pieces end to end, and one that is short enough is one piece.
pub fn messages_of_pieces()
    ensures whole { PiecesMakeMessage }
    ensures one { ShortIsOnePiece }
{}

/// What lies below a number of a connection: messages that are whole, the beginning of the next, and nothing else.
pub fn fragments_by_number()
    ensures next { NextFragment }
    ensures none { NoneBelowFirst }
    ensures more { MoreIsSent }
    ensures all { AllBelowLast }
{}

/// A port takes a fragment where it begins a message with a token that is free for it, or goes on with one.
pub fn fragments_at_ports()
    ensures { TakenInTwoCases }
{}
