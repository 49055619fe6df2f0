//! What a body of type 0x0008 says.

ghost use Rattle.std.specs.Prelude.{◌≡◌, ◌≤◌};
ghost use Rattle.gm_defs.specs.Body.{message_limit, is_last};
ghost use Rattle.gm_defs.specs.Fragment.{piece_count};

/// The most bytes of a fragment.
pub const PIECE: u32 = 1_016;

/// How many fragments a message of so many bytes has: at most 65, and an empty one has one.
pub fn piece_count(total: u32) -> u32
    requires { total ≤ message_limit }
    ensures exact { result ≡ piece_count total }
    ensures few { result ≤ 65 }
{
    ((total + (PIECE - 1)) / PIECE).max(1)
}

/// A frame but for its bytes: one fragment of a message.
#[derive(Clone, Copy, Debug, PartialEq, Eq)]
pub struct FrameHead {
    /// The sending host.
    pub src: u16,
    /// The receiving host.
    pub dst: u16,
    /// The sending port, below 8.
    pub sport: u8,
    /// The receiving port, below 8.
    pub dport: u8,
    /// The priority of its message, 0 or 1.
    pub prio: u8,
    /// The fragment's number on its connection.
    pub seq: u32,
    /// The length of the whole message.
    pub total: u32,
    /// Where in the message the fragment begins.
    pub offset: u32,
    /// The length of the fragment.
    pub len: u16,
}

impl FrameHead {
    /// Whether the fragment is the last of its message.
    pub fn is_last(&self) -> bool
        ensures { result ≡ is_last self.now.total self.now.offset }
    {
        self.total.saturating_sub(self.offset) <= PIECE
    }
}

/// An acknowledgement: all fragments of its priority below `next` were taken.
#[derive(Clone, Copy, Debug, PartialEq, Eq)]
pub struct Ack {
    /// The host that acknowledges.
    pub src: u16,
    /// The host that sent the fragments.
    pub dst: u16,
    /// The priority of their messages, 0 or 1.
    pub prio: u8,
    /// The number of the fragment that is to be taken next.
    pub next: u32,
}

/// What a body says.
#[derive(Clone, Copy, Debug, PartialEq, Eq)]
pub enum GmBody {
    /// A fragment of a message.
    Frame(FrameHead),
    /// An acknowledgement of fragments.
    Ack(Ack),
}

/// Bytes that are no body.
#[derive(Clone, Copy, Debug, PartialEq, Eq)]
pub struct Malformed;

/// Which connection: from one host to another, of one priority.
#[derive(Clone, Copy, Debug, PartialEq, Eq)]
pub struct ConnectionKey {
    /// The host that sends frames.
    pub src: u16,
    /// The host that takes and acknowledges them.
    pub dst: u16,
    /// The priority of their messages, 0 or 1.
    pub prio: u8,
}
