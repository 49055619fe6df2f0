//! What the medium carries.

use gm_defs::Blob;

/// A packet from one end to the other.
#[derive(Debug, Drop)]
pub enum Packet {
    /// The end says which incarnation it is, and which one of the hearer it knows.
    Hello {
        /// The end that says it, 0 or 1.
        src: u8,
        /// Its incarnation, from 1 on.
        inc: u32,
        /// The hearer's incarnation that it knows, 0 for none.
        knows: u32,
    },
    /// A frame or an acknowledgement, from one incarnation to another.
    Data {
        /// The end that it is from, 0 or 1.
        src: u8,
        /// That end's incarnation.
        src_inc: u32,
        /// The incarnation of the other end that it is for.
        dst_inc: u32,
        /// The bytes of the frame or of the acknowledgement.
        body: Blob,
    },
}
