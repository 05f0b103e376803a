// The payloads of a linked file as one stream of bytes: where a position stands, and bytes gathered into blocks that are added at the end.
#![tactic(auto)]

mod reading;
mod writing;

ghost use Rattle.stream.specs.Spot.{Standing};

use pack::{BlockNo, Geometry};
pub use reading::{byte_at, bytes_in, locate};
pub use writing::{ask_write, full_blocks, lay, lay_all, lay_bytes, lay_within};

// A place in the payloads: a block and how many blocks there are from this one on; and, where there are any, the place of a byte in the image,
// and of the end of the block. Going on by a byte is then an addition.
#[derive(Clone, Copy)]
pub struct Spot {
    pub block: BlockNo,
    pub left: usize,
    pub at: usize,
    pub end: usize,
}

// What is still to be read of a linked file: its payloads from a spot on.
#[derive(Clone, Copy)]
pub struct Tail<'a> {
    pub img: &'a [u8],
    pub g: Geometry,
    pub spot: Spot,
    ghost standing: { Standing img.now g spot },
}

// Bytes on their way into a file: how many the gather buffer holds, and a block from which on none is free.
#[derive(Clone, Copy)]
pub struct Filling {
    pub filled: usize,
    pub from: BlockNo,
}
