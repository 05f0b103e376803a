// Reading the payloads of a linked file from a position on, byte by byte.
ghost use Rattle.std.specs.Prelude.{◌≡◌, ◌∷◌, ℕ, ◌+◌, ◌*◌, ◌-◌, ◌≤◌, ◌<◌, length, get_or, drop};
ghost use Rattle.pack.specs.GeometrySized.{most_segments};
ghost use Rattle.pack.specs.Geometry.{payload_bytes};
ghost use Rattle.pack.specs.File.{link_of, blocks_of, count};
ghost use Rattle.bodies.specs.Payloads.{payloads_of};
ghost use Rattle.stream.specs.Spot.{payloads_from, Chained};
ghost use Rattle.stream.specs.Tail.{rest, ReadFrom};

use crate::{Spot, Tail};
use pack::{BlockNo, Entry, Geometry, View};

// How many bytes the payloads of a linked file have.
pub fn bytes_in(g: Geometry, x: Entry) -> usize
    requires { (0 < g.segments.0) × (g.segments.0 ≤ most_segments) × (x.length < 65536) }
    ensures { result ≡ x.length * payload_bytes g }
{
    let segments = g.segments;
    x.length * (segments.bytes() - bodies::PAYLOAD)
}

// The payloads of so many blocks, without the first bytes.
fn enter(view: View<'_>, block: BlockNo, left: usize, offset: usize) -> Tail<'_>
    requires chained { Chained view.img.now view.g left block.0 }
    requires offset_bound { offset < payload_bytes view.g }
    ensures bytes { rest result ≡ drop offset (payloads_from view.entry.img.now view.entry.g left block.0) }
    ensures image { ReadFrom view.entry.img.now view.entry.g result }
{
    let img = view.img;
    let g = view.g;
    if left == 0 {
        return Tail {
            img,
            g,
            spot: Spot {
                block,
                left,
                at: 0,
                end: 0,
            },
        };
    }
    let segments = g.segments;
    let bytes = segments.bytes();
    let start = block.0 * bytes;
    Tail {
        img,
        g,
        spot: Spot {
            block,
            left,
            at: start + bodies::PAYLOAD + offset,
            end: start + bytes,
        },
    }
}

// A position counts bytes of the payloads, joined: it is less by one payload for each block that is passed.
pub fn locate(view: View<'_>, x: Entry, position: usize) -> Tail<'_>
    requires by_index { (z : ℕ) → 0 < count z (blocks_of view.img.now view.g x) → z < view.g.blocks }
    requires kind_value { (x.kind ≡ 2) × (position ≤ x.length * payload_bytes view.g) }
    ensures bytes { rest result ≡ drop position (payloads_of view.entry.img.now view.entry.g (blocks_of view.entry.img.now view.entry.g x)) }
    ensures image { ReadFrom view.entry.img.now view.entry.g result }
{
    let segments = view.g.segments;
    let payload = segments.bytes() - bodies::PAYLOAD;
    let mut block = x.first;
    let mut left = x.length;
    let mut offset = position;
    while payload <= offset {
        block = view.next_block(2, block);
        left -= 1;
        offset -= payload;
    }
    enter(view, block, left, offset)
}

pub fn byte_at(img: &[u8], spot: Spot) -> u8
    requires { spot.at < length img.now }
    ensures { result ≡ get_or img.now spot.at 0 }
{
    img[spot.at]
}

impl<'a> Tail<'a> {
    pub fn byte_at(self) -> u8
        requires { 0 < self.spot.left }
        ensures { result ≡ get_or self.entry.img.now self.entry.spot.at 0 }
    {
        byte_at(self.img, self.spot)
    }

    // One byte on.
    pub fn step(self) -> Self
        requires { 0 < self.spot.left }
        ensures bytes { rest self.entry ≡ get_or self.entry.img.now self.entry.spot.at 0 ∷ rest result }
        ensures image { ReadFrom self.entry.img.now self.entry.g result }
    {
        let img = self.img;
        let g = self.g;
        let spot = self.spot;
        let at = spot.at + 1;
        if at < spot.end {
            return Tail {
                img,
                g,
                spot: Spot { at, ..spot },
            };
        }
        let view = View { img, g };
        enter(view, view.next_block(2, spot.block), spot.left - 1, 0)
    }

    // The start of the next block's payload: one byte on from the last of this one.
    pub fn next_payload(self) -> Self
        requires { 0 < self.spot.left }
        ensures bytes { rest result ≡ payloads_from self.entry.img.now self.entry.g (self.entry.spot.left - 1) (link_of self.entry.img.now self.entry.g self.entry.spot.block.0) }
        ensures image { ReadFrom self.entry.img.now self.entry.g result }
    {
        let img = self.img;
        let g = self.g;
        let spot = self.spot;
        let last = Tail {
            img,
            g,
            spot: Spot {
                at: spot.end - 1,
                ..spot
            },
        };
        last.step()
    }

    // So many bytes on, of those that are left of the payload.
    pub fn go_on(self, count: usize) -> Self
        requires { (0 < self.spot.left) × (self.spot.at + count ≤ self.spot.end) }
        ensures bytes { rest result ≡ drop count (rest self.entry) }
        ensures image { ReadFrom self.entry.img.now self.entry.g result }
    {
        let img = self.img;
        let g = self.g;
        let spot = self.spot;
        let at = spot.at + count;
        if at < spot.end {
            return Tail {
                img,
                g,
                spot: Spot { at, ..spot },
            };
        }
        self.next_payload()
    }
}
