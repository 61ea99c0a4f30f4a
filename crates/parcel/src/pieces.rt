//! The pieces of an image: what the tree holds, written as the bytes of its pieces and taken in from
//! them, one at a time, without allocating.
ghost use Rattle.std.specs.Prelude.{◌≡◌, ◌<◌, ◌≤◌, ℕ, length, None};
ghost use Rattle.image.specs.Pieces.{part_piece, piece_part_size};
ghost use Rattle.image.specs.declared.layout.TheConstants.{FIRST_VERSION, VERSION};
ghost use Rattle.image.specs.Pieces.{piece_count, piece_of, piece_size};
ghost use Rattle.meaning.specs.State.{State, IsState};
ghost use Rattle.parcel.specs.Fits.{FitsVolume};
ghost use Rattle.parcel.specs.Whole.{IsWholeVolume};
ghost use Rattle.parcel.specs.Volume.{HasFacts};
ghost use Rattle.parcel.specs.Pieces.{IsPieceOfVolumeRead, CanReadPiece, ReadsPiece};
ghost use Rattle.parcel.specs.Shown.{volume_facts};
ghost use Rattle.parcel.specs.Tree.{IsWholeTree, state_in};

mod stripes;
mod volumes;

use crate::parts::{volume_at, volume_mut};
use crate::{Tree, Vol};
use affinity::Geometry;
use image::layout::{FIRST_VERSION, VERSION, place_of_piece};
use std::error::Error;
use std::fmt;
use stripes::{read_stripe, write_stripe};
use volumes::{read_volume, write_volume};

/// Bytes that aren't the canonical piece of what they decode to.
#[derive(Clone, Copy, Debug, PartialEq, Eq)]
pub struct BadPiece;

impl fmt::Display for BadPiece {
    fn fmt<W: fmt::Write>(&self, f: &mut fmt::Formatter<W>) -> fmt::Result {
        f.write_str("bad piece of an image")
    }
}

impl Error for BadPiece {}

/// Writes piece `n` of the state that the tree holds into `out`, as an image of the newest version has it.
/// Nothing of the tree may be out. `out` has the size of the piece: that of a volume's own, or
/// that of an entry for each block that a stripe can hold.
pub fn write_piece(t: &Tree, n: usize, out: &mut [u8])
    requires whole { IsWholeTree t.now }
    requires piece { n < piece_count t.now.geometry }
    requires size { length out.old ≡ piece_size t.now.geometry n }
    ensures { out.new ≡ piece_of VERSION t.now.geometry (state_in t.now) n }
{
    let place = place_of_piece(&t.geometry, n);
    match volume_at(&t.root, place.aggregate, place.volume) {
        Some(volume) => write_part(volume, &t.geometry, place.part, out),
        None => unreachable!(),
    }
}

/// Writes the piece of a volume, or of one of its stripes. The bytes depend on this volume's content
/// alone: the clause says so of every state that has it.
fn write_part(volume: &Vol, g: &Geometry, part: usize, out: &mut [u8])
    requires fits { FitsVolume g.now volume.now }
    requires whole { IsWholeVolume volume.now }
    requires part { part ≤ g.now.stripes }
    requires size { length out.old ≡ piece_part_size g.now part }
    ensures { (x : State) (a v : ℕ) → IsState g.now x
        → HasFacts x a v (volume_facts g.now volume.now) → out.new ≡ part_piece VERSION g.now x a v part }
{
    if part == 0 {
        return write_volume(volume, out);
    }
    let Some(logical) = &volume.logical else {
        unreachable!()
    };
    let s = part - 1;
    match &logical.stripes[s] {
        Some(stripe) => write_stripe(stripe, g, s, out),
        None => unreachable!(),
    }
}

/// Reads `bytes` into the tree as piece `n`, in place of what the tree has there. `BadPiece` exactly
/// where they differ from the encoding (in the newest version of an image) of what they decode to; then it is
/// unspecified what the tree holds. Nothing of the tree may be out, and when a volume's own piece is read
/// the tree must have no block of that volume.
pub fn read_piece(t: &mut Tree, n: usize, bytes: &[u8]) -> Result<(), BadPiece>
    requires { CanReadPiece n bytes.now t.old }
    ensures { ReadsPiece VERSION n bytes.now result t.old t.new }
{
    read_piece_of_version(t, VERSION, n, bytes)
}

/// As `read_piece`, for an image of version 1, which has zeros instead of labels: each volume that is
/// made gets a label of zeros.
pub fn read_piece_1(t: &mut Tree, n: usize, bytes: &[u8]) -> Result<(), BadPiece>
    requires { CanReadPiece n bytes.now t.old }
    ensures { ReadsPiece FIRST_VERSION n bytes.now result t.old t.new }
{
    read_piece_of_version(t, FIRST_VERSION, n, bytes)
}

/// Reads bytes into the tree as piece `n` of an image of this version.
fn read_piece_of_version(t: &mut Tree, version: u8, n: usize, bytes: &[u8]) -> Result<(), BadPiece>
    requires { CanReadPiece n bytes.now t.old }
    ensures { ReadsPiece version n bytes.now result t.old t.new }
{
    let g = t.geometry;
    let place = place_of_piece(&g, n);
    match volume_mut(&mut t.root, place.aggregate, place.volume) {
        Some(volume) => {
            if !read_part(volume, &g, place.part, version, bytes) {
                return Err(BadPiece);
            }
            Ok(())
        }
        None => unreachable!(),
    }
}

/// Takes in bytes as the piece of a volume, or of one of its stripes.
fn read_part(volume: &mut Vol, g: &Geometry, part: usize, version: u8, bytes: &[u8]) -> bool
    requires fits { FitsVolume g.now volume.old }
    requires whole { IsWholeVolume volume.old }
    requires part { part ≤ g.now.stripes }
    requires size { length bytes.now ≡ piece_part_size g.now part }
    ensures { IsPieceOfVolumeRead version g.now part bytes.now result volume.old volume.new }
{
    if part == 0 {
        return read_volume(volume, g, version, bytes);
    }
    match &mut volume.logical {
        Some(logical) => read_stripe(logical, g, part - 1, bytes),
        None => unreachable!(),
    }
}
