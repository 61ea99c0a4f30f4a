//! Pieces of an image are read into a new tree. The tree then answers messages, or is written as pieces again.
//!
//! A piece is given by the bytes of it that aren't 0: offset and value. Of a volume's piece, byte 0 is 1 if the volume is
//! made, byte 1 if it is sealed; from 8 on there is a bitmap of its files, from 16 on its label. A stripe's piece has
//! entries of 520 bytes: 1, the file, the block (two bytes), four zeros, and the content from 8 on.
//!
//! `SMALL` is a geometry of one volume of two files, in two stripes that hold two blocks each: piece 0 is the volume's, 1 and 2 are those
//! of stripes 0 and 1.
ghost use Rattle.std.specs.Prelude.{◌≡◌, length, IfOk, OnOk};
ghost use Rattle.serial_tests.specs.Pieces.{IsNewTree, IsSmallTree};

use crate::assertions::{assert_equal, assert_true};
use crate::common::SMALL;
use crate::parcel_lines::assert_replies;
use affinity::Geometry;
use parcel::{BadPiece, Tree, read_piece, read_piece_1, write_piece};
use std::alloc::Global;
use std::process::Abort;
use std::test::Fail;

/// A volume with files 0 and 1, whose label begins with 7.
const VOLUME: [(usize, u8); 3] = [(0, 1), (8, 3), (16, 7)];

/// Block 0 of file 0, which begins with 0x62, and block 1 of file 1, which begins with 0x61. Both lie in stripe 0.
const STRIPE: [(usize, u8); 6] = [(0, 1), (8, 0x62), (520, 1), (521, 1), (522, 1), (528, 0x61)];

/// A volume with file 0, whose label begins with 0x61, 0x62.
const LABELED: [(usize, u8); 4] = [(0, 1), (8, 1), (16, 0x61), (17, 0x62)];

/// A sealed volume with files 0 and 1.
const SEALED: [(usize, u8); 3] = [(0, 1), (1, 1), (8, 3)];

/// Block 1 of file 1, which begins with 0x61.
const ONE_BLOCK: [(usize, u8); 4] = [(0, 1), (1, 1), (2, 1), (8, 0x61)];

fn new_tree(alloc: Global) -> Result<Tree, Fail>
    ensures { IfOk result IsNewTree }
{
    Ok(Tree::new(alloc, Geometry::new(SMALL)?)?)
}

// The bytes of a volume's piece: these, and zeros.
fn volume_piece(rows: &[(usize, u8)]) -> [u8; 64] {
    let mut bytes = [0; 64];
    for (at, byte) in rows {
        if *at < 64 {
            bytes[*at] = *byte;
        }
    }
    bytes
}

// The bytes of a stripe's piece: these, and zeros.
fn stripe_piece(rows: &[(usize, u8)]) -> [u8; 1040] {
    let mut bytes = [0; 1040];
    for (at, byte) in rows {
        if *at < 1040 {
            bytes[*at] = *byte;
        }
    }
    bytes
}

// Takes in the piece of the volume and that of its first stripe.
fn read_both(tree: &mut Tree, volume: &[u8], stripe: &[u8]) -> Result<(), BadPiece>
    requires new { IsNewTree tree.old }
    requires volume { length volume.now ≡ 64 }
    requires stripe { length stripe.now ≡ 1040 }
    ensures { OnOk result (IsSmallTree tree.new) }
{
    read_piece(tree, 0, volume)?;
    read_piece(tree, 1, stripe)
}

// Asserts that the tree is written as these bytes of the volume and the first stripe, and as zeros for the second stripe.
fn assert_written(rt: &impl Abort, tree: &Tree, volume: &[u8], stripe: &[u8])
    requires { IsSmallTree tree.now }
{
    let mut of_volume = [9; 64];
    write_piece(tree, 0, &mut of_volume);
    assert_equal(rt, of_volume.as_slice(), volume);
    let mut of_stripe = [9; 1040];
    write_piece(tree, 1, &mut of_stripe);
    assert_equal(rt, of_stripe.as_slice(), stripe);
    write_piece(tree, 2, &mut of_stripe);
    assert_true(rt, of_stripe.iter().all(|byte| *byte == 0));
}

// Asserts that a new tree takes in a volume's piece and then a stripe's, with these bytes, exactly if `good`, and that it is written as the
// same bytes then.
fn assert_taken_in(
    rt: &impl Abort,
    alloc: Global,
    volume: &[(usize, u8)],
    stripe: &[(usize, u8)],
    good: bool,
) -> Result<(), Fail> {
    let mut tree = new_tree(alloc)?;
    let volume = volume_piece(volume);
    let stripe = stripe_piece(stripe);
    let read = read_both(&mut tree, &volume, &stripe);
    assert_equal(rt, read.is_ok(), good);
    if read.is_ok() {
        assert_written(rt, &tree, &volume, &stripe);
    }
    Ok(())
}

/// The bytes of a volume's piece, and of its first stripe's.
type Row<'a> = (&'a [(usize, u8)], &'a [(usize, u8)]);

const GOOD: [Row<'static>; 5] = [
    (&[], &[]),
    (&VOLUME, &STRIPE),
    (&SEALED, &STRIPE),
    (&SEALED, &ONE_BLOCK),
    (&LABELED, &[]),
];

/// What is bad, in order: sealed but not made; a made byte that is 2; byte 2, which has to be 0; file 2, which is out of
/// range; a byte after the label; an entry of file 1, which isn't there; a byte where there is no entry.
const BAD: [Row<'static>; 7] = [
    (&[(1, 1)], &[]),
    (&[(0, 2)], &[]),
    (&[(0, 1), (2, 1)], &[]),
    (&[(0, 1), (8, 4)], &[]),
    (&[(0, 1), (48, 1)], &[]),
    (&[(0, 1), (8, 1)], &STRIPE),
    (&VOLUME, &[(1039, 1)]),
];

const GOOD_AND_BAD: [(&[Row<'static>], bool); 2] = [(&GOOD, true), (&BAD, false)];

#[test]
fn good_pieces_come_back_and_bad_ones_are_refused(rt: HostRuntime) -> Result<(), Fail> {
    for &(rows, good) in &GOOD_AND_BAD {
        for (volume, stripe) in rows {
            assert_taken_in(&rt, rt.alloc(), volume, stripe, good)?;
        }
    }
    Ok(())
}

const OF_TWO_FILES: [(&str, &str); 6] = [
    ("list 0 0", "files 0 1"),
    ("label 0 0", "label 07"),
    ("read 0 0 0 0", "block 62"),
    ("read 0 0 1 1", "block 61"),
    ("read 0 0 0 1", "hole"),
    ("create 0 0 1", "error exists"),
];

const OF_LABELED: [(&str, &str); 3] = [
    ("list 0 0", "files 0"),
    ("label 0 0", "label 6162"),
    ("usage 0 0", "usage 1 0 open"),
];

const OF_SEALED: [(&str, &str); 4] = [
    ("list 0 0", "files 0 1"),
    ("label 0 0", "label 00"),
    ("usage 0 0", "usage 2 1 sealed"),
    ("read 0 0 1 1", "block 61"),
];

/// What the volume is, its pieces, and lines with the replies to them.
const ANSWERS: [(&str, Row<'static>, &[(&str, &str)]); 3] = [
    ("a volume with two files", (&VOLUME, &STRIPE), &OF_TWO_FILES),
    ("a labeled volume", (&LABELED, &[]), &OF_LABELED),
    ("a sealed volume", (&SEALED, &ONE_BLOCK), &OF_SEALED),
];

// Asserts that a new tree takes in both pieces, and answers each line by its reply.
fn assert_answers(
    rt: &impl Abort,
    alloc: Global,
    name: &str,
    pieces: Row<'_>,
    rows: &[(&str, &str)],
) -> Result<(), Fail> {
    let (volume, stripe) = pieces;
    let mut tree = new_tree(alloc)?;
    let read = read_both(&mut tree, &volume_piece(volume), &stripe_piece(stripe));
    assert_equal(rt, read, Ok(()));
    assert_replies(rt, alloc, &mut tree, name, rows)?;
    Ok(())
}

#[test]
fn a_tree_answers_by_its_pieces(rt: HostRuntime) -> Result<(), Fail> {
    for &(name, pieces, rows) in &ANSWERS {
        assert_answers(&rt, rt.alloc(), name, pieces, rows)?;
    }
    Ok(())
}

// Asserts that a new tree takes in this volume's piece of an image of version 1 exactly if `good`, and that the label is zeros then.
fn assert_version_1(
    rt: &impl Abort,
    alloc: Global,
    volume: &[(usize, u8)],
    good: bool,
) -> Result<(), Fail> {
    let mut tree = new_tree(alloc)?;
    let read = read_version_1_volume(&mut tree, &volume_piece(volume));
    assert_equal(rt, read.is_ok(), good);
    if good {
        assert_replies(
            rt,
            alloc,
            &mut tree,
            "version 1",
            &[("label 0 0", "label 00")],
        )?;
    }
    Ok(())
}

fn read_version_1_volume(tree: &mut Tree, volume: &[u8]) -> Result<(), BadPiece>
    requires new { IsNewTree tree.old }
    requires volume { length volume.now ≡ 64 }
{
    read_piece_1(tree, 0, volume)
}

#[test]
fn version_1_has_no_label(rt: HostRuntime) -> Result<(), Fail> {
    let alloc = rt.alloc();
    assert_version_1(&rt, alloc, &[(0, 1), (8, 3)], true)?;
    assert_version_1(&rt, alloc, &VOLUME, false)
}
