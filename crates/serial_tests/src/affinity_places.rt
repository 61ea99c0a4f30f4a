//! Where messages belong, how affinities are numbered, and which are related; and the text of `BadGeometry`.

use crate::common::SMALL;
use affinity::{BadGeometry, Geometry, Kind, place_of, related};
use std::process::Abort;
use std::test::Fail;

/// Two aggregates of two volumes, each of two stripes. In order: aggregates, volumes, stripes, width, files, blocks, quota, records in a
/// half.
const TWO_OF_EACH: [u16; 8] = [2, 2, 2, 1, 2, 4, 2, 4];

/// The greatest geometry, in the same order.
const GREATEST: [u16; 8] = [4, 8, 8, 64, 64, 256, 64, 1024];

/// A message's kind and numbers (aggregate, volume, file, block). Then, if these are in range, two numbers: that of its affinity (its
/// position in preorder), and the first one after the affinity's subtree.
type Numbered = (Kind, [u16; 4], Option<(u16, u16)>);

/// Geometries, and messages to a server of each. `SMALL` has one volume of two files of four blocks, in two stripes.
const NUMBERED: [([u16; 8], &[Numbered]); 3] = [
    (
        SMALL,
        &[
            (Kind::Summary, [0, 0, 0, 0], Some((0, 7))),
            (Kind::MakeVol, [0, 0, 0, 0], Some((1, 7))),
            (Kind::Usage, [0, 0, 0, 0], Some((2, 7))),
            (Kind::List, [0, 0, 0, 0], Some((3, 6))),
            (Kind::Read, [0, 0, 0, 0], Some((4, 5))),
            (Kind::Punch, [0, 0, 0, 1], Some((5, 6))),
            (Kind::SetLabel, [0, 0, 0, 0], Some((6, 7))),
            (Kind::Write, [0, 0, 0, 4], None),
            (Kind::Write, [0, 0, 2, 0], None),
            (Kind::Create, [0, 0, 2, 0], None),
            // Only the numbers that a kind has are range-checked: a `seal` has no file and no block.
            (Kind::Seal, [0, 0, 9, 9], Some((2, 7))),
            (Kind::Seal, [0, 1, 0, 0], None),
            (Kind::DropVol, [1, 0, 0, 0], None),
            (Kind::Summary, [9, 9, 9, 9], Some((0, 7))),
        ],
    ),
    (
        TWO_OF_EACH,
        &[
            (Kind::Seal, [1, 1, 0, 0], Some((18, 23))),
            (Kind::Label, [1, 1, 0, 0], Some((22, 23))),
        ],
    ),
    (
        GREATEST,
        &[
            (Kind::Summary, [0, 0, 0, 0], Some((0, 357))),
            (Kind::Label, [3, 7, 0, 0], Some((356, 357))),
        ],
    ),
];

// Asserts that messages are numbered as the rows say. `place_of` gives an affinity (not a `Place`); none where a number is out of range.
fn assert_numbered(rt: &impl Abort, g: &Geometry, rows: &[Numbered]) {
    for (kind, numbers, want) in rows {
        let found = place_of(g, *kind, *numbers).map(|a| (a.number(), a.end()));
        assert!(rt; found == *want, "{kind:?} {numbers:?}");
    }
}

#[test]
fn affinities_are_numbered(rt: HostRuntime) -> Result<(), Fail> {
    for &(numbers, rows) in &NUMBERED {
        assert_numbered(&rt, &Geometry::new(numbers)?, rows);
    }
    Ok(())
}

/// A message at each affinity of a small server: serial, aggregate, volume, volume logical, both stripes, label (a node of its own below
/// the volume).
const EACH_AFFINITY: [(Kind, [u16; 4]); 7] = [
    (Kind::Summary, [0, 0, 0, 0]),
    (Kind::MakeVol, [0, 0, 0, 0]),
    (Kind::Seal, [0, 0, 0, 0]),
    (Kind::Create, [0, 0, 0, 0]),
    (Kind::Write, [0, 0, 0, 0]),
    (Kind::Write, [0, 0, 0, 1]),
    (Kind::SetLabel, [0, 0, 0, 0]),
];

/// Which of them are related, in the same order. Unrelated are the two stripes, the label and each stripe, and the label and the volume
/// logical; all others are related.
const ARE_RELATED: [[bool; 7]; 7] = [
    [true, true, true, true, true, true, true],
    [true, true, true, true, true, true, true],
    [true, true, true, true, true, true, true],
    [true, true, true, true, true, true, false],
    [true, true, true, true, true, false, false],
    [true, true, true, true, false, true, false],
    [true, true, true, false, false, false, true],
];

/// Asserts that this message's affinity is related to that of each message of `EACH_AFFINITY` exactly if the row says so.
fn assert_related(rt: &impl Abort, g: &Geometry, message: (Kind, [u16; 4]), row: &[bool]) {
    let found = place_of(g, message.0, message.1);
    for ((kind, numbers), want) in EACH_AFFINITY.iter().zip(row) {
        let other = place_of(g, *kind, *numbers);
        let is_related = found.zip(other).map(|(a, b)| related(a, b));
        assert!(rt; is_related == Some(*want), "{found:?} {other:?}");
    }
}

#[test]
fn affinities_are_related_as_listed(rt: HostRuntime) -> Result<(), Fail> {
    let g = Geometry::new(SMALL)?;
    for (message, row) in EACH_AFFINITY.iter().zip(ARE_RELATED.iter()) {
        assert_related(&rt, &g, *message, row);
    }
    Ok(())
}

#[test]
fn bad_geometry_has_its_text(rt: HostRuntime) -> Result<(), Fail> {
    let text = format!(in rt.alloc(); "{}", BadGeometry)?;
    assert!(rt; text.as_str() == "geometry out of range");
    Ok(())
}
