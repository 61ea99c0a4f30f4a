//! Messages as records.

use crate::assertions::assert_equal;
use crate::common::{block_of, padded};
use affinity::Geometry;
use message::{Msg, decode, encode};
use std::process::Abort;

// Asserts that the record of these first bytes, with zeros after them, is this message; none: that it is no message in range.
fn assert_decoded(rt: &impl Abort, first: &[u8], g: &Geometry, message: Option<Msg>) {
    assert_eq!(rt; decode(&padded(first), g), message, "at {first:?}");
}

/// The first bytes of records (of 520 bytes each), which zeros follow, and the message that each is at the default geometry, or none. The
/// bytes are the kind (1 to 14), the aggregate, the volume, the file, the block (two, the lower one first), two that have to be zeros, and
/// then the data.
const RECORDS: [(&[u8], Option<Msg>); 9] = [
    (&[1], Some(Msg::MakeVol(0, 0))),
    (&[1, 0, 3], Some(Msg::MakeVol(0, 3))),
    (&[12], Some(Msg::Summary)),
    (&[14, 0, 1], Some(Msg::Label(0, 1))),
    (&[1, 0, 4], None),
    (&[1, 0, 0, 0, 0, 0, 0, 1], None),
    (&[1, 0, 0, 1], None),
    (&[15], None),
    (&[0], None),
];

#[test]
fn records_have_one_spelling(rt: HostRuntime) {
    let g = Geometry::default();
    // `encode` has to overwrite each 7.
    let mut out = [7; 520];
    encode(&Msg::MakeVol(0, 0), &mut out);
    assert_equal(&rt, out, padded::<520>(&[1]));
    encode(&Msg::Write(0, 0, 1, 2, block_of(b"ab")), &mut out);
    let write = [7, 0, 0, 1, 2, 0, 0, 0, 0x61, 0x62];
    assert_equal(&rt, out, padded::<520>(&write));
    encode(&Msg::SetLabel(0, 0, padded(b"ab")), &mut out);
    let label = [13, 0, 0, 0, 0, 0, 0, 0, 0x61, 0x62];
    assert_equal(&rt, out, padded::<520>(&label));
    encode(&Msg::Punch(255, 254, 253, 258), &mut out);
    let punch = [8, 255, 254, 253, 2, 1];
    assert_equal(&rt, out, padded::<520>(&punch));

    let message = Msg::Write(0, 0, 1, 2, block_of(b"ab"));
    assert_decoded(&rt, &write, &g, Some(message));
    let message = Msg::SetLabel(0, 0, padded(b"ab"));
    assert_decoded(&rt, &label, &g, Some(message));
    for (first, message) in RECORDS.iter() {
        assert_decoded(&rt, first, &g, *message);
    }
}
