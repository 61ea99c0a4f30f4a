//! Where the parts of devices lie.
use crate::common::SMALL;
use affinity::Geometry;
use device_map::{device_len, half_at, half_size, image_at, image_size};
use std::process::Abort;
use std::test::Fail;

/// Geometries (aggregates, volumes, stripes, width, files, blocks, quota, records in a half), and of a device of each, in bytes: the
/// offsets of half 0, half 1, image 0 and image 1, the size of a half, that of an image, and the length of the device. `SMALL` is that of
/// the small server of tests, with four records in a half.
const LAYOUTS: [([u16; 8], [u64; 7]); 3] = [
    (SMALL, [128, 2276, 4424, 6632, 2148, 2208, 8840]),
    // the default numbers
    (
        [1, 4, 4, 4, 16, 64, 64, 256],
        [128, 133_568, 267_008, 799_808, 133_440, 532_800, 1_332_608],
    ),
    // the greatest
    (
        [4, 8, 8, 64, 64, 256, 64, 1024],
        [
            128, 533_696, 1_067_264, 9_589_056, 533_568, 8_521_792, 18_110_848,
        ],
    ),
];

/// Asserts that the parts lie so.
fn assert_layout(rt: &impl Abort, g: &Geometry, want: [u64; 7]) {
    let found = [
        half_at(g, 0),
        half_at(g, 1),
        image_at(g, 0),
        image_at(g, 1),
        half_size(g) as u64,
        image_size(g) as u64,
        device_len(g),
    ];
    assert_eq!(rt; found, want);
}

#[test]
fn parts_lie_in_a_row(rt: HostRuntime) -> Result<(), Fail> {
    for &(numbers, want) in &LAYOUTS {
        assert_layout(&rt, &Geometry::new(numbers)?, want);
    }
    Ok(())
}
