//! The geometry of a server: its eight sizes.
ghost use Rattle.std.specs.Prelude.{◌≡◌, ◌↔◌, IsOk, IfOk};
ghost use Rattle.affinity.specs.Limits.{IsWithin, AreInRange};
ghost use Rattle.affinity.specs.declared.limits.TheConstants.{LEAST_RECORDS, MOST_AGGREGATES, MOST_BLOCKS, MOST_FILES, MOST_QUOTA, MOST_RECORDS, MOST_STRIPES, MOST_VOLUMES, MOST_WIDTH};

use crate::limits::{
    LEAST_RECORDS, MOST_AGGREGATES, MOST_BLOCKS, MOST_FILES, MOST_QUOTA, MOST_RECORDS,
    MOST_STRIPES, MOST_VOLUMES, MOST_WIDTH,
};
use std::error::Error;
use std::fmt;

/// The geometry of a server: eight sizes, each in its range.
#[derive(Clone, Copy, Debug, PartialEq, Eq)]
pub struct Geometry {
    /// Aggregates of the server.
    pub aggregates: u16,

    /// Volumes of each aggregate.
    pub volumes: u16,

    /// Stripes of each volume.
    pub stripes: u16,

    /// Consecutive blocks in one stripe, before the file goes on in the next one.
    pub width: u16,

    /// Files of each volume.
    pub files: u16,

    /// Blocks of each file.
    pub blocks: u16,

    /// Blocks that a stripe can hold.
    pub quota: u16,

    /// Records in each half of the log.
    pub half: u16,
    pub ghost aggregates_range: { IsWithin 1 MOST_AGGREGATES aggregates },
    pub ghost volumes_range: { IsWithin 1 MOST_VOLUMES volumes },
    pub ghost stripes_range: { IsWithin 1 MOST_STRIPES stripes },
    pub ghost width_range: { IsWithin 1 MOST_WIDTH width },
    pub ghost files_range: { IsWithin 1 MOST_FILES files },
    pub ghost blocks_range: { IsWithin 1 MOST_BLOCKS blocks },
    pub ghost quota_range: { IsWithin 1 MOST_QUOTA quota },
    pub ghost half_range: { IsWithin LEAST_RECORDS MOST_RECORDS half },
}

/// A number of a geometry that is out of its range.
#[derive(Clone, Copy, Debug, PartialEq, Eq)]
pub struct BadGeometry;

impl fmt::Display for BadGeometry {
    fn fmt<W: fmt::Write>(&self, f: &mut fmt::Formatter<W>) -> fmt::Result {
        f.write_str("geometry out of range")
    }
}

impl Error for BadGeometry {}

/// The number `n` itself, if it is from `least` to `most`; else `BadGeometry`.
fn within(least: u16, most: u16, n: u16) -> Result<u16, BadGeometry>
    ensures in_range { IsOk result ↔ IsWithin least most n }
    ensures same { IfOk result (λ m. m ≡ n) }
{
    if n < least || most < n {
        return Err(BadGeometry);
    }
    Ok(n)
}

impl Geometry {
    ghost use Rattle.affinity.specs.Geometry.{numbers_of};

    /// The geometry with these numbers: aggregates, volumes, stripes, width, files, blocks, quota
    /// and half, in this order. `BadGeometry` exactly where one is out of its range.
    pub fn new(n: [u16; 8]) -> Result<Geometry, BadGeometry>
        ensures in_range { IsOk result ↔ AreInRange n }
        ensures same_numbers { IfOk result (λ g. numbers_of g ≡ n) }
    {
        let [
            aggregates,
            volumes,
            stripes,
            width,
            files,
            blocks,
            quota,
            half,
        ] = n;
        Ok(Geometry {
            aggregates: within(1, MOST_AGGREGATES, aggregates)?,
            volumes: within(1, MOST_VOLUMES, volumes)?,
            stripes: within(1, MOST_STRIPES, stripes)?,
            width: within(1, MOST_WIDTH, width)?,
            files: within(1, MOST_FILES, files)?,
            blocks: within(1, MOST_BLOCKS, blocks)?,
            quota: within(1, MOST_QUOTA, quota)?,
            half: within(LEAST_RECORDS, MOST_RECORDS, half)?,
        })
    }

    /// The eight numbers, in the order in which `new` takes them.
    pub fn numbers(&self) -> [u16; 8]
        ensures { result ≡ numbers_of self.now }
    {
        [
            self.aggregates,
            self.volumes,
            self.stripes,
            self.width,
            self.files,
            self.blocks,
            self.quota,
            self.half,
        ]
    }
}

/// One aggregate of 4 volumes, and 256 records in each half of the log. A volume has 16 files of 64
/// blocks, and 4 stripes of width 4, each of which can hold 64 blocks.
impl Default for Geometry {
    ghost use Rattle.std.specs.Prelude.{◌≡◌};
    ghost use Rattle.affinity.specs.Geometry.{default_geometry};

    ghost is_default = { λ g. g ≡ default_geometry };

    fn default() -> Self {
        Geometry {
            aggregates: 1,
            volumes: 4,
            stripes: 4,
            width: 4,
            files: 16,
            blocks: 64,
            quota: 64,
            half: 256,
        }
    }
}
