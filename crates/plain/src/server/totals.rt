//! Which files a volume has, and how much volumes hold.

ghost use Rattle.std.specs.Prelude.{◌≡◌};
ghost use Rattle.affinity.specs.declared.geometry.Geometry.{Geometry};
ghost use Rattle.protocol.specs.declared.messages.Msg.{Msg};
ghost use Rattle.meaning.specs.State.{file_count, block_count, sum_over_volumes};
ghost use Rattle.meaning.specs.Step.{accepted_reply};
ghost use Rattle.plain.specs.Server.{server_state, HasRightCounts, IsConsistent};

use super::Server;
use affinity::Geometry;
use protocol::{Msg, Reply};

impl Server {
    /// Which files a volume has: file `f` is bit `f` of the number.
    #[inline(always)]
    pub(crate) fn list_files(&self, g: &Geometry, a: u16, v: u16) -> Reply
        requires sound { IsConsistent g.now self.now }
        ensures { result ≡ accepted_reply g.now (server_state self.now) (Msg.List a v) }
    {
        match self.volumes.get(&(a, v)) {
            Some(volume) => Reply::Files(volume.files),
            None => Reply::Files(0),
        }
    }

    /// How many files a volume has.
    fn files_of(&self, g: &Geometry, a: u16, v: u16) -> u32
        requires sound { IsConsistent g.now self.now }
        ensures { result ≡ file_count g.now (server_state self.now) a v }
    {
        match self.volumes.get(&(a, v)) {
            Some(volume) => volume.files.count_ones(),
            None => 0,
        }
    }

    /// How many blocks a volume has: the sum of the counts that are kept for its stripes. It walks
    /// these counts alone, not the blocks.
    pub(super) fn blocks_of(&self, g: &Geometry, a: u16, v: u16) -> u32
        requires counted { HasRightCounts g.now self.now }
        ensures { result ≡ block_count g.now (server_state self.now) a v }
    {
        let mut total = 0;
        for (_, count) in self.block_counts.range((a, v, 0)..(a, v, g.stripes)) {
            total += u32::from(*count);
        }
        total
    }

    /// How much a volume holds, and whether it is sealed.
    #[inline(always)]
    pub(crate) fn usage_of(&self, g: &Geometry, a: u16, v: u16) -> Reply
        requires sound { IsConsistent g.now self.now }
        ensures { result ≡ accepted_reply g.now (server_state self.now) (Msg.Usage a v) }
    {
        Reply::Usage {
            files: self.files_of(g, a, v),
            blocks: self.blocks_of(g, a, v),
            sealed: self.is_sealed(a, v),
        }
    }

    /// How many files there are. It walks the volumes that are made.
    fn all_files(&self, g: &Geometry) -> u32
        requires sound { IsConsistent g.now self.now }
        ensures { result ≡ sum_over_volumes g.now (file_count g.now (server_state self.now)) }
    {
        let mut total = 0;
        for volume in self.volumes.values() {
            total += volume.files.count_ones();
        }
        total
    }

    /// How much all volumes hold, and how many they are.
    pub(crate) fn summary_of(&self, g: &Geometry) -> Reply
        requires sound { IsConsistent g.now self.now }
        ensures { result ≡ accepted_reply g.now (server_state self.now) Msg.Summary }
    {
        let volumes = self.volumes.len();
        let blocks = self.blocks.len();
        Reply::Summary {
            volumes: volumes as u32,
            files: self.all_files(g),
            blocks: blocks as u32,
        }
    }
}
