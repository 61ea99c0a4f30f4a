//! Blocks, files and volumes are removed, with all that they have.

ghost use Rattle.std.specs.Prelude.{◌≡◌, ◌+◌, ◌<◌, true, false, is_some, IfSome, IfNone, if◌then◌else◌};
ghost use Rattle.std.specs.BTreeMap.{btree_map_len};
ghost use Rattle.affinity.specs.declared.geometry.Geometry.{Geometry};
ghost use Rattle.protocol.specs.declared.messages.Msg.{Msg};
ghost use Rattle.meaning.specs.State.{BlockKey, is_block_of, is_block_of_file};
ghost use Rattle.meaning.specs.Step.{effect};
ghost use Rattle.plain.specs.Server.{StripeKey, is_stripe, server_state, noted, HasRightCounts, IsConsistent};
ghost use Rattle.meaning.specs.Removals.{without_blocks};
ghost use Rattle.affinity.specs.declared.limits.TheConstants.{MOST_FILES};

use super::Server;
use super::keys::BlockKey;
use affinity::{Geometry, group_of};

impl Server {
    /// Lowers the count of a stripe's blocks by one.
    fn note_one_less(&mut self, a: u16, v: u16, s: u16)
        requires some { 0 < noted self.old (a, v, s) }
        ensures noted { (k : StripeKey) → noted self.new k + (if is_stripe a v s k then 1 else 0) ≡ noted self.old k }
        ensures state { server_state self.new ≡ server_state self.old }
        ensures blocks { self.new.blocks ≡ self.old.blocks }
    {
        let Some(count) = self.block_counts.get_mut(&(a, v, s)) else {
            unreachable!()
        };
        *count -= 1;
    }

    /// Takes a block out of its file, where there is one.
    pub(super) fn remove_block(&mut self, g: &Geometry, a: u16, v: u16, f: u16, b: u16)
        requires sound { IsConsistent g.now self.old }
        ensures state { server_state self.new ≡ effect (server_state self.old) (Msg.Punch a v f b) }
        ensures counted { HasRightCounts g.now self.new }
        ensures len { btree_map_len self.new.blocks + (if is_some ((server_state self.old).blocks (a, v, f, b)) then 1 else 0)
            ≡ btree_map_len self.old.blocks }
    {
        if self.blocks.remove(&BlockKey { b, f, v, a }).is_some() {
            self.note_one_less(a, v, group_of(g, f, b));
        }
    }

    /// The number of a block of the file, where it has one.
    fn next_block_of_file(&self, a: u16, v: u16, f: u16) -> Option<u16>
        ensures found { IfSome result (λ b. is_some ((server_state self.now).blocks (a, v, f, b)) ≡ true) }
        ensures none { IfNone result ((k : BlockKey) → is_block_of_file a v f k ≡ true
            → is_some ((server_state self.now).blocks k) ≡ false) }
    {
        let (key, _) = self.blocks.range(BlockKey { b: 0, f, v, a }..).next()?;
        let (of_a, of_v, of_f, b) = key.numbers();
        if of_a == a && of_v == v && of_f == f {
            Some(b)
        } else {
            None
        }
    }

    /// Removes all blocks of a file.
    fn clear_file(&mut self, g: &Geometry, a: u16, v: u16, f: u16)
        requires sound { IsConsistent g.now self.old }
        ensures state { server_state self.new ≡ without_blocks (is_block_of_file a v f) (server_state self.old) }
        ensures counted { HasRightCounts g.now self.new }
    {
        while let Some(b) = self.next_block_of_file(a, v, f) {
            self.remove_block(g, a, v, f, b);
        }
    }

    /// Removes a file with its blocks. It takes no memory.
    pub(super) fn remove_file(&mut self, g: &Geometry, a: u16, v: u16, f: u16)
        requires file { f < MOST_FILES }
        requires made { (server_state self.old).made (a, v) ≡ true }
        requires sound { IsConsistent g.now self.old }
        ensures state { server_state self.new ≡ effect (server_state self.old) (Msg.Delete a v f) }
        ensures counted { HasRightCounts g.now self.new }
    {
        self.clear_file(g, a, v, f);
        let Some(volume) = self.volumes.get_mut(&(a, v)) else {
            unreachable!()
        };
        volume.files &= !(1 << f);
    }

    /// The file and the number of a block of the volume, where it has one.
    fn next_block_of_volume(&self, a: u16, v: u16) -> Option<(u16, u16)>
        ensures found { IfSome result (λ p. is_some ((server_state self.now).blocks (a, v, p.0, p.1)) ≡ true) }
        ensures none { IfNone result ((k : BlockKey) → is_block_of a v k ≡ true
            → is_some ((server_state self.now).blocks k) ≡ false) }
    {
        let (key, _) = self.blocks.range(BlockKey { b: 0, f: 0, v, a }..).next()?;
        let (of_a, of_v, f, b) = key.numbers();
        if of_a == a && of_v == v {
            Some((f, b))
        } else {
            None
        }
    }

    /// Removes all blocks of a volume.
    fn clear_volume(&mut self, g: &Geometry, a: u16, v: u16)
        requires sound { IsConsistent g.now self.old }
        ensures state { server_state self.new ≡ without_blocks (is_block_of a v) (server_state self.old) }
        ensures counted { HasRightCounts g.now self.new }
    {
        while let Some((f, b)) = self.next_block_of_volume(a, v) {
            self.remove_block(g, a, v, f, b);
        }
    }

    /// Removes a volume with all that it has. It takes no memory.
    pub(super) fn remove_volume(&mut self, g: &Geometry, a: u16, v: u16)
        requires sound { IsConsistent g.now self.old }
        ensures state { server_state self.new ≡ effect (server_state self.old) (Msg.DropVol a v) }
        ensures counted { HasRightCounts g.now self.new }
    {
        self.clear_volume(g, a, v);
        self.volumes.remove(&(a, v));
    }
}
