//! A block is put into a file, and its stripe has one more where it is new.

ghost use Rattle.std.specs.Prelude.{◌≡◌, ◌<◌, [], ◌∷◌, IfOk, OnErr, None, Some, is_some, if◌then◌else◌};
ghost use Rattle.affinity.specs.declared.kinds.Kind.TheVariants as kinds;
ghost use Rattle.protocol.specs.declared.messages.Msg.{Msg};
ghost use Rattle.protocol.specs.declared.replies.Refusal.{Refusal};
ghost use Rattle.meaning.specs.Refusals.{passes};
ghost use Rattle.meaning.specs.Step.{effect};
ghost use Rattle.plain.specs.Server.{server_state, HasRightCounts};

use super::Server;
use super::keys::BlockKey;
use affinity::{Geometry, group_of};
use protocol::{Block, Msg, Refusal};
use std::alloc::AllocError;

impl Server {
    /// Puts a block into a file, or gives `Space` because the stripe's quota is used up. A block that
    /// is there already is found once, and no count is looked at. Where none is there, only the
    /// stripe's count matters, and one look-up serves its check and its change.
    pub(super) fn put_block(
        &mut self,
        g: &Geometry,
        a: u16,
        v: u16,
        f: u16,
        b: u16,
        content: &Block,
    ) -> Result<Option<Refusal>, AllocError>
        requires file { f < g.now.files }
        requires block { b < g.now.blocks }
        requires counted { HasRightCounts g.now self.old }
        ensures room { IfOk result (λ why. why
            ≡ (if passes g.now (server_state self.old) kinds.Write (a ∷ v ∷ f ∷ b ∷ []) Refusal.Space then None else Some Refusal.Space)) }
        ensures state { IfOk result (λ why. server_state self.new
            ≡ (if is_some why then server_state self.old else effect (server_state self.old) (Msg.Write a v f b content.now))) }
        ensures unchanged { OnErr result (server_state self.new ≡ server_state self.old) }
        ensures counted { HasRightCounts g.now self.new }
    {
        if let Some(block) = self.blocks.get_mut(&BlockKey { b, f, v, a }) {
            *block = *content;
            return Ok(None);
        }
        let stripe = (a, v, group_of(g, f, b));
        let count = self.block_counts.entry(stripe)?.or_insert(0);
        if *count >= g.quota {
            return Ok(Some(Refusal::Space));
        }
        // Not by `insert`: its result has room for a block that was replaced, which is filled though there is none, at one more copy.
        self.blocks
            .entry(BlockKey { b, f, v, a })?
            .or_insert(*content);
        *count += 1;
        Ok(None)
    }
}
