//! The state of a serial server, and what one message does to it.

ghost use Rattle.std.specs.Prelude.{◌≡◌, true, Some, IfOk, OnOk, OnErr};
ghost use Rattle.affinity.specs.Kind.{is_changing};
ghost use Rattle.message.specs.Heads.{IsWithoutData, labeling, message_without_data, writing};
ghost use Rattle.affinity.specs.declared.geometry.Geometry.{Geometry};
ghost use Rattle.meaning.specs.State.{empty};
ghost use Rattle.meaning.specs.Step.{done_or_refused, reply_to, next_state};
ghost use Rattle.plain.specs.Server.{server_state, IsConsistent};

use affinity::{Geometry, Kind, is_in_range};
use protocol::{Block, LABEL_SIZE, Msg, Refusal, know_block, know_label};
use std::alloc::{AllocError, Global};
use std::collections::BTreeMap;

mod blocks;
mod effects;
mod keys;
mod lookups;
mod refusals;
mod removals;
mod replies;
mod totals;

use keys::BlockKey;

/// What a volume has besides its blocks.
#[derive(Clone, Copy)]
struct Volume {
    sealed: bool,
    label: [u8; LABEL_SIZE],

    /// File `f` is there where bit `f` is set.
    files: u64,
}

/// The state of a serial server.
#[derive(Drop)]
pub(crate) struct Server {
    /// The volumes that exist.
    volumes: BTreeMap<(u16, u16), Volume>,

    /// The blocks, by their keys.
    blocks: BTreeMap<BlockKey, Block>,

    /// How many blocks each stripe of a volume has, so that no write has to count them. A stripe
    /// without an entry has none.
    block_counts: BTreeMap<(u16, u16, u16), u16>,
}

impl Server {
    /// A server in which there is nothing.
    pub(crate) fn new(alloc: Global) -> Server
        ensures empty { server_state result ≡ empty }
        ensures sound { (g : Geometry) → IsConsistent g result }
    {
        Server {
            volumes: BTreeMap::new(alloc),
            blocks: BTreeMap::new(alloc),
            block_counts: BTreeMap::new(alloc),
        }
    }

    /// Carries out a message that changes something and has no data, by its kind and its numbers,
    /// and gives why it is refused, if it is. Where there is no memory, nothing changes.
    pub(crate) fn carry_out(
        &mut self,
        g: &Geometry,
        kind: Kind,
        numbers: [u16; 4],
    ) -> Result<Option<Refusal>, AllocError>
        // Kind and numbers fit each other: the kind has no data, and a number that it doesn't have is 0.
        requires asked { IsWithoutData kind numbers (Some (message_without_data kind numbers)) }
        requires changes { is_changing kind ≡ true }
        requires sound { IsConsistent g.now self.old }
        ensures reply { IfOk result
            (λ why. reply_to g.now (server_state self.old) (message_without_data kind numbers) ≡ done_or_refused why) }
        ensures state { OnOk result (server_state self.new ≡ next_state g.now (server_state self.old) (message_without_data kind numbers)) }
        ensures unchanged { OnErr result (server_state self.new ≡ server_state self.old) }
        ensures sound { IsConsistent g.now self.new }
    {
        match self.refusal_by(g, kind, numbers) {
            Some(why) => Ok(Some(why)),
            None => {
                self.apply_by(g, kind, numbers)?;
                Ok(None)
            }
        }
    }

    /// Writes a block, and gives why that is refused, if it is. Where there is no memory, nothing
    /// changes.
    pub(crate) fn write(
        &mut self,
        g: &Geometry,
        numbers: [u16; 4],
        content: &Block,
    ) -> Result<Option<Refusal>, AllocError>
        requires sound { IsConsistent g.now self.old }
        ensures reply { IfOk result (λ why. reply_to g.now (server_state self.old) (writing numbers content.now) ≡ done_or_refused why) }
        ensures state { OnOk result (server_state self.new ≡ next_state g.now (server_state self.old) (writing numbers content.now)) }
        ensures unchanged { OnErr result (server_state self.new ≡ server_state self.old) }
        ensures sound { IsConsistent g.now self.new }
    {
        let [a, v, f, b] = numbers;
        if !is_in_range(g, Kind::Write, numbers) {
            return Ok(Some(Refusal::Range));
        }
        if let Some(why) = self.refusal_to_change_file(a, v, f) {
            return Ok(Some(why));
        }
        know_block(content);
        self.put_block(g, a, v, f, b, content)
    }

    /// Sets the label of a volume, and gives why that is refused, if it is.
    pub(crate) fn put_label(
        &mut self,
        g: &Geometry,
        numbers: [u16; 4],
        label: &[u8; LABEL_SIZE],
    ) -> Option<Refusal>
        requires sound { IsConsistent g.now self.old }
        ensures reply { reply_to g.now (server_state self.old) (labeling numbers label.now) ≡ done_or_refused result }
        ensures state { server_state self.new ≡ next_state g.now (server_state self.old) (labeling numbers label.now) }
        ensures sound { IsConsistent g.now self.new }
    {
        let [a, v, _, _] = numbers;
        if !is_in_range(g, Kind::SetLabel, numbers) {
            return Some(Refusal::Range);
        }
        if let Some(why) = self.refusal_unless_open(a, v) {
            return Some(why);
        }
        know_label(label);
        self.set_label(a, v, label);
        None
    }
}
