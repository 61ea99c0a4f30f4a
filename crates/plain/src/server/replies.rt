//! The reply to a message that passes its checks.

ghost use Rattle.std.specs.Prelude.{◌≡◌, IfNone, IfSome, unwrap_or};
ghost use Rattle.protocol.specs.declared.replies.Reply.TheVariants.{Block as shows, Hole, Label as shows_label};
ghost use Rattle.affinity.specs.declared.kinds.Kind.TheVariants as kinds;
ghost use Rattle.message.specs.Heads.{message_without_data};
ghost use Rattle.meaning.specs.Step.{accepted_reply, next_state, no_label, reply_to};
ghost use Rattle.plain.specs.Server.{server_state, IsConsistent};

use super::Server;
use super::keys::BlockKey;
use affinity::Geometry;
use protocol::{Block, LABEL_SIZE, Reply};

impl Server {
    /// The label of a volume.
    pub(crate) fn label_of(&self, a: u16, v: u16) -> Reply
        ensures { result ≡ shows_label (unwrap_or ((server_state self.now).labels (a, v)) no_label) }
    {
        match self.volumes.get(&(a, v)) {
            Some(volume) => Reply::Label(volume.label),
            None => Reply::Label([0; LABEL_SIZE]),
        }
    }

    /// The block that answers a `read` of these numbers, by reference. A block that is there has a file and a volume, so the read passes
    /// its checks, and these needn't be looked up. Where there is no block, the reply to a `read` that passes its checks is a hole.
    pub(crate) fn block_at(&self, g: &Geometry, numbers: [u16; 4]) -> Option<&Block>
        requires sound { IsConsistent g.now self.now }
        ensures shown { IfSome result (λ content.
            (reply_to g.now (server_state self.now) (message_without_data kinds.Read numbers) ≡ shows content.now)
            × (next_state g.now (server_state self.now) (message_without_data kinds.Read numbers) ≡ server_state self.now)) }
        ensures hole { IfNone result (accepted_reply g.now (server_state self.now) (message_without_data kinds.Read numbers) ≡ Hole) }
    {
        let [a, v, f, b] = numbers;
        self.blocks.get(&BlockKey { b, f, v, a })
    }
}
