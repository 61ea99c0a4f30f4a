//! Runs one message on a tree of which no part is lent.
ghost use Rattle.std.specs.Prelude.{◌≡◌, true};
ghost use Rattle.protocol.specs.Messages.{is_in_range};
ghost use Rattle.parcel.specs.Tree.{IsWholeTree, state_in};
ghost use Rattle.meaning.specs.Step.{next_state, reply_to};

use crate::{Job, Tree, run};
use affinity::place_of;
use protocol::{Msg, Reply, know_message};

/// Runs a message that is in range on the whole tree, and gives its reply: the serial step of the tree's state. No part of the tree may be
/// lent. It takes no memory.
pub fn step(tree: &mut Tree, m: Msg) -> Reply
    requires whole { IsWholeTree tree.old }
    requires range { is_in_range tree.old.geometry m ≡ true }
    ensures reply { result ≡ reply_to tree.old.geometry (state_in tree.old) m }
    ensures state { state_in tree.new ≡ next_state tree.old.geometry (state_in tree.old) m }
    ensures whole { IsWholeTree tree.new }
    ensures geometry { tree.new.geometry ≡ tree.old.geometry }
{
    let g = tree.geometry();
    know_message(&m);
    let Some(affinity) = place_of(&g, m.kind(), m.numbers()) else {
        unreachable!()
    };
    let Some((standing, parcels)) = tree.lend(affinity) else {
        unreachable!()
    };
    // 0 is its ticket, which nothing looks at.
    let done = run(Job::new(g, 0, m, standing, parcels));
    let reply = *done.reply();
    let Ok(()) = tree.restore(affinity, done.into_parcels()) else {
        unreachable!()
    };
    reply
}
