//! Which messages a log takes: changes in range.
ghost use Rattle.std.specs.Prelude.{IsTrue};
ghost use Rattle.oplog.specs.ChangeRecords.{AreChangesInRange, IsChangeInRange};

use affinity::{Geometry, changing, is_in_range};
use protocol::Msg;

fn is_change_in_range(g: &Geometry, m: &Msg) -> bool
    ensures { IsTrue result → IsChangeInRange g.now m.now }
{
    changing(m.kind()) && is_in_range(g, m.kind(), m.numbers())
}

/// Whether each of these is a change in range: of a kind that may change the state (`changing`), with numbers that the geometry has.
pub fn are_changes_in_range(g: &Geometry, messages: &[Msg]) -> bool
    ensures { IsTrue result → AreChangesInRange g.now messages.now }
{
    for m in messages {
        if !is_change_in_range(g, m) {
            return false;
        }
    }
    true
}
