//! Which pieces of an image a message may change.
ghost use Rattle.std.specs.Prelude.{◌≡◌};
ghost use Rattle.image.specs.Touched.{may_change, may_change_part};

use crate::layout::place_of_piece;
use affinity::{Geometry, changing, group_of};
use protocol::Msg;

/// Whether a message may change piece `n` of an image. It may change pieces of its own volume alone, and none if it only asks.
/// A piece that it may not change stays as it is, whatever the reply is (`laws::an_untouched_piece_stays`).
pub fn touched(g: &Geometry, m: &Msg, n: usize) -> bool
    ensures { result ≡ may_change g.now m.now n }
{
    let place = place_of_piece(g, n);
    let [aggregate, volume, _, _] = m.numbers();
    usize::from(aggregate) == place.aggregate
        && usize::from(volume) == place.volume
        && touches_part(g, m, place.part)
}

/// Whether a message may change this part of its own volume: 0 is the volume's piece, and `s + 1` that of stripe `s`.
fn touches_part(g: &Geometry, m: &Msg, part: usize) -> bool
    ensures { result ≡ may_change_part g.now m.now part }
{
    match *m {
        Msg::DropVol(..) | Msg::Delete(..) => true,
        Msg::Write(_, _, file, block, _) | Msg::Punch(_, _, file, block) => {
            part == usize::from(group_of(g, file, block)) + 1
        }
        _ => part == 0 && changing(m.kind()),
    }
}
