//! The checks of messages, by what they see of their volume. Each refuses, or leaves it to the later ones (`Decides`).
//! In clauses `guard passes why later` is the refusal `why` where `passes` is false, else `later`; `guard_open made sealed later` checks
//! that the volume is made and then that it isn't sealed, before `later`.

ghost use Rattle.std.specs.Prelude.{◌≡◌};
ghost use Rattle.protocol.specs.declared.replies.Refusal.{Refusal};
ghost use Rattle.protocol.specs.declared.replies.Refusal.TheVariants.{File};
ghost use Rattle.parcel.specs.Shown.{has_file};
ghost use Rattle.parcel.specs.VolumeStep.{Decides, guard, guard_open, reply_to_change};

use protocol::{Refusal, Reply, has_file};

/// Refuses for this reason, unless the check is passed.
pub(crate) fn guard(passes: bool, why: Refusal) -> Result<(), Refusal>
    ensures { Decides (guard passes why) result }
{
    if passes { Ok(()) } else { Err(why) }
}

/// Refuses what changes a volume, unless that is made and not sealed.
pub(crate) fn guard_open(made: bool, sealed: bool) -> Result<(), Refusal>
    ensures { Decides (guard_open made sealed) result }
{
    guard(made, Refusal::Volume)?;
    guard(!sealed, Refusal::Sealed)
}

/// Refuses what changes a file, unless its volume is made and not sealed, and has the file.
pub(crate) fn guard_file(made: bool, sealed: bool, files: u64, f: u16) -> Result<(), Refusal>
    ensures { Decides (λ later. guard_open made sealed (guard (has_file files f) File later)) result }
{
    guard_open(made, sealed)?;
    guard(has_file(files, f), Refusal::File)
}

/// The reply to a message that changes something.
pub(crate) fn reply_to_change(done: Result<(), Refusal>) -> Reply
    ensures { result ≡ reply_to_change done }
{
    match done {
        Ok(()) => Reply::Done,
        Err(why) => Reply::Refused(why),
    }
}
