//! Messages at a Volume Logical, the files of a volume with its stripes: they make, remove and list files.

ghost use Rattle.std.specs.Prelude.{◌≡◌, ℕ, ◌<◌, slice_index_or, None, vec_len};
ghost use Rattle.protocol.specs.declared.messages.Msg.{Msg};
ghost use Rattle.parcel.specs.Removes.{Removes, is_removed};
ghost use Rattle.parcel.specs.Fits.{FitsLogical, IsRunnable};
ghost use Rattle.parcel.specs.Whole.{IsWholeLogical};
ghost use Rattle.parcel.specs.JobRun.{IsStepOn};
ghost use Rattle.parcel.specs.Shown.{logical_facts};
ghost use Rattle.parcel.specs.VolumeStep.{IsVolumeStep, reply_to_change};
ghost use Rattle.parcel.specs.declared.parts.Parcels.{Parcels};

use super::refusals::{guard, guard_file, guard_open, reply_to_change};
use crate::{Logical, Standing, StripeParcel};
use affinity::Geometry;
use protocol::{Msg, Refusal, Reply, has_file};

/// Makes a file, without blocks.
fn create(logical: &mut Logical, g: &Geometry, standing: Standing, f: u16) -> Result<(), Refusal>
    requires file { f < g.now.files }
    requires fits { FitsLogical g.now logical.old }
    ensures step { IsVolumeStep g.now (λ a v. Msg.Create a v f) (logical_facts g.now standing logical.old)
        (reply_to_change result) (logical_facts g.now standing logical.new) }
    ensures fits { FitsLogical g.now logical.new }
    ensures stripes { logical.new.stripes ≡ logical.old.stripes }
{
    guard_open(standing.made, standing.sealed)?;
    guard(!has_file(logical.files, f), Refusal::Exists)?;
    logical.files |= 1 << f;
    Ok(())
}

/// Removes the blocks of a file from a stripe, or all where no file is given, unless the stripe is lent.
fn remove_in(node: &mut Option<StripeParcel>, file: Option<u16>)
    ensures { Removes (is_removed file) node.old node.new }
{
    if let Some(stripe) = node {
        match file {
            Some(f) => stripe.drop_file(f),
            None => stripe.drop_all(),
        }
    }
}

/// Removes the blocks of a file, or all where no file is given, from each stripe that isn't lent.
pub(super) fn remove_blocks(stripes: &mut Vec<Option<StripeParcel>>, file: Option<u16>)
    ensures count { vec_len stripes.new ≡ vec_len stripes.old }
    ensures each { (s : ℕ) → s < vec_len stripes.old
        → Removes (is_removed file) (slice_index_or stripes.old.items s None) (slice_index_or stripes.new.items s None) }
{
    for s in 0..stripes.len() {
        remove_in(&mut stripes[s], file);
    }
}

/// Removes a file and its blocks.
fn delete(logical: &mut Logical, g: &Geometry, standing: Standing, f: u16) -> Result<(), Refusal>
    requires file { f < g.now.files }
    requires fits { FitsLogical g.now logical.old }
    requires whole { IsWholeLogical logical.old }
    ensures step { IsVolumeStep g.now (λ a v. Msg.Delete a v f) (logical_facts g.now standing logical.old)
        (reply_to_change result) (logical_facts g.now standing logical.new) }
    ensures fits { FitsLogical g.now logical.new }
    ensures whole { IsWholeLogical logical.new }
{
    guard_file(standing.made, standing.sealed, logical.files, f)?;
    logical.files &= !(1 << f);
    remove_blocks(&mut logical.stripes, Some(f));
    Ok(())
}

/// Which files there are.
fn list(logical: &Logical, g: &Geometry, standing: Standing) -> Reply
    requires fits { FitsLogical g.now logical.now }
    ensures { IsVolumeStep g.now Msg.List (logical_facts g.now standing logical.now) result (logical_facts g.now standing logical.now) }
{
    if !standing.made {
        return Reply::Refused(Refusal::Volume);
    }
    Reply::Files(logical.files)
}

/// Runs a message at a Volume Logical.
pub(crate) fn run_at_logical(
    logical: &mut Logical,
    g: &Geometry,
    standing: Standing,
    message: &Msg,
) -> Reply
    requires { IsRunnable g.now message.now (Parcels.Logical logical.old) }
    ensures step { IsStepOn g.now message.now standing (Parcels.Logical logical.old) result (Parcels.Logical logical.new) }
    ensures runnable { IsRunnable g.now message.now (Parcels.Logical logical.new) }
{
    match message {
        Msg::Create(_, _, f) => reply_to_change(create(logical, g, standing, *f)),
        Msg::Delete(_, _, f) => reply_to_change(delete(logical, g, standing, *f)),
        Msg::List(..) => list(logical, g, standing),
        _ => unreachable!(),
    }
}
