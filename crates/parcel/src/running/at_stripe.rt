//! Messages at a stripe: they write, remove and read blocks.

ghost use Rattle.std.specs.Prelude.{◌≡◌, ◌<◌, ◌||◌, is_some, length, nat_lt};
ghost use Rattle.affinity.specs.declared.geometry.Geometry.{Geometry};
ghost use Rattle.affinity.specs.Geometry.{stripe_of};
ghost use Rattle.protocol.specs.declared.messages.Msg.{Msg};
ghost use Rattle.parcel.specs.Fits.{FitsStripe, IsRunnable};
ghost use Rattle.parcel.specs.JobRun.{IsStepOn};
ghost use Rattle.parcel.specs.Shown.{stripe_facts};
ghost use Rattle.parcel.specs.VolumeStep.{IsVolumeStep, reply_to_change};
ghost use Rattle.stripe.specs.Stripe.{StripeRule, content_at};
ghost use Rattle.parcel.specs.declared.parts.Parcels.{Parcels};

use super::refusals::{guard, guard_file, reply_to_change};
use crate::{Standing, StripeParcel};
use affinity::Geometry;
use protocol::{Block, Msg, Refusal, Reply, has_file};

/// Whether a block is there already, or there is room for one more.
fn has_space(stripe: &StripeParcel, g: &Geometry, f: u16, b: u16) -> bool
    ensures room { result ≡ (is_some (content_at stripe.now.entries f b) || nat_lt (length stripe.now.entries) g.now.quota) }
    ensures kept { StripeRule stripe.now }
{
    stripe.get(f, b).is_some() || stripe.len() < usize::from(g.quota)
}

/// Puts a block into a file.
fn write(
    stripe: &mut StripeParcel,
    g: &Geometry,
    standing: Standing,
    f: u16,
    b: u16,
    content: &Block,
) -> Result<(), Refusal>
    requires file { f < g.now.files }
    requires block { b < g.now.blocks }
    requires fits { FitsStripe g.now (stripe_of g.now f b) stripe.old }
    ensures step { IsVolumeStep g.now (λ a v. Msg.Write a v f b content.now) (stripe_facts standing stripe.old)
        (reply_to_change result) (stripe_facts standing stripe.new) }
    ensures fits { FitsStripe g.now (stripe_of g.now f b) stripe.new }
{
    guard_file(standing.made, standing.sealed, standing.files, f)?;
    guard(has_space(stripe, g, f, b), Refusal::Space)?;
    stripe.set(f, b, content);
    Ok(())
}

/// Removes a block from a file.
fn punch(stripe: &mut StripeParcel, standing: Standing, f: u16, b: u16) -> Result<(), Refusal>
    ensures step { (g : Geometry) → IsVolumeStep g (λ a v. Msg.Punch a v f b) (stripe_facts standing stripe.old)
        (reply_to_change result) (stripe_facts standing stripe.new) }
    ensures fits { (g : Geometry) → FitsStripe g (stripe_of g f b) stripe.old → FitsStripe g (stripe_of g f b) stripe.new }
{
    guard_file(standing.made, standing.sealed, standing.files, f)?;
    stripe.clear(f, b);
    Ok(())
}

/// A block of a file, or a hole where it isn't there.
fn read(stripe: &StripeParcel, standing: Standing, f: u16, b: u16) -> Reply
    ensures { (g : Geometry) → IsVolumeStep g (λ a v. Msg.Read a v f b) (stripe_facts standing stripe.now) result
        (stripe_facts standing stripe.now) }
{
    if !standing.made {
        return Reply::Refused(Refusal::Volume);
    }
    if !has_file(standing.files, f) {
        return Reply::Refused(Refusal::File);
    }
    match stripe.get(f, b) {
        Some(content) => Reply::Block(*content),
        None => Reply::Hole,
    }
}

/// Runs a message at a stripe.
pub(crate) fn run_at_stripe(
    stripe: &mut StripeParcel,
    g: &Geometry,
    standing: Standing,
    message: &Msg,
) -> Reply
    requires { IsRunnable g.now message.now (Parcels.Stripe stripe.old) }
    ensures step { IsStepOn g.now message.now standing (Parcels.Stripe stripe.old) result (Parcels.Stripe stripe.new) }
    ensures runnable { IsRunnable g.now message.now (Parcels.Stripe stripe.new) }
{
    match message {
        Msg::Write(_, _, f, b, content) => {
            reply_to_change(write(stripe, g, standing, *f, *b, content))
        }
        Msg::Punch(_, _, f, b) => reply_to_change(punch(stripe, standing, *f, *b)),
        Msg::Read(_, _, f, b) => read(stripe, standing, *f, *b),
        _ => unreachable!(),
    }
}
