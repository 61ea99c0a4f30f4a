//! Runs a message on its parcels: for each kind a small function at the level where it runs.

ghost use Rattle.parcel.specs.Fits.{IsRunnable};
ghost use Rattle.parcel.specs.JobRun.{IsJobRun, IsStepOn};

mod at_aggregate;
mod at_label;
mod at_logical;
mod at_root;
mod at_stripe;
mod at_volume;
mod refusals;
mod totals;

use crate::{Done, Job, Parcels, Standing};
use affinity::Geometry;
use at_aggregate::run_at_aggregate;
use at_label::run_at_label;
use at_logical::run_at_logical;
use at_root::run_at_root;
use at_stripe::run_at_stripe;
use at_volume::run_at_volume;
use protocol::{Msg, Reply};

/// Runs a job: the serial server, in the state that the job's parcels and standing show, gives this reply;
/// afterwards they show the state in which it is then.
#[inline(always)]
pub fn run(job: Job) -> Done
    ensures { IsJobRun job result }
{
    let Job {
        geometry,
        ticket,
        message,
        standing,
        mut parcels,
    } = job;
    let reply = run_on(&mut parcels, &geometry, standing, &message);
    Done {
        ticket,
        message,
        reply,
        parcels,
    }
}

/// Runs a message on the parcels of its place, and gives its reply.
#[inline(never)]
fn run_on(parcels: &mut Parcels, g: &Geometry, standing: Standing, message: &Msg) -> Reply
    requires { IsRunnable g.now message.now parcels.old }
    ensures step { IsStepOn g.now message.now standing parcels.old result parcels.new }
    ensures runnable { IsRunnable g.now message.now parcels.new }
{
    match parcels {
        Parcels::Root(root) => run_at_root(root, g, message),
        Parcels::Aggr(aggregate) => run_at_aggregate(aggregate, g, message),
        Parcels::Vol(volume) => run_at_volume(volume, g, message),
        Parcels::Logical(logical) => run_at_logical(logical, g, standing, message),
        Parcels::Stripe(stripe) => run_at_stripe(stripe, g, standing, message),
        Parcels::Label(label) => run_at_label(label, g, standing, message),
    }
}
