//! One step of a machine.
ghost use Rattle.histories.specs.declared.outcomes.Step.TheVariants as steps;
ghost use Rattle.scheduler.specs.Hands.{HoldsJobs};
ghost use Rattle.scheduler.specs.IsMachineStep.{IsCoreStep, IsMachineStep};
ghost use Rattle.scheduler.specs.CoreView.{core_state_of};

use crate::hands::{first_empty, run_in, take_result};
use disk::Disk;
use histories::{Outcome, Step};
use protocol::Msg;
use scheduler::{Core, Granted, HandContent};

/// Makes one step, and returns its outcome.
pub(crate) fn make_step<D: Disk>(
    core: &mut Core<D>,
    hands: &mut [HandContent],
    step: &Step,
) -> Outcome
    requires { HoldsJobs core.old.geometry (core_state_of core.old) hands.old }
    ensures step { IsMachineStep D.keeps (record { core = core.old; hands = hands.old })
        (record { core = core.new; hands = hands.new }) step.now result }
    ensures holds { HoldsJobs core.new.geometry (core_state_of core.new) hands.new }
{
    match *step {
        Step::Arrive(message) => take_in(core, &message),
        Step::Grant => grant(core, hands),
        Step::Run(hand) => run_job(core, hands, hand),
        Step::Back(hand) => give_back(core, hands, hand),
        Step::Log(count) => log(core, count),
        Step::Answer => answer(core),
        Step::Point => point(core),
        Step::Cut => cut(core),
        Step::Piece => piece(core),
        Step::Flip => flip(core),
    }
}

// ---- steps with the hands

// Grants the eligible message with the least ticket to the first empty hand.
fn grant<D: Disk>(core: &mut Core<D>, hands: &mut [HandContent]) -> Outcome
    requires { HoldsJobs core.old.geometry (core_state_of core.old) hands.old }
    ensures step { IsMachineStep D.keeps (record { core = core.old; hands = hands.old })
        (record { core = core.new; hands = hands.new }) steps.Grant result }
    ensures holds { HoldsJobs core.new.geometry (core_state_of core.new) hands.new }
{
    core.know_recovery();
    let Some(hand) = first_empty(hands) else {
        return Outcome::Idle;
    };
    match core.grant() {
        Granted::Job(job) => {
            let ticket = job.ticket();
            hands[hand] = HandContent::Job(job);
            Outcome::Granted(hand, ticket)
        }
        Granted::NoneEligible => Outcome::NoneEligible,
        Granted::NoRoom => Outcome::NoRoom,
        Granted::Failed => Outcome::Failed,
    }
}

// Runs the job in a hand. The core is left alone.
fn run_job<D: Disk>(core: &Core<D>, hands: &mut [HandContent], hand: usize) -> Outcome
    requires { HoldsJobs core.now.geometry (core_state_of core.now) hands.old }
    ensures step { IsMachineStep D.keeps (record { core = core.now; hands = hands.old })
        (record { core = core.now; hands = hands.new }) (steps.Run hand) result }
    ensures holds { HoldsJobs core.now.geometry (core_state_of core.now) hands.new }
{
    core.know_recovery();
    if hand >= hands.len() {
        return Outcome::Idle;
    }
    if run_in(&mut hands[hand]) {
        Outcome::Ran
    } else {
        Outcome::Idle
    }
}

// Gives back the result in a hand.
fn give_back<D: Disk>(core: &mut Core<D>, hands: &mut [HandContent], hand: usize) -> Outcome
    requires { HoldsJobs core.old.geometry (core_state_of core.old) hands.old }
    ensures step { IsMachineStep D.keeps (record { core = core.old; hands = hands.old })
        (record { core = core.new; hands = hands.new }) (steps.Back hand) result }
    ensures holds { HoldsJobs core.new.geometry (core_state_of core.new) hands.new }
{
    core.know_recovery();
    if hand >= hands.len() {
        return Outcome::Idle;
    }
    let Some(done) = take_result(&mut hands[hand]) else {
        return Outcome::Idle;
    };
    let ticket = done.ticket();
    core.give_back(done);
    Outcome::Back(ticket)
}

// ---- steps of the core alone

fn take_in<D: Disk>(core: &mut Core<D>, message: &Msg) -> Outcome
    ensures { IsCoreStep D.keeps core.old core.new (steps.Arrive message.now) result }
{
    core.know_recovery();
    match core.arrive(message) {
        Ok(ticket) => Outcome::Ticket(ticket),
        Err(refusal) => Outcome::ArriveRefused(refusal),
    }
}

fn log<D: Disk>(core: &mut Core<D>, count: usize) -> Outcome
    ensures { IsCoreStep D.keeps core.old core.new (steps.Log count) result }
{
    match core.log(count) {
        Ok(logged) => Outcome::Logged(logged),
        Err(fault) => Outcome::LogFault(fault),
    }
}

fn answer<D: Disk>(core: &mut Core<D>) -> Outcome
    ensures { IsCoreStep D.keeps core.old core.new steps.Answer result }
{
    core.know_recovery();
    match core.answer() {
        Some((ticket, reply)) => Outcome::Answered(ticket, reply),
        None => Outcome::Idle,
    }
}

fn point<D: Disk>(core: &mut Core<D>) -> Outcome
    ensures { IsCoreStep D.keeps core.old core.new steps.Point result }
{
    match core.point() {
        Ok(()) => Outcome::Pointed,
        Err(refusal) => Outcome::PointRefused(refusal),
    }
}

fn cut<D: Disk>(core: &mut Core<D>) -> Outcome
    ensures { IsCoreStep D.keeps core.old core.new steps.Cut result }
{
    match core.cut() {
        Ok(()) => Outcome::Cut,
        Err(refusal) => Outcome::PointRefused(refusal),
    }
}

fn piece<D: Disk>(core: &mut Core<D>) -> Outcome
    ensures { IsCoreStep D.keeps core.old core.new steps.Piece result }
{
    match core.piece() {
        Ok(pieces_left) => Outcome::Left(pieces_left),
        Err(refusal) => Outcome::PointRefused(refusal),
    }
}

fn flip<D: Disk>(core: &mut Core<D>) -> Outcome
    ensures { IsCoreStep D.keeps core.old core.new steps.Flip result }
{
    match core.flip() {
        Ok(()) => Outcome::Flipped,
        Err(refusal) => Outcome::PointRefused(refusal),
    }
}
