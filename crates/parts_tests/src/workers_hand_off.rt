//! Jobs handed to real threads, and their results.
//!
//! `Bench::open` takes the number of places and that of workers, of which each has one of the `seats`; in clauses `slots` is the number of
//! places. A gate is a hook: `OpenGate` does nothing, so it holds no job up.
ghost use Rattle.std.specs.Prelude.{◌≡◌, ◌<◌, ◌≤◌};

use crate::assertions::{assert_equal, assert_true};
use affinity::{Geometry, place_of};
use message::{Block, Msg, Reply};
use parcel::{Job, Tree, run};
use std::alloc::Global;
use std::hint::spin_loop;
use std::marker::Model;
use std::rt::Env;
use std::sync::Wait;
use std::sync::atomic::{AtomicBool, AtomicU64, Ordering};
use std::test::Fail;
use std::thread::Threads;
use std::{env, thread};
use workers::{Bench, DispatchSeat, DispatcherTask, Gate, OpenGate};

/// One volume of two files of four blocks, in two stripes that hold two blocks each. In order: aggregates, volumes, stripes, width, files,
/// blocks, quota, records in a half.
const SMALL: [u16; 8] = [1, 1, 2, 1, 2, 4, 2, 4];

/// How often a test tries before it gives up: for some ten seconds, as a busy system may run a thread that was woken half a second later.
const MOST_TRIES: u32 = 30_000_000;

/// How many kinds of message there are.
const KINDS: u64 = 14;

/// How far apart the tickets of the jobs at one place of the bench are, from round to round: more than there are places, so that no ticket
/// comes twice, and coprime to `KINDS`, so that each place gets jobs of every kind.
const STRIDE: u64 = 65;

/// How often two jobs are offered while one worker may spin and the other sleeps.
const MEETINGS: u64 = 500;

/// How long the test pauses so that an idle worker is asleep, in turns of a loop: more than the 2,048 for which a worker spins.
const LONG_PAUSE: u64 = 5_000;

/// The pause before the two jobs are offered has fewer turns than this, so that the worker that just ended a job still spins.
const SHORT_PAUSES: u64 = 50;

// A message of each kind.
fn message(kind: u64) -> Msg {
    match kind {
        0 => Msg::MakeVol(0, 0),
        1 => Msg::DropVol(0, 0),
        2 => Msg::Create(0, 0, 0),
        3 => Msg::Delete(0, 0, 0),
        4 => Msg::Seal(0, 0),
        5 => Msg::Unseal(0, 0),
        6 => Msg::Write(0, 0, 0, 0, Block([7; 512])),
        7 => Msg::Punch(0, 0, 0, 0),
        8 => Msg::Read(0, 0, 0, 0),
        9 => Msg::List(0, 0),
        10 => Msg::Usage(0, 0),
        11 => Msg::Summary,
        12 => Msg::SetLabel(0, 0, [7; 32]),
        _ => Msg::Label(0, 0),
    }
}

// The job of a ticket: a message whose kind is the ticket modulo `KINDS`, on a new tree.
fn job(alloc: Global, ticket: u64) -> Result<Option<Job>, Fail> {
    let mut tree = Tree::new(alloc, Geometry::new(SMALL)?)?;
    let g = tree.geometry();
    let message = message(ticket % KINDS);
    let Some(a) = place_of(&g, message.kind(), message.numbers()) else {
        return Ok(None);
    };
    let Some((standing, parcels)) = tree.lend(a) else {
        return Ok(None);
    };
    Ok(Some(Job::new(g, ticket, message, standing, parcels)))
}

// The reply to the message of a ticket where it runs alone.
fn reply_alone(alloc: Global, ticket: u64) -> Result<Option<Reply>, Fail> {
    let Some(job) = job(alloc, ticket)? else {
        return Ok(None);
    };
    Ok(Some(*run(job).reply()))
}

// Offers the job of a ticket at place k of the bench. Returns whether the place took it.
fn offer(
    bench: &Bench,
    dispatch_seat: &mut DispatchSeat,
    alloc: Global,
    k: usize,
    ticket: u64,
) -> Result<bool, Fail>
    requires { (dispatch_seat.old.bench ≡ bench.now) × (k < bench.now.slots) }
    ensures { dispatch_seat.new.bench ≡ dispatch_seat.old.bench }
{
    let Some(job) = job(alloc, ticket)? else {
        return Ok(false);
    };
    Ok(bench.offer(dispatch_seat, k, job).is_ok())
}

// The ticket and the reply of the result at a place, once it is there; none if the test gives up.
fn collect(bench: &Bench, dispatch_seat: &mut DispatchSeat, k: usize) -> Option<(u64, Reply)>
    requires { (dispatch_seat.old.bench ≡ bench.now) × (k < bench.now.slots) }
    ensures { dispatch_seat.new.bench ≡ dispatch_seat.old.bench }
{
    for _ in 0..MOST_TRIES {
        if let Some(done) = bench.collect(dispatch_seat, k) {
            return Some((done.ticket(), *done.reply()));
        }
        thread::yield_now();
    }
    None
}

// Whether the job of a ticket is handed back by a place that isn't free.
fn is_handed_back(
    bench: &Bench,
    dispatch_seat: &mut DispatchSeat,
    alloc: Global,
    k: usize,
    ticket: u64,
) -> Result<bool, Fail>
    requires { (dispatch_seat.old.bench ≡ bench.now) × (k < bench.now.slots) }
    ensures { dispatch_seat.new.bench ≡ dispatch_seat.old.bench }
{
    let Some(job) = job(alloc, ticket)? else {
        return Ok(false);
    };
    match bench.offer(dispatch_seat, k, job) {
        Ok(()) => Ok(false),
        Err(back) => Ok(back.ticket() == ticket),
    }
}

// One job offered at place 0 of two, which nobody runs yet: the next one is handed back there, and no
// result is anywhere.
fn offers_one(bench: &Bench, dispatch_seat: &mut DispatchSeat, alloc: Global) -> Result<bool, Fail>
    requires { (dispatch_seat.old.bench ≡ bench.now) × (1 < bench.now.slots) }
    ensures { dispatch_seat.new.bench ≡ dispatch_seat.old.bench }
{
    let first = offer(bench, dispatch_seat, alloc, 0, 11)?;
    let second = is_handed_back(bench, dispatch_seat, alloc, 0, 12)?;
    let nothing = bench.collect(dispatch_seat, 0).is_none()
        && bench.collect(dispatch_seat, 1).is_none();
    Ok(first && second && nothing)
}

/// The test passes also if any one request for memory in it is refused.
#[test]
fn a_bench_is_opened_at_the_next_try(rt: HostRuntime) -> Result<(), Fail> {
    let alloc = rt.alloc();
    let (_bench, dispatch_seat, seats) = match Bench::open(alloc, 2, 3) {
        Ok(opened) => opened,
        Err(_) => Bench::open(alloc, 2, 3)?,
    };
    assert_true(&rt, !dispatch_seat.any_lent());
    assert_equal(&rt, (dispatch_seat.places(), seats.len()), (2, 3));
    Ok(())
}

// Of each of many jobs at place 0, one after the other, the result is there when the wait for it returns.
fn jobs_waited_for<R: Wait>(
    bench: &Bench,
    dispatch_seat: &mut DispatchSeat,
    alloc: Global,
    rt: &R,
) -> Result<bool, Fail>
    requires { (dispatch_seat.old.bench ≡ bench.now) × (0 < bench.now.slots) }
    ensures { dispatch_seat.new.bench ≡ dispatch_seat.old.bench }
{
    let mut fine = true;
    for ticket in 0..1_000 {
        if !offer(bench, dispatch_seat, alloc, 0, ticket)? {
            return Ok(false);
        }
        bench.wait(rt, dispatch_seat);
        fine = fine
            && bench
                .collect(dispatch_seat, 0)
                .is_some_and(|done| done.ticket() == ticket);
    }
    Ok(fine)
}

// A gate that holds up the job of each even ticket until the result of the next ticket was collected.
#[derive(Drop)]
struct Delaying {
    // The ticket of which the hook `answered` was called last.
    answered: AtomicU64,
    // Whether a job was held up in vain: that call didn't come.
    gave_up: AtomicBool,
}

impl Delaying {
    fn new() -> Delaying {
        Delaying {
            answered: AtomicU64::new(0),
            gave_up: AtomicBool::new(false),
        }
    }
}

impl Gate for Delaying {
    fn before(&self, ticket: u64) {
        if ticket % 2 == 1 {
            return;
        }
        for _ in 0..MOST_TRIES {
            if self.answered.load(Ordering::SeqCst) > ticket {
                return;
            }
            thread::yield_now();
        }
        self.gave_up.store(true, Ordering::SeqCst);
    }

    fn answered(&self, ticket: u64) {
        self.answered.store(ticket, Ordering::SeqCst);
    }
}

// Two jobs are offered, of an even ticket and the next one. The second one's result is collected while the first job is held up, and then
// the first one's.
fn two_jobs(
    bench: &Bench,
    dispatch_seat: &mut DispatchSeat,
    alloc: Global,
    gate: &Delaying,
    ticket: u64,
) -> Result<bool, Fail>
    requires { (dispatch_seat.old.bench ≡ bench.now) × (1 < bench.now.slots) }
    ensures { dispatch_seat.new.bench ≡ dispatch_seat.old.bench }
{
    let behind = ticket.wrapping_add(1);
    let (Some(first), Some(second)) = (job(alloc, ticket)?, job(alloc, behind)?) else {
        return Ok(false);
    };
    let offered = bench.offer(dispatch_seat, 0, first).is_ok()
        && bench.offer(dispatch_seat, 1, second).is_ok();
    let answered = collect(bench, dispatch_seat, 1).is_some();
    // The hook, which lets the first job run.
    gate.answered(behind);
    let freed = collect(bench, dispatch_seat, 0).is_some();
    Ok(offered && answered && freed && !gate.gave_up.load(Ordering::SeqCst))
}

// Lets some time pass, in turns of a loop.
fn pause(turns: u64) {
    for _ in 0..turns {
        spin_loop();
    }
}

// Again and again one of two workers has just done a job, and spins, while the other sleeps. Then two jobs are offered at once. No offer
// wakes the sleeper while a worker spins; if that one claims the first job, where the gate holds it up, its claim has to wake the other for
// the second job.
fn all_meetings(
    bench: &Bench,
    dispatch_seat: &mut DispatchSeat,
    alloc: Global,
    gate: &Delaying,
    meetings: u64,
) -> Result<bool, Fail>
    requires { (dispatch_seat.old.bench ≡ bench.now) × (1 < bench.now.slots) }
    ensures { dispatch_seat.new.bench ≡ dispatch_seat.old.bench }
{
    for meeting in 0..meetings {
        pause(LONG_PAUSE);
        let single = meeting.wrapping_mul(4).wrapping_add(1);
        let done = offer(bench, dispatch_seat, alloc, 0, single)?
            && collect(bench, dispatch_seat, 0).is_some();
        pause(meeting % SHORT_PAUSES);
        if !done || !two_jobs(bench, dispatch_seat, alloc, gate, single.wrapping_add(1))? {
            return Ok(false);
        }
    }
    Ok(true)
}

// The most rounds or meetings that a test makes: `BENCH_ROUNDS` of the environment, else no limit.
fn most_rounds<R: Env + Alloc>(rt: &R) -> u64 {
    match env::var(rt, "BENCH_ROUNDS") {
        Ok(text) => text.as_str().parse::<u64>().unwrap_or(u64::MAX),
        Err(_) => u64::MAX,
    }
}

// Two jobs at once, and then the meetings.
fn first_and_meetings(
    bench: &Bench,
    dispatch_seat: &mut DispatchSeat,
    alloc: Global,
    gate: &Delaying,
    meetings: u64,
) -> Result<bool, Fail>
    requires { (dispatch_seat.old.bench ≡ bench.now) × (1 < bench.now.slots) }
    ensures { dispatch_seat.new.bench ≡ dispatch_seat.old.bench }
{
    let first = two_jobs(bench, dispatch_seat, alloc, gate, 0)?;
    Ok(first && all_meetings(bench, dispatch_seat, alloc, gate, meetings)?)
}

// The reply to each kind of message where it runs alone.
fn replies_alone(alloc: Global) -> Result<Vec<Option<Reply>>, Fail> {
    let mut replies = Vec::new(alloc);
    for kind in 0..KINDS {
        replies.push(reply_alone(alloc, kind)?)?;
    }
    Ok(replies)
}

// Whether the result that came is that of this ticket, with the reply that its message gets alone.
fn is_answer(came: Option<(u64, Reply)>, ticket: u64, alone: &[Option<Reply>]) -> bool {
    match came {
        Some((back, reply)) => {
            back == ticket && alone.get((ticket % KINDS) as usize) == Some(&Some(reply))
        }
        None => false,
    }
}

// The ticket and the reply of the result at a place: the dispatcher sleeps until it is there.
fn await_result<R: Wait>(
    bench: &Bench,
    dispatch_seat: &mut DispatchSeat,
    rt: &R,
    k: usize,
) -> Option<(u64, Reply)>
    requires { (dispatch_seat.old.bench ≡ bench.now) × (k < bench.now.slots) }
    ensures { dispatch_seat.new.bench ≡ dispatch_seat.old.bench }
{
    for _ in rt.forever() {
        if let Some(done) = bench.collect(dispatch_seat, k) {
            return Some((done.ticket(), *done.reply()));
        }
        bench.wait(rt, dispatch_seat);
    }
    None
}

// Offers a job at each place, from the second round on once the result of the job before it there was collected. Returns whether each
// result was right and each offer was taken.
fn offer_round<R: Wait>(
    bench: &Bench,
    dispatch_seat: &mut DispatchSeat,
    with: (&R, Global),
    places: usize,
    round: u64,
    alone: &[Option<Reply>],
) -> Result<bool, Fail>
    requires { (dispatch_seat.old.bench ≡ bench.now) × (places ≡ bench.now.slots) }
    ensures { dispatch_seat.new.bench ≡ dispatch_seat.old.bench }
{
    let (rt, alloc) = with;
    for k in 0..places {
        // The ticket of the job before it there.
        let before = round.wrapping_mul(STRIDE).wrapping_add(k as u64);
        if round > 0 && !is_answer(await_result(bench, dispatch_seat, rt, k), before, alone) {
            return Ok(false);
        }
        if !offer(bench, dispatch_seat, alloc, k, before.wrapping_add(STRIDE))? {
            return Ok(false);
        }
    }
    Ok(true)
}

// Collects the result of the last job at each place. Returns whether each was right, and nothing was left at its place.
fn collect_round<R: Wait>(
    bench: &Bench,
    dispatch_seat: &mut DispatchSeat,
    rt: &R,
    places: usize,
    round: u64,
    alone: &[Option<Reply>],
) -> bool
    requires { (dispatch_seat.old.bench ≡ bench.now) × (places ≡ bench.now.slots) }
    ensures { dispatch_seat.new.bench ≡ dispatch_seat.old.bench }
{
    for k in 0..places {
        let last = round.wrapping_mul(STRIDE).wrapping_add(k as u64);
        let came = await_result(bench, dispatch_seat, rt, k);
        if !is_answer(came, last, alone) || bench.collect(dispatch_seat, k).is_some() {
            return false;
        }
    }
    true
}

// Hands jobs over at each place, with a ticket of its own each, and sleeps while none is delivered.
// Returns whether each was collected once, with the reply that its message gets alone.
fn all_jobs<R: Wait>(
    bench: &Bench,
    dispatch_seat: &mut DispatchSeat,
    with: (&R, Global),
    places: usize,
    rounds: u64,
) -> Result<bool, Fail>
    requires { (dispatch_seat.old.bench ≡ bench.now) × (places ≡ bench.now.slots) }
    ensures { dispatch_seat.new.bench ≡ dispatch_seat.old.bench }
{
    let (rt, alloc) = with;
    let alone = replies_alone(alloc)?;
    for round in 0..rounds {
        if !offer_round(bench, dispatch_seat, with, places, round, &alone)? {
            return Ok(false);
        }
    }
    Ok(collect_round(bench, dispatch_seat, rt, places, rounds, &alone))
}

// What is done at a bench while workers work there.
#[derive(Clone, Copy)]
enum Work<'c> {
    Nothing,
    // The result of the job with ticket 11 is collected at place 0, and compared with the replies that messages get alone.
    Collect(&'c [Option<Reply>]),
    // That job is offered there before.
    OfferAndCollect(&'c [Option<Reply>]),
    WaitForJobs,
    // Two jobs at once, and so many meetings, with this gate.
    Meet(&'c Delaying, u64),
    // So many rounds of jobs at all places.
    HandOff(u64),
}

// The dispatcher at a bench.
#[derive(Drop)]
struct AtBench<'c> {
    bench: &'c Bench,
    dispatch_seat: DispatchSeat,
    places: usize,
    alloc: Global,
    work: Work<'c>,
}

impl<'c> Model for AtBench<'c> {
    ghost use Rattle.std.specs.Prelude.{◌≡◌};
    ghost use Rattle.workers.specs.Seats.{DispatchSeatView};

    ghost Value = { DispatchSeatView };

    ghost view = { λ s. s.dispatch_seat };

    ghost invariant = { λ s. (s.dispatch_seat.bench ≡ s.bench.now) × (s.places ≡ s.bench.now.slots) };
}

impl<'c> DispatcherTask<Result<bool, Fail>> for AtBench<'c> {
    // It may begin at any time, and nothing is promised of what it gives.
    ghost can_begin = { λ s. Unit {0} };

    ghost gives = { λ old new end. Unit {0} };

    fn run_task<T: Wait, G: Gate>(&mut self, rt: &T, gate: &G) -> Result<bool, Fail> {
        let _ = gate;
        let (bench, places, alloc, work) = (self.bench, self.places, self.alloc, self.work);
        if places < 1 {
            return Ok(false);
        }
        let seat = &mut self.dispatch_seat;
        match work {
            Work::Nothing => Ok(true),
            Work::Collect(alone) => Ok(is_answer(collect(bench, seat, 0), 11, alone)),
            Work::OfferAndCollect(alone) => Ok(
                offer(bench, seat, alloc, 0, 11)? && is_answer(collect(bench, seat, 0), 11, alone),
            ),
            Work::WaitForJobs => jobs_waited_for(bench, seat, alloc, rt),
            Work::Meet(gate, meetings) => {
                Ok(places > 1 && first_and_meetings(bench, seat, alloc, gate, meetings)?)
            }
            Work::HandOff(rounds) => all_jobs(bench, seat, (rt, alloc), places, rounds),
        }
    }

    fn stop_workers(&mut self) {
        self.bench.stop(&mut self.dispatch_seat);
    }
}

// Does this at a new bench.
fn at_bench<R: Threads + Wait + Sync, G: Gate + Sync>(
    rt: &R,
    alloc: Global,
    gate: &G,
    places: usize,
    workers: usize,
    work: Work<'_>,
) -> Result<bool, Fail>
    requires { places ≤ 64 }
{
    let (bench, dispatch_seat, seats) = Bench::open(alloc, places, workers)?;
    let mut dispatcher = AtBench {
        bench: &bench,
        dispatch_seat,
        places,
        alloc,
        work,
    };
    bench.with_workers(rt, gate, seats, &mut dispatcher)?
}

// The job is offered before there are workers.
#[test]
fn one_worker_answers_one_job(rt: HostRuntime) -> Result<(), Fail> {
    let alloc = rt.alloc();
    let alone = replies_alone(alloc)?;
    let (bench, mut dispatch_seat, seats) = Bench::open(alloc, 2, 1)?;
    let offered = offers_one(&bench, &mut dispatch_seat, alloc)?;
    let mut dispatcher = AtBench {
        bench: &bench,
        dispatch_seat,
        places: 2,
        alloc,
        work: Work::Collect(alone.as_slice()),
    };
    let collected = bench.with_workers(&rt, &OpenGate, seats, &mut dispatcher)??;
    assert_true(&rt, offered && collected);
    Ok(())
}

// If `with_workers` doesn't stop the worker once the task is done, this test doesn't end.
#[test]
fn a_task_is_done_beside_a_worker(rt: HostRuntime) -> Result<(), Fail> {
    let alone = replies_alone(rt.alloc())?;
    let work = Work::OfferAndCollect(alone.as_slice());
    let fine = at_bench(&rt, rt.alloc(), &OpenGate, 2, 1, work)?;
    assert_true(&rt, fine);
    Ok(())
}

// Where a thread can't be started, the scope waits for those that run: so the test ends only if `with_workers` has stopped the bench.
#[test]
fn a_bench_with_no_job_starts_and_ends(rt: HostRuntime) -> Result<(), Fail> {
    let fine = at_bench(&rt, rt.alloc(), &OpenGate, 2, 3, Work::Nothing)?;
    assert_true(&rt, fine);
    Ok(())
}

#[test]
fn a_wait_ends_with_the_delivery(rt: HostRuntime) -> Result<(), Fail> {
    let fine = at_bench(&rt, rt.alloc(), &OpenGate, 1, 1, Work::WaitForJobs)?;
    assert_true(&rt, fine);
    Ok(())
}

// Whether two jobs run at once at a bench with two workers, and again in each of the meetings.
fn two_workers_meet<R: Threads + Wait + Sync>(
    rt: &R,
    alloc: Global,
    meetings: u64,
) -> Result<bool, Fail> {
    let gate = Delaying::new();
    at_bench(rt, alloc, &gate, 2, 2, Work::Meet(&gate, meetings))
}

#[test]
fn two_jobs_run_at_once(rt: HostRuntime) -> Result<(), Fail> {
    let fine = two_workers_meet(&rt, rt.alloc(), 0)?;
    assert_true(&rt, fine);
    Ok(())
}

#[test]
fn a_worker_that_is_held_up_wakes_another(rt: HostRuntime) -> Result<(), Fail> {
    let meetings = most_rounds(&rt).min(MEETINGS);
    let fine = two_workers_meet(&rt, rt.alloc(), meetings)?;
    assert_true(&rt, fine);
    Ok(())
}

#[test]
fn each_of_100000_jobs_comes_back_once(rt: HostRuntime) -> Result<(), Fail> {
    let most = most_rounds(&rt);
    for (places, rounds) in [(1, 25_000), (2, 12_500), (8, 3_125), (64, 391)] {
        let work = Work::HandOff(most.min(rounds));
        let fine = at_bench(&rt, rt.alloc(), &OpenGate, places, places, work)?;
        assert_true(&rt, fine);
    }
    Ok(())
}
