//! What the dispatcher does at a bench while workers run there.

ghost use Rattle.std.specs.Prelude.{◌≡◌, All, IfOk, OnErr};

use crate::bench::Bench;
use crate::gate::Gate;
use crate::seats::WorkSeat;
use std::alloc::AllocError;
use std::sync::Wait;
use std::thread;
use std::thread::Threads;

/// What the calling thread does at a bench while others work there, and its result.
pub trait DispatcherTask<E> {
    /// Whether the task can be begun.
    ghost can_begin: { Self → Type 0 };

    /// What the task promises: a relation of the task before, the task afterwards, and the result.
    ghost gives: { Self → Self → E → Type 0 };

    /// Does the task.
    fn run_task<T: Wait, G: Gate>(&mut self, rt: &T, gate: &G) -> E
        requires { can_begin self.old }
        ensures { gives self.old self.new result };

    /// Signals the workers to end, also where one of them could not be started.
    fn stop_workers(&mut self)
        ensures { self.new ≡ self.old };
}

/// For the proof alone: ends a `&mut` borrow, so that its owner knows that the value stays as it is now. (No job is lent here.)
pub fn know_returned<T>(lent: &mut T)
    ensures { lent.new ≡ lent.old }
{
    let _ = lent;
}

impl Bench {
    /// Does a task while a worker works at each of these seats. All of them have ended when it returns.
    ///
    /// # Errors
    ///
    /// `AllocError` where a thread can't be started. The task was not begun then.
    pub fn with_workers<'c, T: Threads + Wait + Sync, G: Gate + Sync, E, S: DispatcherTask<E>>(
        &'c self,
        rt: &'c T,
        gate: &'c G,
        seats: Vec<WorkSeat>,
        task: &mut S,
    ) -> Result<E, AllocError>
        requires can_begin { S.can_begin task.old }
        requires seats { All (λ w. w ≡ self.now) seats.items }
        ensures gives { IfOk result (λ end. S.gives task.old task.new end) }
        ensures not_begun { OnErr result (task.new ≡ task.old) }
    {
        let (ended, task) = thread::scope(
            thread::scope_env(),
            rt,
            move |scope|
                requires can_begin { S.can_begin task.now }
                requires seats { All (λ w. w ≡ self.now) seats.items }
                ensures same { result.1.ghost_name ≡ task.entry.ghost_name }
                ensures gives { IfOk result.0 (λ end. S.gives task.entry.now result.1.now end) }
                ensures not_begun { OnErr result.0 (result.1.now ≡ task.entry.now) }
            {
                let ended = match self.start_all(rt, scope, seats, gate) {
                    Ok(()) => Ok(task.run_task(rt, gate)),
                    Err(why) => Err(why),
                };
                task.stop_workers();
                (ended, task)
            },
        );
        know_returned(task);
        ended
    }
}
