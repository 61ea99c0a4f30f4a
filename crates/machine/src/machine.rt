//! The machine itself.
ghost use Rattle.std.specs.Prelude.{◌≡◌, IfErr, IfOk, length, replicate};
ghost use Rattle.histories.specs.MachineState.{Empty};
ghost use Rattle.scheduler.specs.Runs.{HasRun};
ghost use Rattle.scheduler.specs.Machine.{machine_of};
ghost use Rattle.scheduler.specs.declared.hands.HandContent.TheVariants as has;
ghost use Rattle.scheduler.specs.CoreView.{core_state_of};

use crate::stepping::make_step;
use disk::Disk;
use histories::{Outcome, Step};
use scheduler::{Core, HandContent};
use std::alloc::{AllocError, Global};
use std::marker::Model;

/// The core of a server, and a row of hands for the jobs in flight. All memory is taken by `new`.
#[derive(Drop)]
pub struct Machine<D: Disk> {
    core: Core<D>,
    hands: Vec<HandContent>,
}

/// There was no memory for the hands. The core is as it was.
#[derive(Drop)]
pub struct MachineError<D: Disk> {
    pub core: Core<D>,
}

impl<D: Disk> Model for Machine<D> {
    ghost use Rattle.scheduler.specs.Machine.{MachineView};
    ghost use Rattle.scheduler.specs.Hands.{HoldsJobs};
    ghost use Rattle.scheduler.specs.CoreView.{core_state_of};

    ghost Value = { MachineView };

    ghost view = { λ m. record { core = m.core; hands = m.hands.items } };

    ghost invariant = { λ m. HoldsJobs m.core.geometry (core_state_of m.core) m.hands.items };
}

impl<D: Disk> Machine<D> {
    /// A machine with `hands` empty hands.
    pub fn new(alloc: Global, core: Core<D>, hands: usize) -> Result<Machine<D>, MachineError<D>>
        ensures made { IfOk result (λ m. machine_of m ≡ record { core = core_state_of core; hands = replicate hands Empty }) }
        ensures kept { IfOk result (λ m. m.core ≡ core) }
        ensures refused { IfErr result (λ e. e.core ≡ core) }
    {
        core.know_recovery();
        match empty_hands(alloc, hands) {
            Ok(hands) => Ok(Machine { core, hands }),
            Err(_) => Err(MachineError { core }),
        }
    }

    /// Makes the steps, one after the other, and gives each its outcome. Any list of steps will do: a step that has nothing
    /// to do, or names a hand that isn't there, is `Idle` and changes nothing.
    pub fn run(&mut self, steps: &[Step], outcomes: &mut [Outcome])
        requires { length steps.now ≡ length outcomes.old }
        ensures { HasRun D.keeps self.old self.new steps.now outcomes.new }
    {
        for (i, step) in steps.iter().enumerate() {
            outcomes[i] = make_step(&mut self.core, &mut self.hands, step);
        }
        self.core.know_recovery();
    }

    /// The core. The jobs and results that the hands have are dropped, so messages in flight stay in flight.
    pub fn into_core(self) -> Core<D>
        ensures { result ≡ self.core }
    {
        let Machine {
            core,
            hands: _hands,
        } = self;
        core
    }
}

// A row of empty hands.
fn empty_hands(alloc: Global, count: usize) -> Result<Vec<HandContent>, AllocError>
    ensures { IfOk result (λ hands. hands.items ≡ replicate count has.Empty) }
{
    let mut hands = Vec::with_capacity(alloc, count)?;
    for _ in 0..count {
        hands.push(HandContent::Empty)?;
    }
    Ok(hands)
}
