//! What is done with hands.
ghost use Rattle.std.specs.Prelude.{position, ◌≡◌};
ghost use Rattle.histories.specs.MachineState.{is_empty};
ghost use Rattle.scheduler.specs.Hands.{IsTakenFrom, IsRunIn, hand_of};

use parcel::{Done, run};
use scheduler::HandContent;
use std::mem;

/// The number of the first empty hand.
pub(crate) fn first_empty(hands: &[HandContent]) -> Option<usize>
    ensures { result ≡ position (λ h. is_empty (hand_of h)) hands.now }
{
    hands.iter().position(|hand| is_vacant(hand))
}

fn is_vacant(hand: &HandContent) -> bool
    ensures { result ≡ is_empty (hand_of hand.now) }
{
    match hand {
        HandContent::Empty => true,
        HandContent::Job(_) => false,
        HandContent::Result(_) => false,
    }
}

/// Runs the job that the hand has, and returns whether it had one.
pub(crate) fn run_in(hand: &mut HandContent) -> bool
    ensures { IsRunIn hand.old hand.new result }
{
    match mem::replace(hand, HandContent::Empty) {
        HandContent::Empty => false,
        HandContent::Job(job) => {
            *hand = HandContent::Result(run(job));
            true
        }
        HandContent::Result(done) => {
            *hand = HandContent::Result(done);
            false
        }
    }
}

/// Takes the result that the hand has, if it has one.
pub(crate) fn take_result(hand: &mut HandContent) -> Option<Done>
    ensures { IsTakenFrom hand.old hand.new result }
{
    match mem::replace(hand, HandContent::Empty) {
        HandContent::Empty => None,
        HandContent::Job(job) => {
            *hand = HandContent::Job(job);
            None
        }
        HandContent::Result(done) => Some(done),
    }
}
