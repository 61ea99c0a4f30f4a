//! A job: a message with the parcels that it runs on; and its result.
ghost use Rattle.std.specs.Prelude.{◌≡◌};
ghost use Rattle.parcel.specs.Fits.{IsRunnable};

use crate::{Parcels, Standing};
use affinity::Geometry;
use protocol::{Msg, Reply};
use std::marker::Model;

/// A message with what it runs on.
#[derive(Drop)]
pub struct Job {
    pub(crate) geometry: Geometry,
    pub(crate) ticket: u64,
    pub(crate) message: Msg,
    pub(crate) standing: Standing,
    pub(crate) parcels: Parcels,
}

impl Model for Job {
    ghost use Rattle.parcel.specs.JobRun.{JobView};
    ghost use Rattle.parcel.specs.Fits.{IsRunnable};

    ghost Value = { JobView };

    ghost view = { λ j. record {
      geometry = j.geometry;
      ticket = j.ticket;
      message = j.message;
      standing = j.standing;
      parcels = j.parcels;
    } };

    ghost invariant = { λ j. IsRunnable j.geometry j.message j.parcels };
}

impl Job {
    ghost use Rattle.parcel.specs.JobRun.{JobView};

    /// The job of a message that is in range, on the parcels of its place, with its standing: what it sees of the nodes above.
    pub fn new(g: Geometry, ticket: u64, msg: Msg, s: Standing, p: Parcels) -> Job
        requires { IsRunnable g msg p }
        ensures { result ≡ record { geometry = g; ticket = ticket; message = msg; standing = s; parcels = p } }
    {
        Job {
            geometry: g,
            ticket,
            message: msg,
            standing: s,
            parcels: p,
        }
    }

    /// The ticket of its message.
    pub fn ticket(&self) -> u64
        ensures { result ≡ self.now.ticket }
    {
        self.ticket
    }
}

/// A message that was run, with its reply and the parcels as it left them. `run` alone makes one.
#[derive(Drop)]
pub struct Done {
    pub(crate) ticket: u64,
    pub(crate) message: Msg,
    pub(crate) reply: Reply,
    pub(crate) parcels: Parcels,
}

impl Done {
    /// The ticket of the message.
    pub fn ticket(&self) -> u64
        ensures { result ≡ self.now.ticket }
    {
        self.ticket
    }

    /// The message.
    pub fn msg(&self) -> &Msg
        ensures { result.now ≡ self.now.message }
    {
        &self.message
    }

    /// The reply to the message.
    pub fn reply(&self) -> &Reply
        ensures { result.now ≡ self.now.reply }
    {
        &self.reply
    }

    /// The parcels on which it ran, as it left them.
    pub fn into_parcels(self) -> Parcels
        ensures { result ≡ self.parcels }
    {
        self.parcels
    }
}
