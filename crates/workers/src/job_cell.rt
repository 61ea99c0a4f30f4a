//! What lies at a place: a job, or the result of one. Job and result have a `Vec` each, so that a move copies only
//! the one that is there, and not the size of the larger.
ghost use Rattle.std.specs.Prelude.{◌≡◌, Option, None, Some, IfOk};
ghost use Rattle.parcel.specs.JobRun.{JobView};
ghost use Rattle.parcel.specs.declared.job.Done.{Done as TheDone};
ghost use Rattle.workers.specs.declared.job_cell.CellContent.TheVariants.{Offered, Delivered};

use parcel::{Done, Job};
use std::alloc::{AllocError, Global};
use std::marker::Model;

/// What a cell holds, as clauses see it. No value of it is made at run time: an enum has the size of its larger case, and the
/// compilers used clear the rest of it where the smaller case is written.
pub enum CellContent {
    Offered(Job),
    Delivered(Done),
}

/// A cell is empty, or it has a job or a result. It has the memory for both from the start. A clause sees
/// what it holds.
#[derive(Drop)]
pub struct JobCell {
    // Each has room for one.
    jobs: Vec<Job>,
    results: Vec<Done>,
}

impl Model for JobCell {
    ghost use Rattle.std.specs.Prelude.{◌+◌, ◌≤◌, length, vec_capacity, Option};
    ghost use Rattle.workers.specs.JobCell.{content_of};
    ghost use Rattle.workers.specs.declared.job_cell.CellContent.{CellContent};

    ghost Value = { Option CellContent };

    ghost view = { λ t. content_of t.jobs.items t.results.items };

    ghost invariant = { λ t. (1 ≤ vec_capacity t.jobs) × (1 ≤ vec_capacity t.results)
        × (length t.jobs.items + length t.results.items ≤ 1) };
}

impl JobCell {
    /// An empty one.
    pub fn new(alloc: Global) -> Result<JobCell, AllocError>
        ensures { IfOk result (λ t. t ≡ None) }
    {
        let jobs = Vec::with_capacity(alloc, 1)?;
        let results = Vec::with_capacity(alloc, 1)?;
        Ok(JobCell { jobs, results })
    }

    /// Lays a job into an empty cell.
    #[inline(always)]
    pub fn lay_job(&mut self, job: Job)
        requires { self.old ≡ None }
        ensures { self.new ≡ Some (Offered job) }
    {
        let Ok(()) = self.jobs.push(job) else {
            unreachable!()
        };
    }

    /// Takes the job out.
    #[inline(always)]
    pub fn take_job(&mut self) -> Job
        requires { (job : JobView) × (self.old ≡ Some (Offered job)) }
        ensures job { self.old ≡ Some (Offered result) }
        ensures empty { self.new ≡ None }
    {
        match self.jobs.pop() {
            Some(job) => job,
            None => unreachable!(),
        }
    }

    /// Lays a result into an empty cell.
    #[inline(always)]
    pub fn lay_result(&mut self, done: Done)
        requires { self.old ≡ None }
        ensures { self.new ≡ Some (Delivered done) }
    {
        let Ok(()) = self.results.push(done) else {
            unreachable!()
        };
    }

    /// Takes the result out.
    #[inline(always)]
    pub fn take_result(&mut self) -> Done
        requires { (done : TheDone) × (self.old ≡ Some (Delivered done)) }
        ensures result { self.old ≡ Some (Delivered result) }
        ensures empty { self.new ≡ None }
    {
        match self.results.pop() {
            Some(done) => done,
            None => unreachable!(),
        }
    }
}
