//! Jobs that were handed out, by their numbers.
ghost use Rattle.std.specs.Prelude.{◌≡◌, ◌+◌, ◌-◌, ◌<◌, ◌≤◌, None, [], ◌∷◌, ◌++◌, nat_eq, length, option_map, slice_get, OnOk, IfErr, if◌then◌else◌};
ghost use Rattle.lv_live.specs.State.{job_at, node_and_version};

use lv_bodies::Body;
use lv_edits::Log;
use lv_geometry::{Node, Refusal};
use lv_refresh::Job;
use std::alloc::Global;
use std::marker::Model;

/// The jobs that were handed out, each under its number: the first is 1. Only node and version of each are kept, 12 bytes in all: what it carried
/// is still in the vector, or is not asked for any more.
#[derive(Drop)]
pub struct Issued<B: Body> {
    most: usize,
    names: Vec<(Node, u32)>,
    jobs: Log<Job<B>>,
}

impl<B: Body> Model for Issued<B> {
    ghost use Rattle.std.specs.Prelude.{◌≡◌, ◌≤◌, ◌-◌, map, min, vec_capacity, vec_len};
    ghost use Rattle.lv_live.specs.State.{IssuedState, node_and_version};

    ghost Value = { IssuedState B B.S };

    ghost view = { λ a. record {
      jobs = a.jobs.items;
      most = a.most;
      room = min (vec_capacity a.names - vec_len a.names) (a.most - vec_len a.names);
    } };

    ghost invariant = { λ a. (a.names.items ≡ map node_and_version a.jobs.items) × (vec_len a.names ≤ a.most) };
}

impl<B: Body> Issued<B> {
    /// No jobs, and room for as many as there is memory for. Takes no memory.
    pub fn new(alloc: Global) -> Issued<B>
        ensures jobs { result.jobs ≡ [] }
        ensures most { result.most ≡ usize.MAX }
    {
        Issued::at_most(alloc, usize::MAX)
    }

    /// No jobs, and never room for more than so many. Takes no memory.
    pub fn at_most(alloc: Global, most: usize) -> Issued<B>
        ensures jobs { result.jobs ≡ [] }
        ensures most { result.most ≡ most }
    {
        Issued {
            most,
            names: Vec::new(alloc),
            jobs: Log::new(),
        }
    }

    /// Makes room for so many more jobs. The jobs stay as they are. Refused with `NoMemory`, also if there would be more jobs than are allowed.
    pub fn make_room(&mut self, more: usize) -> Result<(), Refusal>
        ensures ok { OnOk result (more ≤ self.new.room) }
        ensures few { OnOk result (length self.old.jobs + more ≤ self.old.most) }
        ensures err { IfErr result (λ refusal. refusal ≡ Refusal.NoMemory) }
        ensures jobs { self.new.jobs ≡ self.old.jobs }
        ensures most { self.new.most ≡ self.old.most }
    {
        if self.most - self.names.len() < more {
            return Err(Refusal::NoMemory);
        }
        let Ok(()) = self.names.reserve(more) else {
            return Err(Refusal::NoMemory);
        };
        Ok(())
    }

    /// Keeps a job, for which room was made before, and returns its number.
    pub fn keep(&mut self, job: Job<B>) -> u64
        requires { 0 < self.old.room }
        ensures number { result ≡ length self.old.jobs + 1 }
        ensures jobs { self.new.jobs ≡ self.old.jobs ++ job ∷ [] }
        ensures room { self.old.room ≤ self.new.room + 1 }
        ensures most { self.new.most ≡ self.old.most }
    {
        self.names.push_reserved((job.node(), job.version()));
        self.jobs = self.jobs.and(&job);
        self.names.len() as u64
    }

    /// Node and version of the job of a number, if there is one of that number.
    pub fn named(&self, number: u64) -> Option<(Node, u32)>
        ensures { result ≡ option_map node_and_version (job_at self.now.jobs number) }
    {
        name_at(&self.names, number)
    }
}

// The name of a number, counted from 1, if there is one.
fn name_at(names: &[(Node, u32)], number: u64) -> Option<(Node, u32)>
    ensures { result ≡ (if nat_eq number 0 then None else slice_get names.now (number - 1)) }
{
    names.get(number.checked_sub(1)? as usize).copied()
}
