//! Searches of all that can happen to scripts, which go on where they were given up.
ghost use Rattle.std.specs.Prelude.{◌≡◌, Bool, length, false, IfOk};
ghost use Rattle.apex_orders.specs.Searches.{HasSearched, IsOutcomeSearch};

use crate::orders_fault::OrdersFault;
use crate::outcomes::{Outcomes, ends_of};
use crate::progress::Progress;
use crate::rounds::Rounds;
use apex_module::Config;
use apex_ports::Script;
use apex_types::OutOfMemory;
use std::alloc::Global;
use std::thread::Threads;

/// A search of all that can happen to scripts, with what it has found so far.
#[derive(Drop)]
pub struct OutcomeSearch {
    pub(crate) rounds: Rounds,
}

/// How a search went on.
#[derive(Drop)]
pub enum Searched {
    /// It found all that can happen.
    All(Outcomes),
    /// It was given up for this reason. It can go on, with a greater bound or when `progress` allows it.
    GivenUp(OutcomeSearch, OrdersFault),
}

impl OutcomeSearch {
    /// Nothing is searched yet.
    pub fn new(
        alloc: Global,
        config: &Config,
        scripts: &[Script],
    ) -> Result<OutcomeSearch, OutOfMemory>
        requires { length scripts.now ≡ length config.now.partitions }
        ensures { IfOk result (λ search.
            (clock : Bool) → IsOutcomeSearch clock config.now scripts.now search) }
    {
        let rounds = Rounds::new(alloc, config, scripts, &[])?;
        Ok(OutcomeSearch { rounds })
    }

    /// Goes on until all is found, in at most `threads` threads. It is given up if there are more states than the bound,
    /// or if `progress` ends it, which receives from time to time how far it is. With `clock`, the moments of all
    /// partitions are of one clock: each call is made before every call of another partition that has a greater moment.
    pub fn run<R: Threads + Sync, P: Progress>(
        self,
        rt: &R,
        threads: usize,
        alloc: Global,
        config: &Config,
        scripts: &[Script],
        clock: bool,
        bound: usize,
        progress: &mut P,
    ) -> Result<Searched, OutOfMemory>
        requires { IsOutcomeSearch clock config.now scripts.now self }
        ensures { IfOk result
            (HasSearched clock P.CanStop config.now scripts.now bound) }
    {
        let partitions = config.partitions();
        prove!(scripts.len() == partitions);
        let mut rounds = self.rounds;
        let given_up = rounds.run(
            rt,
            threads,
            alloc,
            config,
            scripts,
            clock,
            &[],
            bound,
            progress,
        )?;
        if let Some(fault) = given_up {
            return Ok(Searched::GivenUp(OutcomeSearch { rounds }, fault));
        }
        let found = rounds.into_found(rt, None);
        let ends = ends_of(alloc, config, scripts, &found.orders)?;
        let states = found.orders.len();
        Ok(Searched::All(Outcomes {
            replies: found.replies,
            ends,
            states,
        }))
    }

    /// Frees the memory of the search, a part in each thread. If a search is dropped, one thread frees it.
    pub fn free<R: Threads + Sync>(self, rt: &R) {
        self.rounds.free(rt);
    }

    /// Tells `progress` how far the search is. Returns whether it is to go on.
    pub fn report<P: Progress>(&self, progress: &mut P) -> bool
        ensures { result ≡ false → P.CanStop }
    {
        self.rounds.report(progress)
    }
}
