//! The threads that search the parts of scripts beside each other.
ghost use Rattle.std.specs.Prelude.{◌≡◌, ◌<◌, ℕ, Bool, length, replicate, slice_get, slice_index_or, Some, None, false, IfOk, IfSome};
ghost use Rattle.std.specs.Thread.{IsSync};
ghost use Rattle.apex_groups.specs.Prelude.{Configuration};
ghost use Rattle.apex_groups.specs.PartSearches.{AreCounted, AreSearchers, AreStillSearchers, IsSearchFor, IsSearchedBy, IsSearcher, IsStillSearcher};
ghost use Rattle.apex_groups.specs.declared.searcher.Searcher.{Searcher};

use crate::pool::Pool;
use crate::script_part::ScriptPart;
use crate::script_parts::search_on;
use apex_module::Config;
use apex_orders::{OutcomeSearch, Progress, Searched};
use apex_ports::Script;
use apex_types::OutOfMemory;
use std::alloc::{AllocError, Global};
use std::thread;
use std::thread::Threads;

/// A thread that searches parts.
#[derive(Drop)]
pub(crate) struct Searcher {
    /// For each part how far it searched it.
    pub(crate) searched: Vec<Option<Searched>>,
    /// The part whose search goes on.
    current: Option<usize>,
    /// Whether a search can't go on: it has too many states, or memory ran out.
    is_stuck: bool,
}

impl Searcher {
    /// It has searched none of the parts.
    pub(crate) fn new(alloc: Global, parts: &[ScriptPart]) -> Result<Searcher, AllocError>
        ensures { IfOk result (λ one. (clock : Bool) (config : Configuration) (bound : ℕ)
            → IsSearcher clock config bound parts.now one) }
    {
        let mut searched = Vec::with_capacity(alloc, parts.len())?;
        for _ in 0..parts.len() {
            searched.push(None)?;
        }
        Ok(Searcher {
            searched,
            current: None,
            is_stuck: false,
        })
    }

    /// Searches parts in at most `threads` threads, until the searchers have found enough together.
    fn run<R: Threads + Sync>(
        &mut self,
        rt: &R,
        threads: usize,
        alloc: Global,
        config: &Config,
        parts: &[ScriptPart],
        clock: bool,
        bound: usize,
        pool: &Pool,
    )
        requires parts { AreCounted config.now parts.now }
        requires valid { IsSearcher clock config.now bound parts.now self.old }
        ensures { IsSearcher clock config.now bound parts.now self.new }
    {
        for completed in 0..=parts.len() {
            let Some(k) = self.next_part(parts.len(), pool) else {
                if completed > 0 {
                    pool.end();
                }
                return;
            };
            match self.search(rt, threads, alloc, config, parts, clock, bound, pool, k) {
                Ok(true) => self.current = None,
                Ok(false) => return,
                Err(OutOfMemory) => {
                    self.is_stuck = true;
                    return;
                }
            }
        }
    }

    /// The part whose search goes on, or the next part that no thread has taken yet.
    fn next_part(&mut self, parts: usize, pool: &Pool) -> Option<usize>
        ensures within { IfSome result (λ k. k < parts) }
        ensures same { self.new.searched ≡ self.old.searched }
    {
        if self.current.is_none() {
            self.current = pool.next_part();
        }
        self.current.filter(|k| *k < parts)
    }

    /// Goes on with the part's search, or begins one. Returns whether it is complete.
    fn search<R: Threads + Sync>(
        &mut self,
        rt: &R,
        threads: usize,
        alloc: Global,
        config: &Config,
        parts: &[ScriptPart],
        clock: bool,
        bound: usize,
        pool: &Pool,
        k: usize,
    ) -> Result<bool, OutOfMemory>
        requires parts { AreCounted config.now parts.now }
        requires valid { IsSearcher clock config.now bound parts.now self.old }
        requires index { k < length parts.now }
        ensures { IsSearcher clock config.now bound parts.now self.new }
    {
        let scripts = parts[k].scripts.as_slice();
        let search = self.take_search(alloc, config, scripts, k)?;
        let mut limit = pool.limit();
        let searched = search_on(
            rt, threads, alloc, config, scripts, clock, bound, &mut limit, search,
        )?;
        let is_complete = is_all(&searched);
        self.is_stuck = limit.has_lost(is_complete);
        self.searched[k] = Some(searched);
        Ok(is_complete)
    }

    /// The part's search, which is taken, or a new one.
    fn take_search(
        &mut self,
        alloc: Global,
        config: &Config,
        scripts: &[Script],
        k: usize,
    ) -> Result<OutcomeSearch, OutOfMemory>
        requires count { length scripts.now ≡ length config.now.partitions }
        ensures search { IfOk result (IsSearchFor config.now scripts.now self.old k) }
        ensures rest { IsStillSearcher self.old self.new }
    {
        match self.take(k) {
            None => OutcomeSearch::new(alloc, config, scripts),
            Some(Searched::All(_)) => OutcomeSearch::new(alloc, config, scripts),
            Some(Searched::GivenUp(search, _)) => Ok(search),
        }
    }

    /// How far it searched the part, which is taken.
    fn take(&mut self, part: usize) -> Option<Searched>
        ensures found { IfSome result
            (λ one. slice_get self.old.searched.items part ≡ Some (Some one)) }
        ensures rest { IsStillSearcher self.old self.new }
    {
        if part >= self.searched.len() {
            return None;
        }
        self.searched[part].take()
    }

    /// Tells `progress` how far the search is that goes on. Returns whether it is to go on.
    fn report<P: Progress>(&self, progress: &mut P) -> bool
        ensures { result ≡ false → P.CanStop }
    {
        let Some(k) = self.current else {
            return true;
        };
        match self.searched.get(k) {
            Some(Some(Searched::GivenUp(search, _))) => search.report(progress),
            _ => true,
        }
    }
}

/// Whether the search is complete.
fn is_all(searched: &Searched) -> bool {
    matches!(searched, Searched::All(_))
}

/// How far one of the searchers searched the part, which is taken.
pub(crate) fn take_searched(searchers: &mut [Searcher], part: usize) -> Option<Searched>
    ensures found { IfSome result (IsSearchedBy searchers.old part) }
    ensures rest { AreStillSearchers searchers.old searchers.new }
{
    for k in 0..searchers.len() {
        if let Some(searched) = searchers[k].take(part) {
            return Some(searched);
        }
    }
    None
}

/// Lets the searchers search the parts, as long as at least two of them have a part to search. From time to time all wait
/// for each other, and `progress` receives how far they are. Returns whether the search is to go on.
pub(crate) fn search_beside<R: Threads + Sync, P: Progress>(
    rt: &R,
    alloc: Global,
    config: &Config,
    parts: &[ScriptPart],
    clock: bool,
    bound: usize,
    progress: &mut P,
    searchers: &mut [Searcher],
) -> bool
    requires parts { AreCounted config.now parts.now }
    requires valid { AreSearchers clock config.now bound parts.now searchers.old }
    ensures valid { AreSearchers clock config.now bound parts.now searchers.new }
    ensures stopped { result ≡ false → P.CanStop }
{
    if searchers.is_empty() {
        return true;
    }
    let mut pool = Pool::new(parts.len());
    for _ in 0..usize::MAX {
        if pool.begin() {
            progress.begin();
        }
        let busy = parts_left(searchers, &pool);
        let threads = (searchers.len() / busy.max(1)).max(1);
        run_all(
            rt, threads, alloc, config, parts, clock, bound, &pool, searchers,
        );
        if parts_left(searchers, &pool) < 2 {
            return true;
        }
        for k in 0..searchers.len() {
            if !searchers[k].report(progress) {
                return false;
            }
        }
    }
    true
}

/// How many parts have a search that goes on, or none yet; 0 if one of them can't go on.
fn parts_left(searchers: &[Searcher], pool: &Pool) -> usize {
    if searchers.iter().any(|one| one.is_stuck) {
        return 0;
    }
    let current = searchers.iter().filter(|one| one.current.is_some()).count();
    pool.left().saturating_add(current)
}

/// Runs the searchers, each in a thread, which may start others.
fn run_all<R: Threads + Sync>(
    rt: &R,
    threads: usize,
    alloc: Global,
    config: &Config,
    parts: &[ScriptPart],
    clock: bool,
    bound: usize,
    pool: &Pool,
    searchers: &mut [Searcher],
)
    requires some { 0 < length searchers.old }
    requires parts { AreCounted config.now parts.now }
    requires valid { AreSearchers clock config.now bound parts.now searchers.old }
    ensures { AreSearchers clock config.now bound parts.now searchers.new }
{
    let count = searchers.len();
    thread::for_each_mut(
        rt,
        searchers,
        count,
        &|_: usize, one: &mut Searcher|
            requires { IsSync R.row × AreCounted config.now parts.now
                × IsSearcher clock config.now bound parts.now one.old }
            ensures { IsSearcher clock config.entry.now bound parts.entry.now one.new }
        { one.run(rt, threads, alloc, config, parts, clock, bound, pool) },
    );
}
