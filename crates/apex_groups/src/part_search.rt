//! What is found for the parts of scripts.
ghost use Rattle.std.specs.Prelude.{◌≡◌, ◌<◌, ℕ, Bool, length, slice_get, Some, IfOk};
ghost use Rattle.apex_groups.specs.Prelude.{Configuration, IsUndecidedWith};
ghost use Rattle.apex_groups.specs.PartSearches.{AreCounted, AreSearchers, SaysAll};
ghost use Rattle.apex_groups.specs.declared.script_part.ScriptPart.{ScriptPart};

use crate::script_part::{ScriptPart, have_calls};
use crate::script_parts::{different_outcomes, outcomes_by};
use crate::searcher::{Searcher, take_searched};
use apex_module::Config;
use apex_orders::{OrdersFault, Outcomes, Progress, Searched};
use std::alloc::{AllocError, Global};
use std::thread;
use std::thread::Threads;

/// A searcher for each processor, but no more than there are parts with calls. There are none if that is one.
pub(crate) fn searchers_of<R: Threads + Sync>(
    rt: &R,
    alloc: Global,
    parts: &[ScriptPart],
) -> Result<Vec<Searcher>, AllocError>
    ensures { IfOk result (λ searchers. (clock : Bool) (config : Configuration) (bound : ℕ)
        → AreSearchers clock config bound parts.now searchers.items) }
{
    let processors = match thread::available_parallelism(rt) {
        Ok(processors) => processors.get(),
        Err(_) => 1,
    };
    let with_calls = parts
        .iter()
        .filter(|part| have_calls(part.scripts.as_slice()))
        .count();
    let threads = processors.min(with_calls);
    let mut searchers = Vec::new(alloc);
    if threads < 2 {
        return Ok(searchers);
    }
    for _ in 0..threads {
        searchers.push(Searcher::new(alloc, parts)?)?;
    }
    Ok(searchers)
}

/// What can happen to the part: what a searcher found, or what its search or a new one finds now.
pub(crate) fn outcomes_of<R: Threads + Sync, P: Progress>(
    rt: &R,
    alloc: Global,
    config: &Config,
    parts: &[ScriptPart],
    part: usize,
    searchers: &mut [Searcher],
    clock: bool,
    bound: usize,
    progress: &mut P,
) -> Result<Outcomes, OrdersFault>
    requires counted { AreCounted config.now parts.now }
    requires index { part < length parts.now }
    requires searchers { AreSearchers clock config.now bound parts.now searchers.old }
    ensures searchers { AreSearchers clock config.now bound parts.now searchers.new }
    ensures found { (one : ScriptPart) → slice_get parts.now part ≡ Some one
        → IfOk result (SaysAll clock config.now one.scripts.items) }
    ensures undecided { (one : ScriptPart) → slice_get parts.now part ≡ Some one
        → IsUndecidedWith clock P.CanStop config.now one.scripts.items bound result }
{
    let scripts = parts[part].scripts.as_slice();
    match take_searched(searchers, part) {
        None => different_outcomes(rt, alloc, config, scripts, clock, bound, progress),
        Some(Searched::All(found)) => Ok(found),
        Some(Searched::GivenUp(search, _)) => {
            outcomes_by(rt, alloc, config, scripts, clock, bound, progress, search)
        }
    }
}
