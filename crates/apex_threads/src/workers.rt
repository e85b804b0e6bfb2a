//! The workers of all partitions: all are started before any is joined.
ghost use Rattle.std.specs.Prelude.{◌≡◌, ◌+◌, ◌<◌, ◌≤◌, [], length, vec_len, vec_capacity, Some, None, IfOk, IfErr};
ghost use Rattle.std.specs.Result.{ForOk};
ghost use Rattle.std.specs.Thread.{IsSync, IsSend};
ghost use Rattle.apex_threads.specs.Held.{NamesHeldCall};
ghost use Rattle.apex_threads.specs.Order.{first_fault};
ghost use Rattle.apex_threads.specs.Room.{AreReady, AddsReplies};

use crate::gate::Gate;
use crate::packed::PackedReplies;
use crate::packed_script::PackedScript;
use crate::shared::SharedBoard;
use crate::worker::run_script;
use apex_ports::RunFault;
use std::alloc::Allocator;
use std::sync::Wait;
use std::thread::{Promise, Scope, Threads};

/// What a worker promises: if it says that it was held, the gate may refuse the call that it names.
struct NamesItsCall<'a, G, A: Allocator> {
    gate: &'a G,
    scripts: &'a [PackedScript<A>],
}

impl<G, A: Allocator> Drop for NamesItsCall<'_, G, A> {
    fn drop(self) {
        let NamesItsCall {
            gate: _,
            scripts: _,
        } = self;
    }
}

impl<'a, G: Gate, A: Allocator> Promise<Result<PackedReplies<A>, RunFault>>
    for NamesItsCall<'a, G, A> {
    ghost kept_by = { λ promise outcome. IfErr outcome
        (NamesHeldCall (G.may_refuse promise.gate.now) promise.scripts.now) };
}

/// Starts a worker for each partition that has a list for its replies, the highest first, and joins them after all are
/// started.
pub(crate) fn run_workers<
    's,
    E,
    R: Threads + Wait + Sync,
    S: SharedBoard,
    G: Gate,
    A: Allocator + Send + Sync + 's,
>(
    scope: &Scope<'s, E>,
    rt: &'s R,
    board: &'s S,
    gate: &'s G,
    scripts: &'s [PackedScript<A>],
    mut empty: Vec<PackedReplies<A>, A>,
    all: Vec<PackedReplies<A>, A>,
) -> Result<Vec<PackedReplies<A>, A>, RunFault>
    requires ready { AreReady scripts.now empty.items }
    requires none { all.items ≡ [] }
    requires fits { vec_len empty ≤ vec_capacity all }
    ensures count { IfOk result (λ replies. vec_len replies ≡ vec_len empty) }
    ensures capacity { IfOk result (λ replies. vec_capacity replies ≡ vec_capacity all) }
    ensures held { IfErr result (NamesHeldCall (G.may_refuse gate.entry.now) scripts.entry.now) }
{
    let Some(replies) = empty.pop() else {
        return Ok(all);
    };
    let partition = empty.len();
    let promise = NamesItsCall { gate, scripts };
    let started = scope.spawn_with(
        promise,
        move || -> Result<PackedReplies<A>, RunFault>
            requires partition { partition < length scripts.now }
            requires empty { replies ≡ [] }
            ensures { IfErr result (NamesHeldCall (G.may_refuse gate.entry.now) scripts.entry.now) }
        { run_script(rt, board, gate, scripts, partition, replies) },
    );
    let lower = run_workers(scope, rt, board, gate, scripts, empty, all);
    let next = match started {
        Ok(worker) => worker.join(rt),
        Err(_refused) => Err(RunFault::WorkerNotStarted),
    };
    with_next(lower, next)
}

/// The replies of the lower partitions with those of the next one, or the fault that takes precedence.
fn with_next<A: Allocator>(
    lower: Result<Vec<PackedReplies<A>, A>, RunFault>,
    next: Result<PackedReplies<A>, RunFault>,
) -> Result<Vec<PackedReplies<A>, A>, RunFault>
    requires { ForOk lower (λ replies. vec_len replies < vec_capacity replies) }
    ensures all { IfOk result (AddsReplies lower next) }
    ensures none { IfOk result (λ _. first_fault lower next ≡ None) }
    ensures first { IfErr result (λ fault. first_fault lower next ≡ Some fault) }
{
    if let Err(RunFault::WorkerNotStarted) = next {
        return Err(RunFault::WorkerNotStarted);
    }
    let mut all = lower?;
    all.push_reserved(next?);
    Ok(all)
}
