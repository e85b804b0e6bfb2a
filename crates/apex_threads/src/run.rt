//! A run over a board that its workers share, with one worker for each partition.
ghost use Rattle.std.specs.Prelude.{◌≡◌, ◌≤◌, [], length, vec_len, vec_capacity, IfOk, IfErr};
ghost use Rattle.std.specs.Thread.{IsSync, IsSend};
ghost use Rattle.apex_threads.specs.Held.{NamesHeldCall};
ghost use Rattle.apex_threads.specs.Room.{AreReady};

use crate::gate::Gate;
use crate::packed::PackedReplies;
use crate::packed_script::PackedScript;
use crate::shared::SharedBoard;
use crate::workers::run_workers;
use apex_ports::RunFault;
use std::alloc::{AllocError, Allocator};
use std::sync::Wait;
use std::thread;
use std::thread::Threads;

/// Runs each partition's script in a worker of its own, over the caller's board, which all workers share. Returns the
/// replies of each partition's worker, in the partitions' order. All workers are started before any is joined.
///
/// A worker stops at its first refusal, and the others go on. That a worker couldn't be started takes precedence over
/// all other faults; after that the fault of the lowest partition does.
pub fn run_over<
    R: Threads + Wait + Sync,
    S: SharedBoard,
    G: Gate,
    A: Allocator + Copy + Send + Sync,
>(
    rt: &R,
    alloc: A,
    board: &S,
    gate: &G,
    scripts: &[PackedScript<A>],
) -> Result<Vec<PackedReplies<A>, A>, RunFault>
    ensures count { IfOk result (λ replies. vec_len replies ≡ length scripts.now) }
    ensures held { IfErr result (NamesHeldCall (G.may_refuse gate.now) scripts.now) }
{
    let empty = lists_for(alloc, scripts)?;
    let room = Vec::with_capacity(alloc, scripts.len())?;
    run_all(rt, board, gate, scripts, empty, room)
}

/// An empty list for each script, with room for all replies to it.
fn lists_for<A: Allocator + Copy>(
    alloc: A,
    scripts: &[PackedScript<A>],
) -> Result<Vec<PackedReplies<A>, A>, AllocError>
    ensures ready { IfOk result (λ lists. AreReady scripts.now lists.items) }
    ensures count { IfOk result (λ lists. vec_len lists ≡ length scripts.now) }
{
    let mut lists = Vec::with_capacity(alloc, scripts.len())?;
    for script in scripts {
        let list = PackedReplies::with_room(alloc, script.len())?;
        lists.push_reserved(list);
    }
    Ok(lists)
}

/// Runs all workers in one scope.
fn run_all<R: Threads + Wait + Sync, S: SharedBoard, G: Gate, A: Allocator + Send + Sync>(
    rt: &R,
    board: &S,
    gate: &G,
    scripts: &[PackedScript<A>],
    empty: Vec<PackedReplies<A>, A>,
    room: Vec<PackedReplies<A>, A>,
) -> Result<Vec<PackedReplies<A>, A>, RunFault>
    requires ready { AreReady scripts.now empty.items }
    requires none { room.items ≡ [] }
    requires fits { vec_len empty ≤ vec_capacity room }
    ensures count { IfOk result (λ replies. vec_len replies ≡ vec_len empty) }
    ensures held { IfErr result (NamesHeldCall (G.may_refuse gate.now) scripts.now) }
{
    thread::scope(
        thread::scope_env(),
        rt,
        move |scope| -> Result<Vec<PackedReplies<A>, A>, RunFault>
            requires ready { AreReady scripts.now empty.items }
            requires none { room.items ≡ [] }
            requires fits { vec_len empty ≤ vec_capacity room }
            ensures count { IfOk result (λ replies. vec_len replies ≡ vec_len empty) }
            ensures held { IfErr result
                (NamesHeldCall (G.may_refuse gate.entry.now) scripts.entry.now) }
        { run_workers(scope, rt, board, gate, scripts, empty, room) },
    )
}
