//! A run, with one worker for each partition.
ghost use Rattle.std.specs.Prelude.{◌≡◌, ◌⊎◌, length, replicate, vec_len, Ok, Err, IfOk, IfErr, IsOk};
ghost use Rattle.std.specs.Thread.{IsSync, IsSend};
ghost use Rattle.apex_observers.specs.Channels.{AreObservers};
ghost use Rattle.apex_ports.specs.Lawful.{IsLawful};
ghost use Rattle.apex_workers.specs.Alone.{ShowsScriptsAlone};
ghost use Rattle.apex_threads.specs.Collected.{HasScripts, HasReplies, IsCollectedFor};
ghost use Rattle.apex_threads.specs.Held.{NamesHeldCall};

use crate::comparison::is_collected_for;
use crate::observed::{LockedObservedBoard, ObservedBoard};
use crate::replies::{Replies, unpack_all};
use apex_board::Board;
use apex_module::Config;
use apex_observers::Observer;
use apex_ports::{RunFault, Script};
use apex_threads::{Gate, PackedReplies, PackedScript, fault_without, pack_all, run_over};
use std::alloc::{Allocator, Global};
use std::sync::Wait;
use std::thread::Threads;

/// What a run leaves: the board, the replies of each partition's worker, in the partitions' order, and an observer of
/// each sampling channel, in the channels' order.
///
/// The board is not `Drop`: end it with `Board::close`.
pub struct Finished<A: Allocator = Global> {
    pub board: Board<A>,
    pub replies: Vec<Replies<A>, A>,
    pub observers: Vec<Observer<A>, A>,
}

/// Runs each partition's script in a worker of its own. All workers share one board, and all are started before any is
/// joined.
///
/// A worker stops at its first refusal, and the others go on. That a worker couldn't be started takes precedence over
/// all other faults; after that the fault of the lowest partition does. On a fault the board is closed.
pub fn run_scripts<R: Threads + Wait + Sync, A: Allocator + Copy + Send + Sync, G: Gate>(
    rt: &R,
    alloc: A,
    config: &Config,
    scripts: &[Script],
    gate: &G,
) -> Result<Finished<A>, RunFault>
    requires { length scripts.now ≡ length config.now.partitions }

    // The board is that of a lawful run of the configuration, in which each partition made the calls of its script.
    ensures config { IfOk result (λ finished. finished.board.config ≡ config.now) }
    ensures lawful { IfOk result (λ finished. IsLawful config.now finished.board.log) }
    ensures calls { IfOk result (λ finished. HasScripts finished.board.log scripts.now) }

    // Each partition has its replies, and each sampling channel of this board its observer.
    ensures count { IfOk result (λ finished.
        vec_len finished.replies ≡ length config.now.partitions) }
    ensures replies { IfOk result (λ finished.
        HasReplies finished.board.log finished.replies.items) }
    ensures observers { IfOk result (λ finished.
        AreObservers finished.board.published finished.observers.items) }

    // Partitions that share no channel with the others show what their scripts alone can show.
    ensures isolated { IfOk result (λ finished. ShowsScriptsAlone
        config.now scripts.now finished.replies.items finished.board.log) }

    // If a worker was held, the gate may refuse the call that the fault names.
    ensures held { IfErr result (NamesHeldCall (G.may_refuse gate.now) scripts.now) }
{
    let counts = vec![in alloc; 0usize; scripts.len()]?;
    let packed = pack_all(alloc, scripts)?;
    let observed = ObservedBoard::new(rt, alloc, config.copy()?).map_err(fault_without)?;
    let shared = LockedObservedBoard::new(observed);
    let answered = run_over(rt, alloc, &shared, gate, packed.as_slice());
    let observed = shared.into_observed();
    match with_lists(alloc, answered) {
        Ok((answers, replies)) => collected(
            rt,
            config,
            packed.as_slice(),
            observed,
            answers.as_slice(),
            replies,
            counts,
        ),
        Err(fault) => {
            observed.close(rt);
            Err(fault)
        }
    }
}

/// The finished run, with each worker's replies as a list of its own.
fn with_lists<A: Allocator + Copy>(
    alloc: A,
    answered: Result<Vec<PackedReplies<A>, A>, RunFault>,
) -> Result<(Vec<PackedReplies<A>, A>, Vec<Replies<A>, A>), RunFault>
    ensures packed { IfOk result (λ both. answered ≡ Ok both.0) }
    ensures lists { IfOk result (λ both. both.1.items ≡ both.0.items) }
    ensures fault { IfErr result
        (λ fault. (answered ≡ Err fault) ⊎ (fault ≡ RunFault.OutOfMemory)) }
{
    let packed = answered?;
    let replies = unpack_all(alloc, packed.as_slice())?;
    Ok((packed, replies))
}

/// The board with the replies, if they are what was handed out to the workers.
fn collected<A: Allocator, R: Wait>(
    rt: &R,
    config: &Config,
    scripts: &[PackedScript<A>],
    observed: ObservedBoard<A>,
    answers: &[PackedReplies<A>],
    replies: Vec<Replies<A>, A>,
    mut counts: Vec<usize, A>,
) -> Result<Finished<A>, RunFault>
    requires counts { counts.items ≡ replicate (length scripts.now) 0 }
    requires each { length answers.now ≡ length scripts.now }
    requires lists { replies.items ≡ answers.now }
    ensures config { IfOk result (λ finished. finished.board.config ≡ config.now) }
    ensures lawful { IfOk result (λ finished. IsLawful config.now finished.board.log) }
    ensures calls { IfOk result (λ finished. HasScripts finished.board.log scripts.now) }
    ensures count { IfOk result (λ finished. vec_len finished.replies ≡ length scripts.now) }
    ensures replies { IfOk result (λ finished.
        HasReplies finished.board.log finished.replies.items) }
    ensures observers { IfOk result (λ finished.
        AreObservers finished.board.published finished.observers.items) }
    ensures isolated { IfOk result (λ finished. ShowsScriptsAlone
        config.now scripts.now finished.replies.items finished.board.log) }
    ensures differs { IfErr result (λ fault. fault ≡ RunFault.ResultsDiffer) }

    // It is refused only if something differs.
    ensures same { let board = observed.board in
        IsCollectedFor config.now scripts.now board.config board.log answers.now
        → IsOk result }
{
    let (board, observers) = observed.into_parts();
    if !is_collected_for(config, scripts, &board, answers, counts.as_mut_slice()) {
        board.close(rt);
        return Err(RunFault::ResultsDiffer);
    }
    Ok(Finished {
        board,
        replies,
        observers,
    })
}
