//! Which two calls decide the reply to a call.
ghost use Rattle.std.specs.Prelude.{◌≡◌, length, IfOk};
ghost use Rattle.apex_groups.specs.Prelude.{IsUndecidedWith};
ghost use Rattle.apex_groups.specs.Deciding.{IsReason, asked_others};

use crate::between::decision_between;
use crate::decision::Decision;
use crate::witness::order_giving_apart;
use apex_module::Config;
use apex_orders::{Asked, Order, OrdersFault, Progress};
use apex_ports::Script;
use std::alloc::Global;
use std::thread::Threads;

/// Why a call gets an admitted reply in some orders and not in others.
#[derive(Debug, Drop)]
pub enum Reason {
    /// These two calls decide.
    Decided(Decision),
    /// No order gives it an admitted reply.
    Never,
    /// Every order does.
    Always,
    /// One order does and one doesn't, and no two calls that decide were found between them.
    Open { given: Order, other: Order },
}

/// Two neighbouring calls of different partitions that decide whether the asked call gets an admitted reply; or that no
/// order or every order gives it one. It searches like `order_giving_apart`, for an order that gives an admitted reply
/// and one that gives another, and then looks between these two. Both orders of the answer are short; no clause says how
/// short. The scripts change only during the search.
pub fn deciding_calls<R: Threads + Sync, P: Progress>(
    rt: &R,
    alloc: Global,
    config: &Config,
    scripts: &mut [Script],
    clock: bool,
    asked: &Asked,
    bound: usize,
    progress: &mut P,
) -> Result<Reason, OrdersFault>
    requires { length scripts.old ≡ length config.now.partitions }
    ensures same { scripts.new ≡ scripts.old }
    ensures reason { IfOk result (IsReason clock config.now scripts.old asked.now) }
    ensures undecided { IsUndecidedWith clock P.CanStop config.now scripts.old bound result }
{
    let given = match order_giving_apart(
        rt, alloc, config, scripts, clock, asked, bound, progress,
    ) {
        Err(fault) => return Err(fault),
        Ok(None) => return Ok(Reason::Never),
        Ok(Some(order)) => order,
    };
    let others = others_asked(asked);
    let other = match order_giving_apart(
        rt, alloc, config, scripts, clock, &others, bound, progress,
    ) {
        Err(fault) => return Err(fault),
        Ok(None) => return Ok(Reason::Always),
        Ok(Some(order)) => order,
    };
    match decision_between(alloc, config, scripts, clock, asked, &given, &other)? {
        Some(decision) => Ok(Reason::Decided(decision)),
        None => Ok(Reason::Open { given, other }),
    }
}

/// The same call, asked for the replies that are not admitted.
fn others_asked(asked: &Asked) -> Asked
    ensures { result ≡ asked_others asked.now }
{
    Asked {
        partition: asked.partition,
        index: asked.index,
        admitted: asked.admitted.others(),
    }
}
