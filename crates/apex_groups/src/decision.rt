//! Two calls that decide which reply a call gets.
ghost use Rattle.std.specs.Prelude.{◌≡◌, ◌<◌, ◌++◌, length, IfOk, IfSome, IsTrue};
ghost use Rattle.apex_groups.specs.Prelude.{entries_of, history_of, next_entries};
ghost use Rattle.apex_groups.specs.Deciding.{Decides, HasReply, ShowsReply};
ghost use Rattle.apex_orders.specs.Clock.{IsNextDue};
ghost use Rattle.apex_ports.specs.Sound.{IsSound};

use crate::two_orders::TwoOrders;
use apex_module::Config;
use apex_orders::step::step;
use apex_orders::{Asked, Order, is_due};
use apex_ports::{Ports, Script};
use apex_types::{OutOfMemory, Reply};
use std::alloc::Global;

/// Two neighbouring calls that decide a call's reply: which of them comes first makes the difference.
#[derive(Debug, Drop)]
pub struct Decision {
    pub orders: TwoOrders,
    /// The reply if the first comes before the second.
    pub given: Reply,
    /// The reply if it comes after.
    pub other: Reply,
}

/// The decision by the two calls, if they decide: both orders are replayed.
pub(crate) fn decision_by(
    alloc: Global,
    config: &Config,
    scripts: &[Script],
    clock: bool,
    asked: &Asked,
    orders: TwoOrders,
) -> Result<Option<Decision>, OutOfMemory>
    requires { length scripts.now ≡ length config.now.partitions }
    ensures { IfOk result (λ found. IfSome found (λ decision.
        Decides clock config.now scripts.now asked.now decision)) }
{
    if orders.first == orders.second {
        return Ok(None);
    }
    let order = orders.given_order(alloc)?;
    let Some(given) = reply_in(alloc, config, scripts, clock, asked, &order)? else {
        return Ok(None);
    };
    let order = orders.other_order(alloc)?;
    let Some(other) = reply_in(alloc, config, scripts, clock, asked, &order)? else {
        return Ok(None);
    };
    if !asked.admitted.admits(&given) || asked.admitted.admits(&other) {
        return Ok(None);
    }
    Ok(Some(Decision {
        orders,
        given,
        other,
    }))
}

/// The reply that the asked call gets in the order. `None` if the order lacks the call, or isn't one of the scripts.
pub(crate) fn reply_in(
    alloc: Global,
    config: &Config,
    scripts: &[Script],
    clock: bool,
    asked: &Asked,
    order: &Order,
) -> Result<Option<Reply>, OutOfMemory>
    requires { length scripts.now ≡ length config.now.partitions }
    ensures { IfOk result (λ found. IfSome found (λ reply.
        ShowsReply clock config.now scripts.now asked.now reply order.now)) }
{
    let mut ports = Ports::new(alloc, config.copy()?)?;
    let mut found = None;
    for p in order.partitions() {
        if !may_come(&ports, scripts, clock, *p) {
            return Ok(None);
        }
        make_next(&mut ports, scripts, *p, asked, &mut found);
    }
    Ok(found)
}

/// Whether the partition's next call may come next: with the clock, only if it is due.
fn may_come(ports: &Ports, scripts: &[Script], clock: bool, p: usize) -> bool
    requires { length scripts.now ≡ length ports.now.config.partitions }
    ensures partition { IsTrue result → p < length ports.now.config.partitions }
    ensures due { IsTrue result → IsNextDue clock scripts.now ports.now.history p }
{
    if p >= scripts.len() {
        return false;
    }
    if clock {
        return is_due(ports, scripts, p);
    }
    true
}

/// Makes the next call of the partition, and keeps its reply if it is the asked call.
fn make_next(
    ports: &mut Ports,
    scripts: &[Script],
    p: usize,
    asked: &Asked,
    found: &mut Option<Reply>,
)
    requires partition { p < length ports.old.config.partitions }
    requires scripts { length scripts.now ≡ length ports.old.config.partitions }
    requires sound { IsSound ports.old.config ports.old.history }
    requires found { HasReply asked.now ports.old.history found.old }
    ensures config { ports.new.config ≡ ports.old.config }
    ensures sound { IsSound ports.new.config ports.new.history }
    ensures history { ports.new.history ≡ ports.old.history
        ++ next_entries ports.old.config scripts.now ports.old.history p }
    ensures found { HasReply asked.now ports.new.history found.new }
{
    let Some(one) = step(ports, scripts, p) else {
        return;
    };
    if one.partition != asked.partition || one.index != asked.index {
        return;
    }
    *found = Some(one.reply);
}
