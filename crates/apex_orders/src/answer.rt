//! The orders that answer questions.
ghost use Rattle.std.specs.Prelude.{◌≡◌, ◌<◌, ◌≤◌, ◌+◌, ◌↔◌, ℕ, List, length, map, slice_get, Some, IsTrue, IfOk, IfSome, OnOk, MatchOption};
ghost use Rattle.apex_orders.specs.Known.{IsReadyAfter};
ghost use Rattle.apex_orders.specs.Orders.{order_at};
ghost use Rattle.apex_orders.specs.Outcomes.{Answers, IsAnsweredByWith};
ghost use Rattle.apex_orders.specs.declared.answer.NextReply.{NextReply};
ghost use Rattle.apex_orders.specs.declared.asked.Asked.{Asked};
ghost use Rattle.apex_orders.specs.declared.replies.PossibleReply.{PossibleReply};
ghost use Rattle.apex_orders.specs.Searching.{AreAllAnswered, AreAnswersBy, AreOpenOf, HasNextReply, IsAnsweredAfter, IsNextReply, IsOpen, IsSearch, IsUnansweredAt, asked_hash};

use crate::asked::{Asked, asked_hashes};
use crate::choice::is_due;
use crate::hash::mix;
use crate::hash_index::HashIndex;
use crate::order::PackedOrder;
use crate::orders::Orders;
use crate::replies::PossibleReply;
use crate::search::Search;
use crate::step::step;
use apex_module::Config;
use apex_ports::{Ports, Script};
use apex_types::OutOfMemory;
use std::alloc::Global;

/// The reply that a partition's next call gets after an order: none if there is no such call, or it isn't due.
#[derive(Drop)]
pub(crate) struct NextReply {
    pub(crate) partition: usize,
    pub(crate) reply: Option<PossibleReply>,
}

/// Looks for answers to the questions that have none: to each the first of the orders from an index on, followed by the
/// asked call, after which that call is the next and gets an admitted reply.
pub(crate) fn find_answers(
    alloc: Global,
    config: &Config,
    scripts: &[Script],
    clock: bool,
    asked: &[Asked],
    current: &Search,
    from: usize,
    count: usize,
    ports: &mut Ports,
    answers: &mut Vec<Option<PackedOrder>>,
) -> Result<(), OutOfMemory>
    requires valid { IsSearch clock config.now scripts.now current.now }
    requires past { current.now.points.first ≤ from }
    requires within { from + count ≤ length current.now.orders }
    requires config { ports.old.config ≡ config.now }
    requires answers { AreAnswersBy clock config.now scripts.now asked.now
        current.now.orders from answers.old.items }
    ensures answers { OnOk result (AreAnswersBy clock config.now scripts.now asked.now
        current.now.orders (from + count) answers.new.items) }
    ensures config { OnOk result (ports.new.config ≡ config.now) }
{
    if asked.is_empty() {
        return Ok(());
    }
    let hashes = asked_hashes(alloc, asked)?;
    let orders = current.orders.len();
    prove!(from + count <= orders);
    for k in 0..count {
        let i = from + k;
        answer_at(
            alloc, config, scripts, clock, asked, &hashes, current, i, ports, answers,
        )?;
    }
    Ok(())
}

/// Looks for answers that the order at the index gives, to the questions that have none.
fn answer_at(
    alloc: Global,
    config: &Config,
    scripts: &[Script],
    clock: bool,
    asked: &[Asked],
    hashes: &HashIndex,
    current: &Search,
    i: usize,
    ports: &mut Ports,
    answers: &mut Vec<Option<PackedOrder>>,
) -> Result<(), OutOfMemory>
    requires hashes { hashes.now ≡ map asked_hash asked.now }
    requires valid { IsSearch clock config.now scripts.now current.now }
    requires past { current.now.points.first ≤ i }
    requires within { i < length current.now.orders }
    requires config { ports.old.config ≡ config.now }
    requires answers { AreAnswersBy clock config.now scripts.now asked.now
        current.now.orders i answers.old.items }
    ensures answers { OnOk result (AreAnswersBy clock config.now scripts.now asked.now
        current.now.orders (i + 1) answers.new.items) }
    ensures config { OnOk result (ports.new.config ≡ config.now) }
{
    ports.restore(current.points.saved_at(i));
    for p in 0..config.partitions() {
        answer_next(
            alloc, config, scripts, clock, asked, hashes, p, current, i, ports, answers,
        )?;
    }
    Ok(())
}

/// Looks for answers that the partition's next call gives after the order at the index. The ports are there, before and
/// afterwards.
fn answer_next(
    alloc: Global,
    config: &Config,
    scripts: &[Script],
    clock: bool,
    asked: &[Asked],
    hashes: &HashIndex,
    p: usize,
    current: &Search,
    i: usize,
    ports: &mut Ports,
    answers: &mut Vec<Option<PackedOrder>>,
) -> Result<(), OutOfMemory>
    requires hashes { hashes.now ≡ map asked_hash asked.now }
    requires valid { IsSearch clock config.now scripts.now current.now }
    requires past { current.now.points.first ≤ i }
    requires within { i < length current.now.orders }
    requires partition { p < length config.now.partitions }
    requires ready { IsReadyAfter config.now scripts.now (order_at current.now.orders i) ports.old }
    requires answers { AreAnswersBy clock config.now scripts.now asked.now
        current.now.orders i answers.old.items }
    ensures answers { OnOk result (AreAnswersBy clock config.now scripts.now asked.now
        current.now.orders i answers.new.items) }
    ensures looked { OnOk result (AreOpenOf clock config.now scripts.now asked.now
        current.now.orders (i + 1) answers.new.items p) }
    ensures still { OnOk result ((q : ℕ) → IsOpen clock config.now scripts.now asked.now
        current.now.orders (i + 1) answers.old.items q
        → IsOpen clock config.now scripts.now asked.now
        current.now.orders (i + 1) answers.new.items q) }
    ensures ready { OnOk result
        (IsReadyAfter config.now scripts.now (order_at current.now.orders i) ports.new) }
{
    let hash = mix(p as u64, ports.calls(p));
    let mut known: Option<NextReply> = None;
    let mut count = hashes.up_to_last(hash);
    while count > 0 {
        let q = count - 1;
        answer_one(
            alloc, config, scripts, clock, asked, p, q, current, i, ports, &mut known, answers,
        )?;
        count = hashes.up_to_earlier(hash, q);
    }
    Ok(())
}

/// Looks for an answer to the question at index `q` that the partition's next call gives after the order at index `i`, if the
/// question is about the partition and has none. The reply that was looked up last after this order is known.
fn answer_one(
    alloc: Global,
    config: &Config,
    scripts: &[Script],
    clock: bool,
    asked: &[Asked],
    p: usize,
    q: usize,
    current: &Search,
    i: usize,
    ports: &mut Ports,
    known: &mut Option<NextReply>,
    answers: &mut Vec<Option<PackedOrder>>,
) -> Result<(), OutOfMemory>
    requires question { q < length asked.now }
    requires valid { IsSearch clock config.now scripts.now current.now }
    requires past { current.now.points.first ≤ i }
    requires within { i < length current.now.orders }
    requires partition { p < length config.now.partitions }
    requires ready { IsReadyAfter config.now scripts.now (order_at current.now.orders i) ports.old }
    requires known { IfSome known.old
        (IsNextReply clock config.now scripts.now (order_at current.now.orders i)) }
    requires answers { AreAnswersBy clock config.now scripts.now asked.now
        current.now.orders i answers.old.items }
    ensures answers { OnOk result (AreAnswersBy clock config.now scripts.now asked.now
        current.now.orders i answers.new.items) }
    ensures looked { OnOk result ((one : Asked) → slice_get asked.now q ≡ Some one
        → one.partition ≡ p → IsOpen clock config.now scripts.now asked.now
        current.now.orders (i + 1) answers.new.items q) }
    ensures still { OnOk result ((r : ℕ) → IsOpen clock config.now scripts.now asked.now
        current.now.orders (i + 1) answers.old.items r
        → IsOpen clock config.now scripts.now asked.now
        current.now.orders (i + 1) answers.new.items r) }
    ensures ready { OnOk result
        (IsReadyAfter config.now scripts.now (order_at current.now.orders i) ports.new) }
    ensures known { OnOk result (IfSome known.new
        (IsNextReply clock config.now scripts.now (order_at current.now.orders i))) }
{
    let one = &asked[q];
    if answers[q].is_some() || one.partition != p {
        return Ok(());
    }
    let answer = answer_after(alloc, config, scripts, clock, one, current, i, ports, known)?;
    answers[q] = answer;
    Ok(())
}

/// The order at the index followed by the asked call, if that call is the next there and gets an admitted reply. The ports
/// are there, before and afterwards.
fn answer_after(
    alloc: Global,
    config: &Config,
    scripts: &[Script],
    clock: bool,
    asked: &Asked,
    current: &Search,
    i: usize,
    ports: &mut Ports,
    known: &mut Option<NextReply>,
) -> Result<Option<PackedOrder>, OutOfMemory>
    requires valid { IsSearch clock config.now scripts.now current.now }
    requires past { current.now.points.first ≤ i }
    requires within { i < length current.now.orders }
    requires partition { asked.now.partition < length config.now.partitions }
    requires ready { IsReadyAfter config.now scripts.now (order_at current.now.orders i) ports.old }
    requires known { IfSome known.old
        (IsNextReply clock config.now scripts.now (order_at current.now.orders i)) }
    ensures answer { IfOk result (λ answer. MatchOption answer
        (IsUnansweredAt clock config.now scripts.now asked.now current.now.orders i)
        (IsAnsweredByWith clock config.now scripts.now asked.now)) }
    ensures ready { IsReadyAfter config.now scripts.now (order_at current.now.orders i) ports.new }
    ensures known { IfSome known.new
        (IsNextReply clock config.now scripts.now (order_at current.now.orders i)) }
{
    let partitions = config.partitions();
    prove!(asked.partition < partitions);
    if !gives(config, scripts, clock, asked, current, i, ports, known) {
        return Ok(None);
    }
    let order = current.orders.order(alloc, i)?;
    let answer = order.followed_by(alloc, asked.partition)?;
    Ok(Some(answer))
}

/// Whether the asked call is its partition's next after the order at the index and gets an admitted reply. The ports are
/// there, before and afterwards.
fn gives(
    config: &Config,
    scripts: &[Script],
    clock: bool,
    asked: &Asked,
    current: &Search,
    i: usize,
    ports: &mut Ports,
    known: &mut Option<NextReply>,
) -> bool
    requires valid { IsSearch clock config.now scripts.now current.now }
    requires past { current.now.points.first ≤ i }
    requires within { i < length current.now.orders }
    requires partition { asked.now.partition < length config.now.partitions }
    requires ready { IsReadyAfter config.now scripts.now (order_at current.now.orders i) ports.old }
    requires known { IfSome known.old
        (IsNextReply clock config.now scripts.now (order_at current.now.orders i)) }
    ensures given { IsTrue result ↔ IsAnsweredAfter clock config.now scripts.now asked.now
        (order_at current.now.orders i) }
    ensures ready { IsReadyAfter config.now scripts.now (order_at current.now.orders i) ports.new }
    ensures known { IfSome known.new
        (IsNextReply clock config.now scripts.now (order_at current.now.orders i)) }
{
    let p = asked.partition;
    look_up(config, scripts, clock, p, current, i, ports, known);
    match known {
        Some(next) => is_answered(asked, &next.reply),
        None => false,
    }
}

/// Looks up the reply that the partition's next call gets after the order at the index, unless it is known. The ports are
/// there, before and afterwards.
fn look_up(
    config: &Config,
    scripts: &[Script],
    clock: bool,
    p: usize,
    current: &Search,
    i: usize,
    ports: &mut Ports,
    known: &mut Option<NextReply>,
)
    requires valid { IsSearch clock config.now scripts.now current.now }
    requires past { current.now.points.first ≤ i }
    requires within { i < length current.now.orders }
    requires partition { p < length config.now.partitions }
    requires ready { IsReadyAfter config.now scripts.now (order_at current.now.orders i) ports.old }
    requires known { IfSome known.old
        (IsNextReply clock config.now scripts.now (order_at current.now.orders i)) }
    ensures known { HasNextReply clock config.now scripts.now
        (order_at current.now.orders i) p known.new }
    ensures ready { IsReadyAfter config.now scripts.now (order_at current.now.orders i) ports.new }
{
    if is_of(known, p) {
        return;
    }
    let orders = &current.orders;
    let next = next_reply(config, scripts, clock, p, orders, i, ports);
    ports.restore(current.points.saved_at(i));
    *known = Some(next);
}

/// Whether the partition's reply is known.
fn is_of(known: &Option<NextReply>, p: usize) -> bool
    ensures { IsTrue result → (next : NextReply) × (known.now ≡ Some next)
        × (next.partition ≡ p) }
{
    match known {
        Some(next) => next.partition == p,
        None => false,
    }
}

/// Makes the partition's next call after the order at the index, if it is due.
fn next_reply(
    config: &Config,
    scripts: &[Script],
    clock: bool,
    p: usize,
    orders: &Orders,
    i: usize,
    ports: &mut Ports,
) -> NextReply
    requires scripts { length scripts.now ≡ length config.now.partitions }
    requires partition { p < length config.now.partitions }
    requires ready { IsReadyAfter config.now scripts.now (order_at orders.now i) ports.old }
    ensures partition { result.partition ≡ p }
    ensures reply { IsNextReply clock config.now scripts.now (order_at orders.now i) result }
    ensures config { ports.new.config ≡ config.now }
{
    if clock && !is_due(ports, scripts, p) {
        return NextReply {
            partition: p,
            reply: None,
        };
    }
    NextReply {
        partition: p,
        reply: step(ports, scripts, p),
    }
}

/// Whether there is a reply that answers the question.
fn is_answered(asked: &Asked, reply: &Option<PossibleReply>) -> bool
    ensures { IsTrue result ↔ ((one : PossibleReply)
        × (reply.now ≡ Some one) × Answers asked.now one) }
{
    match reply {
        Some(one) => asked.is_answered_by(one),
        None => false,
    }
}

/// No answer to any of `count` questions.
pub(crate) fn no_answers(
    alloc: Global,
    count: usize,
) -> Result<Vec<Option<PackedOrder>>, OutOfMemory>
    ensures count { IfOk result (λ answers. length answers.items ≡ count) }
    ensures none { IfOk result (λ answers. (q : ℕ) (order : List ℕ)
        → ¬ (slice_get answers.items q ≡ Some (Some order))) }
{
    let mut answers = Vec::with_capacity(alloc, count)?;
    for _ in 0..count {
        answers.push(None)?;
    }
    Ok(answers)
}

/// Whether there are questions, and each has its order.
pub(crate) fn are_all_answered(answers: &Vec<Option<PackedOrder>>) -> bool
    ensures { IsTrue result → AreAllAnswered answers.now.items }
{
    for q in 0..answers.len() {
        if answers[q].is_none() {
            return false;
        }
    }
    !answers.is_empty()
}
