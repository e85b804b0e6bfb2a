//! The partitions whose next calls are enough to try.
ghost use Rattle.std.specs.Prelude.{◌≡◌, ◌<◌, ◌↔◌, length, true, slice_get, Some, None, OnOk, MatchOption, IsTrue};
ghost use Rattle.apex_orders.specs.Prelude.{entries_of};
ghost use Rattle.apex_orders.specs.Choices.{AreNextUses, IsNextUse, IsQuietOutside, IsSafeToTry, is_tried};
ghost use Rattle.apex_orders.specs.Clock.{IsNextDue};
ghost use Rattle.apex_orders.specs.Enough.{IsEnough, is_early};
ghost use Rattle.apex_orders.specs.LastUses.{AreOfScripts};
ghost use Rattle.apex_orders.specs.Orders.{script_of};
ghost use Rattle.apex_orders.specs.Searching.{AreDue, IsEnoughWith};

use crate::commuting::{channel_named, is_change};
use crate::last_uses::LastUses;
use apex_ports::{CallRef, Ports, Refusal, Row, Script};
use apex_types::{Call, Moment, OutOfMemory};
use std::alloc::Global;

/// How a partition's next call concerns other partitions.
#[derive(Clone, Copy)]
enum NextUse {
    /// There is no next call.
    NoCall,
    /// Not at all: it names no channel, or is refused before the channel is read.
    NoChannel,
    /// It reads the channel, or changes it.
    Channel { channel: usize, is_change: bool },
}

/// The partitions whose next calls are tried, and the lists that are made to find them. They are kept from one point to
/// the next.
#[derive(Drop)]
pub(crate) struct Choice {
    pub(crate) tried: Vec<bool>,
    nexts: Vec<NextUse>,
    members: Vec<usize>,
    smallest: Vec<usize>,
}

impl Choice {
    /// No partitions.
    pub(crate) fn new(alloc: Global) -> Choice {
        Choice {
            tried: Vec::new(alloc),
            nexts: Vec::new(alloc),
            members: Vec::new(alloc),
            smallest: Vec::new(alloc),
        }
    }
}

/// Whether the row is that of a call that is refused, or not made, before the channel is read.
fn is_early(row: Row) -> bool
    ensures { result ≡ is_early row }
{
    match row {
        Row::Idle => true,
        Row::Refused(Refusal::QueueFull) => false,
        Row::Refused(Refusal::QueueEmpty) => false,
        Row::Refused(Refusal::NeverWritten) => false,
        Row::Refused(_) => true,
        _ => false,
    }
}

/// The partition's next call, if it has one.
fn next_call<'a>(ports: &Ports, scripts: &'a [Script], p: usize) -> Option<&'a (Moment, Call)>
    requires partition { p < length ports.now.config.partitions }
    requires scripts { length scripts.now ≡ length ports.now.config.partitions }
    ensures { let made = length (entries_of p ports.now.history) in
        let next = slice_get (script_of scripts.now p) made in
        MatchOption result (next ≡ None) (λ timed. next ≡ Some timed.now) }
{
    let script = &scripts[p];
    let index = ports.calls(p) as usize;
    if index >= script.calls.len() {
        return None;
    }
    Some(&script.calls[index])
}

/// How the partition's next call uses a channel.
fn next_use(ports: &Ports, scripts: &[Script], p: usize) -> NextUse
    requires partition { p < length ports.now.config.partitions }
    requires scripts { length scripts.now ≡ length ports.now.config.partitions }
    ensures { IsNextUse ports.now.config scripts.now ports.now.history p result }
{
    let Some(timed) = next_call(ports, scripts, p) else {
        return NextUse::NoCall;
    };
    let (at, call) = timed;
    let Some(channel) = channel_named(ports.config(), p, call) else {
        return NextUse::NoChannel;
    };
    let row = ports.row(p, *at, CallRef::of(call));
    if is_early(row) {
        return NextUse::NoChannel;
    }
    NextUse::Channel {
        channel,
        is_change: is_change(call),
    }
}

/// How all next calls use channels.
fn next_uses(ports: &Ports, scripts: &[Script], nexts: &mut Vec<NextUse>) -> Result<(), OutOfMemory>
    requires { length scripts.now ≡ length ports.now.config.partitions }
    ensures { OnOk result
        (AreNextUses ports.now.config scripts.now ports.now.history nexts.new.items) }
{
    nexts.clear();
    for p in 0..scripts.len() {
        let next = next_use(ports, scripts, p);
        nexts.push(next)?;
    }
    Ok(())
}

/// Whether the partition is in the set.
pub(crate) fn is_tried(tried: &[bool], p: usize) -> bool
    ensures { result ≡ is_tried tried.now p }
{
    tried.get(p).copied().unwrap_or(false)
}

/// Whether no partition's next call has a smaller moment than this partition's.
pub fn is_due(ports: &Ports, scripts: &[Script], p: usize) -> bool
    requires partition { p < length ports.now.config.partitions }
    requires scripts { length scripts.now ≡ length ports.now.config.partitions }
    ensures { IsTrue result ↔ IsNextDue true scripts.now ports.now.history p }
{
    let Some(timed) = next_call(ports, scripts, p) else {
        return true;
    };
    for q in 0..scripts.len() {
        if let Some(other) = next_call(ports, scripts, q) {
            if other.0.0 < timed.0.0 {
                return false;
            }
        }
    }
    true
}

/// The partitions whose next calls are due by the clock.
fn due(ports: &Ports, scripts: &[Script], tried: &mut Vec<bool>) -> Result<(), OutOfMemory>
    requires { length scripts.now ≡ length ports.now.config.partitions }
    ensures enough { OnOk result (IsEnoughWith true ports.now.config scripts.now
        ports.now.history (is_tried tried.new.items)) }
    ensures due { OnOk result
        (AreDue true scripts.now ports.now.history (is_tried tried.new.items)) }
{
    tried.clear();
    for p in 0..scripts.len() {
        let is_next = is_due(ports, scripts, p);
        tried.push(is_next)?;
    }
    Ok(())
}

/// Partitions whose next calls are enough to try. With the clock, those whose calls are due.
pub(crate) fn choose(
    alloc: Global,
    ports: &Ports,
    scripts: &[Script],
    clock: bool,
    uses: &[LastUses],
    from: &[usize],
    choice: &mut Choice,
) -> Result<(), OutOfMemory>
    requires scripts { length scripts.now ≡ length ports.now.config.partitions }
    requires uses { AreOfScripts ports.now.config scripts.now uses.now }
    ensures enough { OnOk result (IsEnoughWith clock ports.now.config scripts.now
        ports.now.history (is_tried choice.new.tried.items)) }
    ensures due { OnOk result
        (AreDue clock scripts.now ports.now.history (is_tried choice.new.tried.items)) }
{
    if clock {
        return due(ports, scripts, &mut choice.tried);
    }
    enough(alloc, ports, scripts, uses, from, choice)
}

/// Partitions whose next calls are enough to try: the set that grows from these partitions' next calls, else the smallest
/// that grows from one, else all.
fn enough(
    alloc: Global,
    ports: &Ports,
    scripts: &[Script],
    uses: &[LastUses],
    from: &[usize],
    choice: &mut Choice,
) -> Result<(), OutOfMemory>
    requires scripts { length scripts.now ≡ length ports.now.config.partitions }
    requires uses { AreOfScripts ports.now.config scripts.now uses.now }
    ensures { OnOk result (IsEnough ports.now.config scripts.now
        ports.now.history (is_tried choice.new.tried.items)) }
{
    next_uses(ports, scripts, &mut choice.nexts)?;
    let nexts = choice.nexts.as_slice();
    let (smallest, members) = (&mut choice.smallest, &mut choice.members);
    find_members(ports, uses, nexts, from, smallest, members)?;
    set_of(&choice.smallest, scripts.len(), &mut choice.tried)?;
    if are_enough(ports, scripts, uses, &choice.nexts, &choice.tried) {
        return Ok(());
    }
    let all = vec![in alloc; true; scripts.len()]?;
    choice.tried = all;
    Ok(())
}

/// Whether the set is enough to try.
fn are_enough(
    ports: &Ports,
    scripts: &[Script],
    uses: &[LastUses],
    nexts: &[NextUse],
    tried: &[bool],
) -> bool
    requires scripts { length scripts.now ≡ length ports.now.config.partitions }
    requires uses { AreOfScripts ports.now.config scripts.now uses.now }
    requires nexts { AreNextUses ports.now.config scripts.now ports.now.history nexts.now }
    ensures { IsTrue result
        → IsEnough ports.now.config scripts.now ports.now.history (is_tried tried.now) }
{
    let mut some = false;
    for p in 0..nexts.len() {
        if is_tried(tried, p) {
            if !is_safe(ports, scripts, uses, nexts[p], tried, p) {
                return false;
            }
            some = true;
        }
    }
    some
}

/// Whether the partition has a next call, and no call that partitions outside the set have yet to make disturbs it.
fn is_safe(
    ports: &Ports,
    scripts: &[Script],
    uses: &[LastUses],
    next: NextUse,
    tried: &[bool],
    p: usize,
) -> bool
    requires scripts { length scripts.now ≡ length ports.now.config.partitions }
    requires uses { AreOfScripts ports.now.config scripts.now uses.now }
    requires next { IsNextUse ports.now.config scripts.now ports.now.history p next }
    ensures { IsTrue result → IsSafeToTry ports.now.config scripts.now ports.now.history
        (is_tried tried.now) p }
{
    match next {
        NextUse::NoCall => false,
        NextUse::NoChannel => true,
        NextUse::Channel { channel, is_change } => {
            is_quiet_outside(ports, scripts, uses, tried, channel, is_change)
        }
    }
}

/// Whether no partition outside the set has yet to make a call that can change the channel or, if `named`, names it.
fn is_quiet_outside(
    ports: &Ports,
    scripts: &[Script],
    uses: &[LastUses],
    tried: &[bool],
    channel: usize,
    named: bool,
) -> bool
    requires scripts { length scripts.now ≡ length ports.now.config.partitions }
    requires uses { AreOfScripts ports.now.config scripts.now uses.now }
    ensures { IsTrue result → IsQuietOutside ports.now.config scripts.now ports.now.history
        (is_tried tried.now) channel named }
{
    for q in 0..uses.len() {
        let made = ports.calls(q) as usize;
        if !is_tried(tried, q) && !uses[q].are_over(channel, named, made) {
            return false;
        }
    }
    true
}

/// The set that grows from these partitions' next calls, or else the smallest that grows from one, in `smallest`. No
/// clause says so: `choose` checks whether it is enough.
fn find_members(
    ports: &Ports,
    uses: &[LastUses],
    nexts: &[NextUse],
    from: &[usize],
    smallest: &mut Vec<usize>,
    members: &mut Vec<usize>,
) -> Result<(), OutOfMemory>
    requires { length uses.now ≡ length ports.now.config.partitions }
{
    smallest.clear();
    for p in from {
        if has_call(nexts, *p) {
            smallest.push(*p)?;
        }
    }
    if smallest.is_empty() {
        return find_smallest(ports, uses, nexts, smallest, members);
    }
    grow(ports, uses, nexts, uses.len(), smallest)
}

/// The smallest set that grows from one partition's next call, in `smallest`, which is empty.
fn find_smallest(
    ports: &Ports,
    uses: &[LastUses],
    nexts: &[NextUse],
    smallest: &mut Vec<usize>,
    members: &mut Vec<usize>,
) -> Result<(), OutOfMemory>
    requires { length uses.now ≡ length ports.now.config.partitions }
{
    for p in 0..nexts.len() {
        if has_call(nexts, p) && smallest.len() != 1 {
            let most = if smallest.is_empty() {
                uses.len()
            } else {
                smallest.len()
            };
            members.clear();
            members.push(p)?;
            grow(ports, uses, nexts, most, members)?;
            if smallest.is_empty() || members.len() < smallest.len() {
                smallest.clear();
                smallest.extend_from_slice(members.as_slice())?;
            }
        }
    }
    Ok(())
}

fn has_call(nexts: &[NextUse], p: usize) -> bool {
    match nexts.get(p) {
        None => false,
        Some(NextUse::NoCall) => false,
        Some(_) => true,
    }
}

/// Adds to the members those that disturb the next call of one, up to `most` or a few more.
fn grow(
    ports: &Ports,
    uses: &[LastUses],
    nexts: &[NextUse],
    most: usize,
    members: &mut Vec<usize>,
) -> Result<(), OutOfMemory>
    requires { length uses.now ≡ length ports.now.config.partitions }
{
    for i in 0..uses.len() {
        if members.len() >= most {
            return Ok(());
        }
        if let Some(next) = next_of(members, i, nexts) {
            for q in 0..uses.len() {
                if !members.contains(&q) && disturbs(ports, uses, q, next) {
                    members.push(q)?;
                }
            }
        }
    }
    Ok(())
}

/// How a member's next call uses a channel.
fn next_of(members: &[usize], i: usize, nexts: &[NextUse]) -> Option<NextUse> {
    let p = members.get(i)?;
    nexts.get(*p).copied()
}

/// Whether the partition has yet to make a call that doesn't commute with the next one of another.
fn disturbs(ports: &Ports, uses: &[LastUses], q: usize, next: NextUse) -> bool
    requires partitions { length uses.now ≡ length ports.now.config.partitions }
    requires partition { q < length uses.now }
{
    match next {
        NextUse::Channel { channel, is_change } => {
            let made = ports.calls(q) as usize;
            !uses[q].are_over(channel, is_change, made)
        }
        _ => false,
    }
}

fn set_of(members: &[usize], partitions: usize, set: &mut Vec<bool>) -> Result<(), OutOfMemory> {
    set.clear();
    for p in 0..partitions {
        set.push(members.contains(&p))?;
    }
    Ok(())
}
