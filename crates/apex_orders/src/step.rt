//! The next call of a partition's script.
ghost use Rattle.std.specs.Prelude.{◌≡◌, ◌<◌, ◌≤◌, ◌++◌, length, IfSome, MatchOption};
ghost use Rattle.apex_orders.specs.Prelude.{IsSound};
ghost use Rattle.apex_orders.specs.Orders.{next_entries, script_of};
ghost use Rattle.apex_orders.specs.Steps.{IsShort, MakesNothing, Makes, possible};

use crate::replies::PossibleReply;
use apex_ports::{CallRef, Ports, ReplyRef, Script};
use apex_types::MESSAGE_LIMIT;

/// Makes the next call of the partition's script. If all are made, it makes no call and returns `None`.
pub fn step(ports: &mut Ports, scripts: &[Script], p: usize) -> Option<PossibleReply>
    requires partition { p < length ports.old.config.partitions }
    requires scripts { length scripts.now ≡ length ports.old.config.partitions }
    requires sound { IsSound ports.old.config ports.old.history }
    ensures config { ports.new.config ≡ ports.old.config }
    ensures sound { IsSound ports.new.config ports.new.history }
    ensures history { ports.new.history ≡ ports.old.history
        ++ next_entries ports.old.config scripts.now ports.old.history p }
    ensures call { MatchOption result
        (MakesNothing ports.old.config scripts.now ports.old.history p)
        (λ one. Makes ports.old.config scripts.now ports.old.history p one) }

    // No script has more calls than can be counted.
    ensures short { length (script_of scripts.now p) ≤ usize.MAX }
{
    let mut buffer = [0; MESSAGE_LIMIT];
    match make_next(ports, scripts, p, &mut buffer) {
        None => None,
        Some(made) => Some(made.to_possible()),
    }
}

/// A call that was made, with its reply by reference. A contract sees it as the `PossibleReply` (`possible`).
#[derive(Clone, Copy, Drop)]
pub(crate) struct MadeCall<'a> {
    pub(crate) partition: usize,
    pub(crate) index: usize,
    pub(crate) reply: ReplyRef<'a>,
}

impl<'a> MadeCall<'a> {
    /// The call with a reply of its own by reference.
    pub(crate) fn of(one: &'a PossibleReply) -> MadeCall<'a>
        ensures { possible result ≡ one.now }
    {
        MadeCall {
            partition: one.partition,
            index: one.index,
            reply: ReplyRef::of(&one.reply),
        }
    }

    /// The call with a copy of its reply.
    pub(crate) fn to_possible(self) -> PossibleReply
        requires { IsShort self }
        ensures { result ≡ possible self.entry }
    {
        PossibleReply {
            partition: self.partition,
            index: self.index,
            reply: self.reply.to_reply(),
        }
    }
}

/// Makes the call as `step` does. The message of the reply is in the buffer, which has room for any.
pub(crate) fn make_next<'a>(
    ports: &mut Ports,
    scripts: &[Script],
    p: usize,
    buffer: &'a mut [u8],
) -> Option<MadeCall<'a>>
    requires partition { p < length ports.old.config.partitions }
    requires room { MESSAGE_LIMIT ≤ length buffer.old }
    requires scripts { length scripts.now ≡ length ports.old.config.partitions }
    requires sound { IsSound ports.old.config ports.old.history }
    ensures config { ports.new.config ≡ ports.old.config }
    ensures sound { IsSound ports.new.config ports.new.history }
    ensures history { ports.new.history ≡ ports.old.history
        ++ next_entries ports.old.config scripts.now ports.old.history p }
    ensures call { MatchOption result
        (MakesNothing ports.old.config scripts.now ports.old.history p)
        (λ made. Makes ports.old.config scripts.now ports.old.history p (possible made)) }
    ensures reply { IfSome result IsShort }
    ensures short { length (script_of scripts.now p) ≤ usize.MAX }
{
    let script = &scripts[p];
    let index = ports.calls(p) as usize;
    if index >= script.calls.len() {
        return None;
    }
    let (at, call) = &script.calls[index];
    let reply = ports.answer(p, *at, CallRef::of(call), buffer);
    Some(MadeCall {
        partition: p,
        index,
        reply,
    })
}
