//! One worker, which makes the calls of its partition's script one after the other.
ghost use Rattle.std.specs.Prelude.{◌≡◌, ◌<◌, [], length, IfOk, IfErr, OnOk};
ghost use Rattle.apex_threads.specs.Held.{NamesHeldCall};
ghost use Rattle.apex_threads.specs.Room.{AnswersAll};
ghost use Rattle.apex_threads.specs.Steps.{IsBetweenCalls};

use crate::gate::Gate;
use crate::packed::PackedReplies;
use crate::packed_script::PackedScript;
use crate::shared::SharedBoard;
use crate::steps::Steps;
use apex_ports::RunFault;
use apex_types::Reply;
use std::alloc::Allocator;
use std::sync::Wait;

/// Makes the calls of the partition's script in order, and stops at the first refusal.
pub(crate) fn run_script<R: Wait, S: SharedBoard, G: Gate, A: Allocator>(
    rt: &R,
    board: &S,
    gate: &G,
    scripts: &[PackedScript<A>],
    partition: usize,
    replies: PackedReplies<A>,
) -> Result<PackedReplies<A>, RunFault>
    requires partition { partition < length scripts.now }
    requires empty { replies ≡ [] }
    ensures answered { IfOk result (AnswersAll scripts.now partition) }
    ensures held { IfErr result (NamesHeldCall (G.may_refuse gate.now) scripts.now) }
{
    let mut steps = Steps::new(board, gate, partition);
    make_calls(rt, &mut steps, scripts, partition, replies)
}

/// Makes the calls by a worker's steps: for each earlier call it has passed its gate, asked the board and reported to
/// the gate.
fn make_calls<R: Wait, S: SharedBoard, G: Gate, A: Allocator>(
    rt: &R,
    steps: &mut Steps<'_, S, G>,
    scripts: &[PackedScript<A>],
    partition: usize,
    mut replies: PackedReplies<A>,
) -> Result<PackedReplies<A>, RunFault>
    requires partition { partition < length scripts.now }
    requires own { steps.old.partition ≡ partition }
    requires first { IsBetweenCalls steps.old 0 }
    requires empty { replies ≡ [] }
    ensures answered { IfOk result (AnswersAll scripts.now partition) }
    ensures steps { IfOk result (λ all. IsBetweenCalls steps.new (length all)) }
    ensures held { IfErr result
        (NamesHeldCall (G.may_refuse steps.old.gate.now) scripts.now) }
{
    let script = &scripts[partition];
    let mut reply = Reply::NotMade;
    for done in 0..script.len() {
        let Some((at, call)) = script.get(done) else {
            unreachable!();
        };
        if steps.pass().is_err() {
            return Err(RunFault::Held {
                partition,
                n: done + 1,
            });
        }
        let answer = steps.ask(rt, at, call, &mut reply);
        steps.tell();
        answer?;
        replies.push(&reply)?;
    }
    Ok(replies)
}
