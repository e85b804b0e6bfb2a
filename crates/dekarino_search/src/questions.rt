//! Reading the question of `--when`, `--never` and `--why`.
ghost use Rattle.std.specs.Prelude.{ℕ, IsTrue};
ghost use Rattle.apex_types.specs.declared.moment.Moment.{Moment};
ghost use Rattle.apex_module.specs.Configuration.{Configuration};
ghost use Rattle.apex_ports.specs.History.{History};
ghost use Rattle.apex_ports.specs.ReplyTable.{reply_to};
ghost use Rattle.apex_orders.specs.Outcomes.{Admits};

use crate::end_questions::read_end;
use crate::question_faults::{QuestionFault, question_error};
use crate::unfinished::Unfinished;
use apex_groups::AskedEnd;
use apex_logs::read_reply;
use apex_module::Config;
use apex_orders::{Admitted, Asked};
use apex_ports::{CallRef, Script};
use apex_texts::Service;
use apex_types::{Call, Reply};
use apex_words::{can_give, can_give_code};
use dekarino_command_line::Question;
use dekarino_texts::LineNumbers;
use std::alloc::Global;

/// What a question asks.
#[derive(Drop)]
pub(crate) enum AskedOf {
    /// Whether a call gets a reply.
    Call(Asked),
    /// Which two calls decide whether a call gets a reply.
    Reason(Asked),
    /// Whether all calls lead to an end.
    End(AskedEnd),
}

/// What a question asks: `CHANNEL COUNT OP NUMBER` if it has no colon, else `NAME:LINE = REPLY`, of the call on that line
/// of the partition's script. A return code alone means every reply with that code. `--why` asks only of a call.
pub(crate) fn question_in<'a>(
    alloc: Global,
    config: &Config,
    scripts: &[Script],
    lines: &[LineNumbers],
    question: &Question<'a>,
) -> Result<AskedOf, Unfinished<'a>> {
    let words = question.words();
    let read = match question {
        Question::Why(_) => read_why(config, scripts, lines, words),
        _ => read_question(config, scripts, lines, words),
    };
    match read {
        Ok(asked) => Ok(asked),
        Err(fault) => Err(question_error(alloc, config, lines, words, fault)),
    }
}

fn read_why<'a>(
    config: &Config,
    scripts: &[Script],
    lines: &[LineNumbers],
    words: &'a str,
) -> Result<AskedOf, QuestionFault<'a>> {
    match read_call(config, scripts, lines, words) {
        Ok(asked) => Ok(AskedOf::Reason(asked)),
        Err(QuestionFault::Form) => Err(QuestionFault::CallForm),
        Err(fault) => Err(fault),
    }
}

fn read_question<'a>(
    config: &Config,
    scripts: &[Script],
    lines: &[LineNumbers],
    words: &'a str,
) -> Result<AskedOf, QuestionFault<'a>> {
    if words.split_once(':').is_none() {
        let asked = read_end(config, words)?;
        return Ok(AskedOf::End(asked));
    }
    let asked = read_call(config, scripts, lines, words)?;
    Ok(AskedOf::Call(asked))
}

fn read_call<'a>(
    config: &Config,
    scripts: &[Script],
    lines: &[LineNumbers],
    words: &'a str,
) -> Result<Asked, QuestionFault<'a>> {
    let (call, said) = words.split_once('=').ok_or(QuestionFault::Form)?;
    let said = said.trim();
    if said.is_empty() {
        return Err(QuestionFault::Form);
    }
    let (name, line) = call.trim().split_once(':').ok_or(QuestionFault::Form)?;
    let Ok(line) = line.parse() else {
        return Err(QuestionFault::Form);
    };
    let Some(partition) = config.partition_called(name.as_bytes()) else {
        return Err(QuestionFault::NoPartition { name });
    };
    let Some((index, call)) = call_on(scripts, lines, partition, line) else {
        return Err(QuestionFault::NoCall {
            name,
            partition,
            line,
        });
    };
    let mut reply = Reply::NotMade;
    if read_reply(said.as_bytes(), &mut reply).is_err() {
        return Err(QuestionFault::NoReply {
            said,
            service: Service::of(CallRef::of(call)),
        });
    }
    let admitted = Admitted::of(reply);
    if !can_be_given(call, &admitted) {
        return Err(QuestionFault::NotGiven {
            service: Service::of(CallRef::of(call)),
        });
    }
    Ok(Asked {
        partition,
        index,
        admitted,
    })
}

/// The call on a line of the partition's script, with its index.
fn call_on<'s>(
    scripts: &'s [Script],
    lines: &[LineNumbers],
    partition: usize,
    line: usize,
) -> Option<(usize, &'s Call)> {
    let numbers = lines.get(partition)?.numbers.as_slice();
    let index = numbers.iter().position(|number| *number == line)?;
    let (_, call) = scripts.get(partition)?.calls.get(index)?;
    Some((index, call))
}

/// Whether a row of the call's service gives an admitted reply. If none does, the call gets none in any order.
fn can_be_given(call: &Call, admitted: &Admitted) -> bool
    ensures { (config : Configuration) (history : History) (p : ℕ) (now : Moment) →
        Admits admitted.now (reply_to config history p now call.now) → IsTrue result }
{
    let asked = CallRef::of(call);
    let service = Service::of(asked);
    match admitted {
        Admitted::Reply(reply) => can_give(service, reply),
        Admitted::Code(code) => can_give_code(service, *code),
        Admitted::NotReply(_) | Admitted::NotCode(_) => true,
    }
}
