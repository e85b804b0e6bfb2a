//! The answers to the questions of `--when`, `--never` and `--why`.
ghost use Rattle.std.specs.Prelude.{◌≡◌, length};

use crate::bound::Bound;
use crate::json_reasons::push_undecided;
use crate::occurrences::{Answer, Occurrence, Occurrences, answer_by};
use crate::outcome::Outcome;
use crate::progress::Progress;
use crate::questions::{AskedOf, question_in};
use crate::reasons::find_reason;
use crate::unfinished::Unfinished;
use crate::verdict::Verdict;
use apex_module::Config;
use apex_ports::Script;
use dekarino_command_line::{Form, Question, SearchLimits};
use dekarino_texts::LineNumbers;
use std::alloc::{AllocError, Global};
use std::thread::Threads;

/// The answers to questions, in the order given. Each of several is below a line with its question, also an undecided
/// one. Each search gives up at the limits.
pub(crate) fn answers_to<'a, R: Threads + Sync, P: Progress>(
    rt: &R,
    alloc: Global,
    config: &Config,
    scripts: &mut [Script],
    lines: &[LineNumbers],
    limits: SearchLimits,
    questions: &[Question<'a>],
    form: Form,
    progress: &mut P,
) -> Result<Outcome, Unfinished<'a>>
    requires { length scripts.old ≡ length config.now.partitions }
{
    let all_asked = all_asked_in(alloc, config, scripts, lines, questions)?;
    let all_asked = all_asked.as_slice();
    let mut found = Occurrences::find(rt, alloc, config, scripts, limits, all_asked, progress)?;
    match (questions, all_asked) {
        ([question], [asked]) => {
            let answer = answer_to(
                rt, alloc, config, scripts, lines, limits, question, asked, &mut found, form,
                progress,
            )?;
            Ok(answer.verdict.outcome(answer.text.into_bytes()))
        }
        _ => several_answers(
            rt, alloc, config, scripts, lines, limits, questions, all_asked, &mut found, form,
            progress,
        ),
    }
}

/// The answer to a question, which is the next of its kind among those for which something was found.
fn answer_to<'a, R: Threads + Sync, P: Progress>(
    rt: &R,
    alloc: Global,
    config: &Config,
    scripts: &mut [Script],
    lines: &[LineNumbers],
    limits: SearchLimits,
    question: &Question<'a>,
    asked: &AskedOf,
    found: &mut Occurrences,
    form: Form,
    progress: &mut P,
) -> Result<Answer, Unfinished<'a>>
    requires { length scripts.old ≡ length config.now.partitions }
    ensures same { scripts.new ≡ scripts.old }
{
    let occurrence = match asked {
        AskedOf::Call(_) => found.next_call(),
        AskedOf::End(_) => found.next_end(),
        AskedOf::Reason(asked) => {
            let words = question.words();
            return find_reason(
                rt, alloc, config, scripts, lines, limits, words, asked, form, progress,
            );
        }
    };
    let occurrence = occurrence.unwrap_or(Occurrence::Undecided(Bound::Seconds(limits.seconds)));
    answer_by(alloc, config, scripts, question, occurrence)
}

/// What the questions ask.
fn all_asked_in<'a>(
    alloc: Global,
    config: &Config,
    scripts: &[Script],
    lines: &[LineNumbers],
    questions: &[Question<'a>],
) -> Result<Vec<AskedOf>, Unfinished<'a>> {
    let mut all_asked = Vec::new(alloc);
    for question in questions {
        let asked = question_in(alloc, config, scripts, lines, question)?;
        if let Err(refused) = all_asked.push(asked) {
            return Err(Unfinished::from(AllocError::from(refused)));
        }
    }
    Ok(all_asked)
}

/// The answers, each after a line with its question.
fn several_answers<'a, R: Threads + Sync, P: Progress>(
    rt: &R,
    alloc: Global,
    config: &Config,
    scripts: &mut [Script],
    lines: &[LineNumbers],
    limits: SearchLimits,
    questions: &[Question<'a>],
    all_asked: &[AskedOf],
    found: &mut Occurrences,
    form: Form,
    progress: &mut P,
) -> Result<Outcome, Unfinished<'a>>
    requires { length scripts.old ≡ length config.now.partitions }
{
    let mut text = String::new(alloc);
    let mut verdict = Verdict::Yes;
    for (question, asked) in questions.iter().zip(all_asked.iter()) {
        push_question(&mut text, question, form)?;
        let answer = answer_to(
            rt, alloc, config, scripts, lines, limits, question, asked, found, form, progress,
        );
        match answer {
            Ok(answer) => {
                verdict = verdict.and(answer.verdict);
                text.push_str(answer.text.as_str())?;
            }
            Err(Unfinished::Undecided(bound)) => {
                verdict = verdict.and(Verdict::Undecided);
                push_bound(alloc, &mut text, question, bound, form)?;
            }
            Err(unfinished) => return Err(unfinished),
        }
    }
    Ok(verdict.outcome(text.into_bytes()))
}

/// Writes a line with the option and the words of a question. A JSON object of `--why` has the words itself.
fn push_question(text: &mut String, question: &Question<'_>, form: Form) -> Result<(), AllocError> {
    match (question, form) {
        (Question::Why(_), Form::Json) => Ok(()),
        _ => writeln!(text, "{} '{}'", question.option(), question.words()),
    }
}

/// Writes the bound at which the search for an answer gave up.
fn push_bound(
    alloc: Global,
    text: &mut String,
    question: &Question<'_>,
    bound: Bound,
    form: Form,
) -> Result<(), AllocError> {
    match (question, form) {
        (Question::Why(words), Form::Json) => push_undecided(alloc, text, words),
        _ => writeln!(text, "{bound}"),
    }
}
