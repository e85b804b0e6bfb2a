//! The answer to `--why`: which two calls decide a reply.
ghost use Rattle.std.specs.Prelude.{◌≡◌, length};

use crate::json_reasons::reason_object;
use crate::occurrences::Answer;
use crate::progress::Progress;
use crate::reason_text::reason_text;
use crate::script_outcomes::unfinished_by;
use crate::search_progress::SearchProgress;
use crate::unfinished::Unfinished;
use crate::verdict::Verdict;
use apex_groups::{Reason, deciding_calls};
use apex_module::Config;
use apex_orders::Asked;
use apex_ports::Script;
use dekarino_command_line::{Form, SearchLimits};
use dekarino_texts::LineNumbers;
use std::alloc::Global;
use std::thread::Threads;

/// The answer to `--why`: two calls that decide whether the asked call gets an admitted reply, with both orders; or that
/// it gets one in no order, or in every order.
pub(crate) fn find_reason<'a, R: Threads + Sync, P: Progress>(
    rt: &R,
    alloc: Global,
    config: &Config,
    scripts: &mut [Script],
    lines: &[LineNumbers],
    limits: SearchLimits,
    words: &str,
    asked: &Asked,
    form: Form,
    progress: &mut P,
) -> Result<Answer, Unfinished<'a>>
    requires { length scripts.old ≡ length config.now.partitions }
    ensures same { scripts.new ≡ scripts.old }
{
    let mut search = SearchProgress::new(progress, limits);
    let (clock, states) = (limits.clock, search.states());
    let found = deciding_calls(
        rt,
        alloc,
        config,
        scripts,
        clock,
        asked,
        states,
        &mut search,
    );
    let reason = match found {
        Ok(reason) => reason,
        Err(fault) => return Err(unfinished_by(fault, &search)),
    };
    let text = match form {
        Form::Text => reason_text(alloc, config, scripts, lines, asked, &reason)?,
        Form::Json => reason_object(alloc, config, scripts, lines, words, &reason)?,
    };
    Ok(Answer {
        verdict: verdict_of(&reason),
        text,
    })
}

fn verdict_of(reason: &Reason) -> Verdict {
    match reason {
        Reason::Decided(_) => Verdict::Yes,
        Reason::Never | Reason::Always => Verdict::No,
        Reason::Open { .. } => Verdict::Undecided,
    }
}
