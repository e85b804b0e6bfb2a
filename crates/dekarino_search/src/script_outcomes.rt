//! The outcomes of scripts over every order of their calls.
ghost use Rattle.std.specs.Prelude.{◌≡◌, length};

use crate::answers::answers_to;
use crate::bound::Bound;
use crate::clock::check_moments;
use crate::configuration::read_config;
use crate::file_writer::FileWriter;
use crate::json_outcomes::OutcomeObjects;
use crate::outcome::Outcome;
use crate::progress::Progress;
use crate::scripts::{Scripts, read_scripts};
use crate::search_progress::SearchProgress;
use crate::unfinished::Unfinished;
use crate::witnesses::{make_folder, write_witnesses};
use apex_files::Opener;
use apex_groups::{OutcomesApart, all_outcomes_apart};
use apex_module::Config;
use apex_orders::OrdersFault;
use apex_ports::Script;
use apex_threads::unpack_all;
use apex_types::OutOfMemory;
use dekarino_command_line::{Form, Question, SearchLimits};
use dekarino_texts::{LineNumbers, OutcomeText, walk_outcomes};
use std::alloc::{AllocError, Global};
use std::thread::Threads;

/// All replies that the scripts named by the arguments can get, on the configuration in a file, or the answers to
/// questions. If `witness` is given, orders for the replies of calls that have several are written to files in that
/// folder. A search gives up at the limits.
pub fn outcomes_of_scripts<'a, R: Threads + Sync, O: Opener + FileWriter, P: Progress>(
    rt: &R,
    alloc: Global,
    opener: &O,
    config: &'a str,
    arguments: &[&'a str],
    limits: SearchLimits,
    questions: &[Question<'a>],
    witness: Option<&'a str>,
    form: Form,
    progress: &mut P,
) -> Result<Outcome, Unfinished<'a>> {
    let config = read_config(alloc, opener, config, form)?;
    let Scripts { scripts, lines } = read_scripts(alloc, opener, &config, arguments, form)?;
    let mut scripts = unpack_all(alloc, scripts.as_slice())?;
    let (scripts, lines) = (scripts.as_mut_slice(), lines.as_slice());
    if limits.clock {
        check_moments(alloc, &config, arguments, scripts, lines)?;
    }
    if !questions.is_empty() {
        return answers_to(
            rt, alloc, &config, scripts, lines, limits, questions, form, progress,
        );
    }
    make_folder(opener, witness)?;
    let mut progress = SearchProgress::new(progress, limits);
    let states = progress.states();
    let found = match all_outcomes_apart(
        rt,
        alloc,
        &config,
        scripts,
        limits.clock,
        states,
        &mut progress,
    ) {
        Ok(found) => found,
        Err(fault) => return Err(unfinished_by(fault, &progress)),
    };
    let replies = found.replies.as_slice();
    let files = write_witnesses(
        rt,
        alloc,
        opener,
        &config,
        scripts,
        limits.clock,
        lines,
        replies,
        witness,
        &mut progress,
    )?;
    let text = outcomes_text(alloc, &config, scripts, lines, &found, &files, form)?;
    Ok(Outcome::Done(text.into_bytes()))
}

fn outcomes_text(
    alloc: Global,
    config: &Config,
    scripts: &[Script],
    lines: &[LineNumbers],
    outcomes: &OutcomesApart,
    files: &[String],
    form: Form,
) -> Result<String, OutOfMemory>
    requires { length scripts.now ≡ length config.now.partitions }
{
    match form {
        Form::Text => {
            let mut sink = OutcomeText::new(alloc);
            walk_outcomes(alloc, config, scripts, lines, outcomes, files, &mut sink)?;
            Ok(sink.into_text())
        }
        Form::Json => {
            let mut sink = OutcomeObjects::new(alloc);
            walk_outcomes(alloc, config, scripts, lines, outcomes, files, &mut sink)?;
            Ok(sink.into_text())
        }
    }
}

/// Why a search that had this progress ended without an answer.
pub(crate) fn unfinished_by<'a, P: Progress>(
    fault: OrdersFault,
    progress: &SearchProgress<'_, P>,
) -> Unfinished<'a> {
    match fault {
        OrdersFault::TooManyStates => Unfinished::Undecided(Bound::States(progress.states())),
        OrdersFault::Stopped => Unfinished::Undecided(progress.bound()),
        OrdersFault::OutOfMemory => Unfinished::from(AllocError),
    }
}
