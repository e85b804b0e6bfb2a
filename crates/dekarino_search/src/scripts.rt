//! The scripts that arguments `NAME=SCRIPT` give to partitions, each file read once.
ghost use Rattle.std.specs.Prelude.{◌≡◌, ◌<◌, [], length, replicate, IfOk, IfSome};
ghost use Rattle.apex_files.specs.Scripts.{AreScripts};

use crate::mistakes::mistakes_of_script;
use crate::unfinished::Unfinished;
use apex_files::{Opener, Refusal, partition_and_path, read_file, read_packed_script};
use apex_module::Config;
use apex_texts::{Fault, TraceFault};
use apex_threads::PackedScript;
use dekarino_command_line::Form;
use dekarino_texts::{LineNumbers, call_lines};
use std::alloc::{AllocError, Global};

/// A script for each partition of a configuration, and the numbers of the lines of its calls.
#[derive(Drop)]
pub struct Scripts {
    pub scripts: Vec<PackedScript>,
    pub lines: Vec<LineNumbers>,
}

/// The script of each partition, in the file that the argument with its name names, or the empty one. If a script is
/// refused, the error has the mistakes of all scripts.
pub fn read_scripts<'a, O: Opener>(
    alloc: Global,
    opener: &O,
    config: &Config,
    arguments: &[&'a str],
    form: Form,
) -> Result<Scripts, Unfinished<'a>>
    ensures scripts { IfOk result (λ all.
        AreScripts (O.bytes_at opener.now) config.now arguments.now all.scripts.items) }
    ensures lines { IfOk result
        (λ all. length all.lines.items ≡ length config.now.partitions) }
{
    let mut all = empty_scripts(alloc, config.partitions())?;
    let mut named = vec![in alloc; false; config.partitions()]?;
    for (index, argument) in arguments.iter().enumerate() {
        let (p, path) = match partition_and_path(config, argument) {
            Some((p, path)) if !named[p] => (p, path),
            _ => return Err(Unfinished::Refused(Refusal::Argument(argument))),
        };
        let text = read_file(alloc, opener, path)?;
        let script = match read_packed_script(alloc, text.as_slice()) {
            Ok(script) => script,
            Err(fault) => {
                let faulty = FaultyScript {
                    partition: p,
                    path,
                    text,
                    fault,
                };
                let later = &arguments[index + 1..];
                return Err(refusal_of(alloc, opener, config, &faulty, later, form));
            }
        };
        all.scripts[p] = script;
        all.lines[p] = call_lines(alloc, text.as_slice())?;
        named[p] = true;
    }
    Ok(all)
}

/// `count` empty scripts.
fn empty_scripts(alloc: Global, count: usize) -> Result<Scripts, AllocError>
    ensures scripts { IfOk result (λ all. all.scripts.items ≡ replicate count []) }
    ensures lines { IfOk result (λ all. length all.lines.items ≡ count) }
{
    let mut scripts = Vec::with_capacity(alloc, count)?;
    let mut lines = Vec::with_capacity(alloc, count)?;
    for _ in 0..count {
        scripts.push_reserved(PackedScript::new(alloc));
        lines.push_reserved(LineNumbers {
            numbers: Vec::new(alloc),
        });
    }
    Ok(Scripts { scripts, lines })
}

/// The file of a partition's script that is refused.
#[derive(Drop)]
struct FaultyScript<'a> {
    partition: usize,
    path: &'a str,
    text: Vec<u8>,
    fault: TraceFault,
}

/// The error of a refused script, with its mistakes and those of the scripts after it.
fn refusal_of<'a, O: Opener>(
    alloc: Global,
    opener: &O,
    config: &Config,
    faulty: &FaultyScript<'a>,
    later: &[&'a str],
    form: Form,
) -> Unfinished<'a>
    requires { faulty.now.partition < length config.now.partitions }
{
    let TraceFault::Line { line, fault } = faulty.fault else {
        return Unfinished::from(AllocError);
    };
    match mistakes_from(alloc, opener, config, faulty, later, form) {
        Ok(text) => Unfinished::RefusedWithText {
            text: text.into_bytes(),
            refusal: Refusal::Text(Fault::Script {
                partition: config.partition_name(faulty.partition).copy(),
                fault: TraceFault::Line { line, fault },
            }),
        },
        Err(refusal) => Unfinished::Refused(refusal),
    }
}

/// The mistakes of a refused script and of those after it; the ones before it have none.
fn mistakes_from<'a, O: Opener>(
    alloc: Global,
    opener: &O,
    config: &Config,
    faulty: &FaultyScript<'a>,
    later: &[&'a str],
    form: Form,
) -> Result<String, Refusal<'a>> {
    let (path, text) = (faulty.path, faulty.text.as_slice());
    let mut mistakes = mistakes_of_script(alloc, path, config, faulty.partition, text, form)?;
    for argument in later {
        if let Some((partition, path)) = partition_and_path(config, argument) {
            let text = read_file(alloc, opener, path)?;
            let more = mistakes_of_script(alloc, path, config, partition, text.as_slice(), form)?;
            mistakes.push_str(more.as_str())?;
        }
    }
    Ok(mistakes)
}
