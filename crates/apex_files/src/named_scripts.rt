//! The scripts that arguments `NAME=SCRIPT` give to partitions.
ghost use Rattle.std.specs.Prelude.{◌≡◌, ◌<◌, [], length, replicate, IfOk, IfSome};
ghost use Rattle.std.specs.Option.{option_map};
ghost use Rattle.apex_files.specs.Arguments.{partition_in, path_in};
ghost use Rattle.apex_files.specs.Scripts.{AreArgumentsRead, IsScriptFile};

use crate::files::Opener;
use crate::packed_scripts::read_packed_script;
use crate::reading::read_file;
use crate::refusal::Refusal;
use apex_module::Config;
use apex_texts::{Fault, TraceFault};
use apex_threads::PackedScript;
use std::alloc::{AllocError, Global};

/// A script for each partition of the configuration: that of the argument that names it, or the empty one.
pub fn scripts_named<'a, O: Opener>(
    alloc: Global,
    opener: &O,
    config: &Config,
    arguments: &[&'a str],
) -> Result<Vec<PackedScript>, Refusal<'a>>
    ensures { AreArgumentsRead (O.bytes_at opener.now) config.now arguments.now result }
{
    let mut scripts = empty_scripts(alloc, config.partitions())?;
    let mut named = vec![in alloc; false; config.partitions()]?;
    for argument in arguments {
        let (p, path) = match partition_and_path(config, argument) {
            Some((p, path)) if !named[p] => (p, path),
            _ => return Err(Refusal::Argument(argument)),
        };
        scripts[p] = script_at(alloc, opener, config, p, path)?;
        named[p] = true;
    }
    Ok(scripts)
}

/// `count` empty scripts.
fn empty_scripts(alloc: Global, count: usize) -> Result<Vec<PackedScript>, AllocError>
    ensures { IfOk result (λ scripts. scripts.items ≡ replicate count []) }
{
    let mut scripts = Vec::with_capacity(alloc, count)?;
    for _ in 0..count {
        scripts.push_reserved(PackedScript::new(alloc));
    }
    Ok(scripts)
}

/// The partition that an argument `NAME=SCRIPT` names, and the path after the first `=`.
pub fn partition_and_path<'a>(config: &Config, argument: &'a str) -> Option<(usize, &'a str)>
    ensures partition { partition_in config.now argument.now
        ≡ option_map (λ found. found.0) result }
    ensures path { IfSome result (λ found. found.1.now ≡ path_in argument.now) }
    ensures known { IfSome result (λ found. found.0 < length config.now.partitions) }
{
    let (name, path) = argument.split_once('=')?;
    Some((config.partition_called(name.as_bytes())?, path))
}

/// The script of partition `p` in a file.
fn script_at<'a, O: Opener>(
    alloc: Global,
    opener: &O,
    config: &Config,
    p: usize,
    path: &'a str,
) -> Result<PackedScript, Refusal<'a>>
    requires { p < length config.now.partitions }
    ensures { IsScriptFile (O.bytes_at opener.now) config.now p path.now result }
{
    let text = read_file(alloc, opener, path)?;
    match read_packed_script(alloc, text.as_slice()) {
        Ok(script) => Ok(script),
        Err(TraceFault::OutOfMemory) => Err(Refusal::Text(Fault::Memory)),
        Err(fault) => {
            let partition = config.partition_name(p).copy();
            Err(Refusal::Text(Fault::Script { partition, fault }))
        }
    }
}
