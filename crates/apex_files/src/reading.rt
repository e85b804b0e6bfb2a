//! Reads the bytes of a file, or the configuration in it.
ghost use Rattle.std.specs.Prelude.{IfSome};
ghost use Rattle.apex_files.specs.Reading.{IsFileRead, IsConfigRead};

use crate::files::{FileFault, Opener, read_path};
use crate::refusal::Refusal;
use apex_config::ReadConfig;
use apex_module::Config;
use apex_texts::Fault;
use std::alloc::Global;

/// The bytes of the file at a path, or the refusal that says why they were not read.
pub fn read_file<'a, O: Opener>(
    alloc: Global,
    opener: &O,
    path: &'a str,
) -> Result<Vec<u8>, Refusal<'a>>
    ensures { IsFileRead (O.bytes_at opener.now) path.now result }
{
    match read_path(alloc, opener, path) {
        Ok(bytes) => Ok(bytes),
        Err(FileFault::Unreadable(obstacle)) => Err(Refusal::File { path, obstacle }),
        Err(FileFault::OutOfMemory) => Err(Refusal::Text(Fault::Memory)),
    }
}

/// The configuration in a file.
pub fn read_config<'a, O: Opener>(
    alloc: Global,
    opener: &O,
    path: &'a str,
) -> Result<Config, Refusal<'a>>
    ensures { IfSome (O.bytes_at opener.now path.now) (IsConfigRead result) }
{
    let text = read_file(alloc, opener, path)?;
    match Config::read(alloc, text.as_slice()) {
        Ok(config) => Ok(config),
        Err(fault) => Err(Refusal::Text(Fault::from(fault))),
    }
}
