//! Where a configuration is refused, and why.
ghost use Rattle.std.specs.Prelude.{◌≡◌, ◌≢◌, ◌⊎◌, Ok, length, string_bytes, IfOk, Some};
ghost use Rattle.apex_config.specs.Meaning.{config_of, read_of};
ghost use Rattle.apex_module.specs.declared.fault.ConfigFault.TheVariants.{OutOfMemory};
ghost use Rattle.apex_c.specs.Fault.{AreLinesOf, first_path, path_at, path_in};
ghost use Rattle.apex_c.specs.Opening.{fault_number, opening_number};
ghost use Rattle.apex_c.specs.Texts.{IsText, text_after, text_length_after};

use crate::buffer::put_text;
use crate::opening::{OPENED, OUT_OF_MEMORY};
use apex_config::{Config, ConfigFault, Part, Place, ReadConfig, Refusal, Spot};
use apex_refusals::{PathOfPart, Refused, read_config};
use std::alloc::{AllocError, Global};
use std::fmt;

/// Where the text of a configuration is refused. Puts the path of its fault's first place, as `partition[0].port[1].kind`,
/// into the buffer's first bytes if the buffer has room for all of it, and the length of the path into its place. Puts
/// nothing anywhere if the text is a configuration. Answers as `apex_open` does with a handle that isn't open.
#[unsafe(no_mangle)]
#[tactic(auto, unfolding(apex_config::specs::Meaning::config_of))]
pub extern "C" fn apex_configuration_fault(
    alloc: Global,
    text: &[u8],
    buffer: &mut [u8],
    path_length: &mut u64,
) -> u32
    ensures number { result ≢ OUT_OF_MEMORY → result ≡ opening_number (config_of text.now) }
    ensures path { result ≢ OUT_OF_MEMORY →
        buffer.new ≡ text_after (path_in (read_of text.now)) buffer.old }
    ensures path_length { result ≢ OUT_OF_MEMORY →
        path_length.new ≡ text_length_after (path_in (read_of text.now)) path_length.old }
    ensures no_memory { result ≡ OUT_OF_MEMORY →
        (buffer.new ≡ buffer.old) × (path_length.new ≡ path_length.old) }
{
    match Config::read_placed(alloc, text) {
        Ok(_) => OPENED,
        Err(refusal) => match first_path(alloc, &refusal) {
            Ok(path) => put_fault(refusal.fault, path.as_bytes(), buffer, path_length),
            Err(_) => OUT_OF_MEMORY,
        },
    }
}

/// What is wrong in the text of a configuration. Puts a line for each place of its fault into the buffer's first bytes if
/// the buffer has room for all of them, and the length of the lines into its place. Puts nothing anywhere if the text is
/// a configuration. Answers as `apex_configuration_fault`.
#[unsafe(no_mangle)]
#[tactic(auto, unfolding(apex_config::specs::Meaning::config_of))]
pub extern "C" fn apex_configuration_mistakes(
    alloc: Global,
    text: &[u8],
    buffer: &mut [u8],
    lines_length: &mut u64,
) -> u32
    ensures number { result ≢ OUT_OF_MEMORY → result ≡ opening_number (config_of text.now) }
    ensures lines { result ≢ OUT_OF_MEMORY →
        AreLinesOf (read_of text.now) buffer.old buffer.new lines_length.new }
    ensures no_lines { (result ≡ OUT_OF_MEMORY) ⊎ (result ≡ OPENED) →
        (buffer.new ≡ buffer.old) × (lines_length.new ≡ lines_length.old) }
{
    match read_config(alloc, None, text) {
        Ok(Ok(_)) => OPENED,
        Ok(Err(refused)) => {
            let lines = refused.lines.as_bytes();
            put_fault(refused.refusal.fault, lines, buffer, lines_length)
        }
        Err(_) => OUT_OF_MEMORY,
    }
}

/// Puts the path of a refusal's first place and its lines into their buffers. Answers the number of the fault.
pub(crate) fn put_refused(
    alloc: Global,
    refused: &Refused,
    path: &mut [u8],
    path_length: &mut u64,
    lines: &mut [u8],
    lines_length: &mut u64,
) -> u32
    ensures number { result ≢ OUT_OF_MEMORY → result ≡ fault_number refused.now.refusal.fault }
    ensures refused { result ≢ OPENED }
    ensures path { result ≢ OUT_OF_MEMORY →
        path.new ≡ text_after (Ok (first_path refused.now.refusal.places)) path.old }
    ensures path_length { result ≢ OUT_OF_MEMORY →
        path_length.new ≡ length (first_path refused.now.refusal.places) }
    ensures lines { result ≢ OUT_OF_MEMORY →
        IsText lines.old lines.new lines_length.new }
    ensures no_path { result ≡ OUT_OF_MEMORY →
        (path.new ≡ path.old) × (path_length.new ≡ path_length.old) }
    ensures no_lines { result ≡ OUT_OF_MEMORY →
        (lines.new ≡ lines.old) × (lines_length.new ≡ lines_length.old) }
{
    let Ok(found) = first_path(alloc, &refused.refusal) else {
        return OUT_OF_MEMORY;
    };
    let answer = put_fault(refused.refusal.fault, found.as_bytes(), path, path_length);
    if answer != OUT_OF_MEMORY {
        let _ = put_text(refused.lines.as_bytes(), lines, lines_length);
    }
    answer
}

// Puts the text of a fault into the buffer. Answers the number of the fault.
fn put_fault(fault: ConfigFault, text: &[u8], buffer: &mut [u8], text_length: &mut u64) -> u32
    ensures number { result ≢ OUT_OF_MEMORY → result ≡ fault_number fault }
    ensures fault { result ≢ OUT_OF_MEMORY → fault ≢ OutOfMemory }
    ensures refused { result ≢ OPENED }
    ensures buffer { result ≢ OUT_OF_MEMORY → buffer.new ≡ text_after (Ok text.now) buffer.old }
    ensures length { result ≢ OUT_OF_MEMORY → text_length.new ≡ length text.now }
    ensures no_memory { result ≡ OUT_OF_MEMORY →
        (buffer.new ≡ buffer.old) × (text_length.new ≡ text_length.old) }
{
    match fault.number() {
        Some(number) => {
            let _ = put_text(text, buffer, text_length);
            number
        }
        None => OUT_OF_MEMORY,
    }
}

// The path of the first place of a refusal.
fn first_path(alloc: Global, refusal: &Refusal) -> Result<String, AllocError>
    ensures { IfOk result (λ path. string_bytes path ≡ first_path refusal.now.places) }
{
    match refusal.places.first() {
        Some(place) => format!(in alloc; "{}", PathOf(*place)),
        None => Ok(String::new(alloc)),
    }
}

/// A place of a configuration, as a path whose indexes count from 0.
#[derive(Clone, Copy)]
struct PathOf(Place);

impl fmt::Display for PathOf {
    ghost output = { λ path. Some (path_at path.0.part path.0.spot) };

    fn fmt<W: fmt::Write>(&self, f: &mut fmt::Formatter<W>) -> fmt::Result {
        match (self.0.part, self.0.spot) {
            (Part::Document, Spot::At { key }) => f.write_str(key.word()),
            (part, Spot::At { key }) => write!(f, "{}.{}", PathOfPart(part), key.word()),
            (part, _) => write!(f, "{}", PathOfPart(part)),
        }
    }
}
