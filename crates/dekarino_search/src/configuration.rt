//! Reading the configuration in a file.
ghost use Rattle.std.specs.Prelude.{◌≡◌, Ok, IfOk, IfSome};
ghost use Rattle.apex_config.specs.Meaning.{config_of};

use crate::places::push_place;
use crate::unfinished::Unfinished;
use apex_files::{Opener, Refusal, read_file};
use apex_module::Config;
use apex_refusals::Refused;
use apex_texts::Fault;
use dekarino_command_line::Form;
use std::alloc::{AllocError, Global};

/// The configuration in a file. If it is refused, the error has the places of its fault.
#[tactic(auto, unfolding(apex_config::specs::Meaning::config_of))]
pub fn read_config<'a, O: Opener>(
    alloc: Global,
    opener: &O,
    path: &'a str,
    form: Form,
) -> Result<Config, Unfinished<'a>>
    ensures { IfOk result (λ config.
        IfSome (O.bytes_at opener.now path.now) (λ bytes. config_of bytes ≡ Ok config)) }
{
    let bytes = read_file(alloc, opener, path)?;
    match apex_refusals::read_config(alloc, Some(path), bytes.as_slice())? {
        Ok(config) => Ok(config),
        Err(refused) => Err(unfinished(alloc, refused, form)),
    }
}

/// The error of a refused configuration; running out of memory goes before all else.
fn unfinished<'a>(alloc: Global, refused: Refused, form: Form) -> Unfinished<'a> {
    let Refused { refusal, lines } = refused;
    let fault = refusal.fault;
    let text = match form {
        Form::Text => Ok(lines),
        Form::Json => place_lines(alloc, fault.number(), lines.as_str()),
    };
    let refusal = Refusal::Text(Fault::from(fault));
    match text {
        Ok(text) => Unfinished::RefusedWithText {
            text: text.into_bytes(),
            refusal,
        },
        Err(error) => Unfinished::from(error),
    }
}

/// An object for each place.
fn place_lines(alloc: Global, fault: Option<u32>, lines: &str) -> Result<String, AllocError> {
    let mut text = String::new(alloc);
    for place in lines.lines() {
        push_place(alloc, &mut text, fault, place)?;
    }
    Ok(text)
}
