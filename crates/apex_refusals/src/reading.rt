//! Reads a configuration and says why it is refused, from one parse of its text.
ghost use Rattle.std.specs.Prelude.{◌≡◌, Ok, Err, IfOk, IfErr};
ghost use Rattle.apex_config.specs.Meaning.{not_toml, read_of};

use crate::lines::{Form, lines_of};
use crate::not_toml::{not_toml, not_toml_in_file};
use apex_config::reading::{document_of, read_document};
use apex_config::{Part, Refusal};
use apex_module::{Config, ConfigFault};
use std::alloc::{AllocError, Global};

/// Why a text is refused: its fault with its places, and the lines that explain to people where and why.
#[derive(Drop)]
pub struct Refused {
    pub refusal: Refusal,
    pub lines: String,
}

/// Reads a configuration. If it is refused, there is a line for each place of the fault, at most `MISTAKE_LIMIT`, and
/// one with the number of further ones. A line names what holds the place, what is there, and what must be there. For
/// the text of a file each line begins with the file, the line if it is known, and the path, and ends with what was
/// most likely meant. The only error is a failed allocation.
#[tactic(auto, unfolding(apex_config::specs::Meaning::read_of))]
pub fn read_config(
    alloc: Global,
    file: Option<&str>,
    text: &[u8],
) -> Result<Result<Config, Refused>, AllocError>
    ensures read { IfOk result (λ answer.
        IfOk answer (λ config. read_of text.now ≡ Ok config)) }
    ensures refused { IfOk result (λ answer.
        IfErr answer (λ refused. read_of text.now ≡ Err refused.refusal)) }
{
    let document = match document_of(alloc, text)? {
        Ok(document) => document,
        Err(error) => {
            let lines = match file {
                Some(name) => not_toml_in_file(alloc, name, text, &error)?,
                None => not_toml(alloc, text, &error)?,
            };
            let refusal = no_document(alloc)?;
            return Ok(Err(Refused { refusal, lines }));
        }
    };
    match read_document(alloc, &document)? {
        Ok(config) => Ok(Ok(config)),
        Err(refusal) => {
            let form = match file {
                Some(name) => Form::File { name, text },
                None => Form::Names,
            };
            let lines = lines_of(alloc, &document, &refusal, form)?;
            Ok(Err(Refused { refusal, lines }))
        }
    }
}

/// The refusal of a text that is not TOML.
fn no_document(alloc: Global) -> Result<Refusal, AllocError>
    ensures { IfOk result (λ refusal. refusal ≡ not_toml) }
{
    let mut places = Vec::new(alloc);
    places.push(Part::Document.whole())?;
    Ok(Refusal {
        fault: ConfigFault::NotToml,
        places,
    })
}
