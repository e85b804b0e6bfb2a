//! Reads a configuration from bytes, pass after pass.
ghost use Rattle.std.specs.Prelude.{◌≡◌, ◌≢◌, [], Some, None, IfOk, IfErr};
ghost use Rattle.apex_config.specs.Prelude.{view};
ghost use Rattle.apex_config.specs.Meaning.{IsConfigRead, IsPlacedRead, config_of, read_of_value, not_toml, document_of, read_of};
ghost use Rattle.apex_module.specs.declared.fault.ConfigFault.TheVariants as fault;

use crate::accepted::accepted_config;
use crate::channel_index::ChannelIndex;
use crate::document::config_text;
use crate::form::add_wrong_form;
use crate::passes::{PASSES, first_refusal};
use crate::place::Part;
use crate::refusal::Refusal;
use apex_module::{Config, ConfigFault};
use std::alloc::{AllocError, Global};
use toml::Value;
use toml::de::Error;

/// The refusal of bytes that are not TOML.
fn not_toml(alloc: Global) -> Result<Refusal, AllocError>
    ensures { IfOk result (λ refusal. refusal ≡ not_toml) }
{
    let mut places = Vec::new(alloc);
    places.push(Part::Document.whole())?;
    Ok(Refusal {
        fault: ConfigFault::NotToml,
        places,
    })
}

/// The configuration that a document gives, or its refusal. The only error is a failed allocation.
#[tactic(auto, unfolding(crate::specs::Meaning::refusal_of))]
pub fn read_document(alloc: Global, document: &Value) -> Result<Result<Config, Refusal>, AllocError>
    ensures { IfOk result (λ answer. answer ≡ read_of_value (view document.now)) }
{
    let mut places = Vec::new(alloc);
    add_wrong_form(&mut places, document)?;
    if !places.is_empty() {
        return Ok(Err(Refusal {
            fault: ConfigFault::Shape,
            places,
        }));
    }
    let config = config_text(alloc, document)?;
    let channels = ChannelIndex::new(alloc, config.channels.as_slice())?;
    match first_refusal(alloc, &PASSES, &config, &channels)? {
        Some(refusal) => Ok(Err(refusal)),
        None => {
            let accepted = accepted_config(alloc, &config, &channels)?;
            Ok(Ok(accepted))
        }
    }
}

/// The document that a text gives, or why it is not TOML. The only other error is a failed allocation.
pub fn document_of(alloc: Global, text: &[u8]) -> Result<Result<Value, Error>, AllocError>
    ensures document { IfOk result (λ read.
        IfOk read (λ document. document_of text.now ≡ Some (view document))) }
    ensures refused { IfOk result (λ read. IfErr read (λ _. document_of text.now ≡ None)) }
{
    match toml::table_from_slice(alloc, text) {
        Ok(table) => Ok(Ok(Value::Table(table))),
        Err(refused) if refused.is_memory() => Err(AllocError),
        Err(refused) => Ok(Err(refused)),
    }
}

/// The configuration that bytes give, or their refusal. The only error is a failed allocation.
#[tactic(auto, unfolding(crate::specs::Meaning::read_of))]
fn read_bytes(alloc: Global, bytes: &[u8]) -> Result<Result<Config, Refusal>, AllocError>
    ensures { IfOk result (λ answer. answer ≡ read_of bytes.now) }
{
    match document_of(alloc, bytes)? {
        Ok(document) => read_document(alloc, &document),
        Err(_) => Ok(Err(not_toml(alloc)?)),
    }
}

/// Reads a configuration from its TOML text.
pub trait ReadConfig: Sized {
    /// Reads a configuration. The passes run one after the other over the whole text, and the first that finds a fault
    /// names it. It returns `OutOfMemory` only if an allocation failed, in any pass.
    fn read(alloc: Global, bytes: &[u8]) -> Result<Self, ConfigFault>;

    /// Reads a configuration as `read` does; the refusal of a text has all places that the pass of its fault finds.
    fn read_placed(alloc: Global, bytes: &[u8]) -> Result<Self, Refusal>;
}

impl ReadConfig for Config {
    #[tactic(auto, unfolding(crate::specs::Meaning::config_of))]
    fn read(alloc: Global, bytes: &[u8]) -> Result<Config, ConfigFault>
        ensures { IsConfigRead result (config_of bytes.now) }
    {
        match Config::read_placed(alloc, bytes) {
            Ok(config) => Ok(config),
            Err(refusal) => Err(refusal.fault),
        }
    }

    fn read_placed(alloc: Global, bytes: &[u8]) -> Result<Config, Refusal>
        ensures read { IsPlacedRead result (read_of bytes.now) }
        ensures placed { IfErr result (λ refusal.
            refusal.fault ≢ fault.OutOfMemory → refusal.places ≢ []) }
    {
        match read_bytes(alloc, bytes) {
            Ok(answer) => answer,
            Err(_) => Err(Refusal {
                fault: ConfigFault::OutOfMemory,
                places: Vec::new(alloc),
            }),
        }
    }
}
