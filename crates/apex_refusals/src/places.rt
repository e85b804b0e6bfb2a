//! What is at a place of a document.
ghost use Rattle.std.specs.Prelude.{◌≡◌, slice_get, option_map};
ghost use Rattle.std.specs.Option.{option_copied};
ghost use Rattle.toml.specs.View.{view, table_view};
ghost use Rattle.apex_config.specs.Values.{items_at, keys_of_table};
ghost use Rattle.apex_refusals.specs.PlaceLines.{key_there};
ghost use Rattle.apex_refusals.specs.Places.{value_of, key_numbered, key_at, document_has};

use apex_config::key::Key;
use apex_config::place::{Part, Place, Spot};
use apex_config::value::items_at;
use toml::{Table, Value};

/// An item of an array.
fn nth_item(items: &[Value], index: usize) -> Option<&Value>
    ensures { option_copied result ≡ slice_get items.now index }
{
    items.get(index)
}

/// An item of the array at a key.
#[tactic(auto, using(crate::proofs::Documents::item_seen))]
fn item_at(value: &Value, key: Key, index: usize) -> Option<&Value>
    ensures { option_map (λ found. view found.now) result
        ≡ slice_get (items_at key (view value.now)) index }
{
    nth_item(items_at(value, key), index)
}

/// The value of a part of a document.
pub fn value_of(document: &Value, part: Part) -> Option<&Value>
    ensures { option_map (λ found. view found.now) result ≡ value_of (view document.now) part }
{
    match part {
        Part::Document => Some(document),
        Part::Partition { partition } => item_at(document, Key::Partition, partition),
        Part::Port { partition, port } => {
            let partition = item_at(document, Key::Partition, partition)?;
            item_at(partition, Key::Port, port)
        }
        Part::Channel { channel } => item_at(document, Key::Channel, channel),
    }
}

/// The key of a table with a number, in the order of the keys.
fn nth_key(table: &Table, number: usize) -> Option<&str>
    ensures { option_copied result ≡ slice_get (keys_of_table (table_view table.now)) number }
{
    match table.keys().nth(number) {
        Some(key) => Some(key.as_str()),
        None => None,
    }
}

/// The key with a number in a table.
pub fn key_numbered(value: &Value, number: usize) -> Option<&str>
    ensures { option_copied result ≡ key_numbered number (view value.now) }
{
    nth_key(value.as_table()?, number)
}

/// The word of the key that is at a place, or must be there.
pub fn key_at<'a>(document: &'a Value, place: Place) -> Option<&'a str>
    ensures { option_copied result ≡ key_at (view document.now) place }
{
    match place.spot {
        Spot::Whole => None,
        Spot::At { key } => Some(key.word()),
        Spot::Unknown { number } => key_numbered(value_of(document, place.part)?, number),
    }
}

/// Whether a document has something at a key of a part, or has the part itself if there is no key.
pub fn document_has(document: &Value, part: Part, key: Option<&str>) -> bool
    ensures { result ≡ document_has (view document.now) part (option_copied key.entry) }
{
    match (value_of(document, part), key) {
        (None, _) => false,
        (Some(_), None) => true,
        (Some(value), Some(key)) => value.get(key).is_some(),
    }
}

/// The key of a place, if it is there. A missing key gets the line of the part that lacks it.
pub fn key_there<'a>(document: &'a Value, place: Place) -> Option<&'a str>
    ensures { option_copied result ≡ key_there (view document.now) place }
{
    let key = key_at(document, place);
    if document_has(document, place.part, key) {
        key
    } else {
        None
    }
}
