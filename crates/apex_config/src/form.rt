//! The pass over the form of a document.
ghost use Rattle.std.specs.Prelude.{◌≡◌, map, OnOk};
ghost use Rattle.apex_config.specs.Prelude.{as_table, view, table_view};
ghost use Rattle.apex_config.specs.Places.{Adds};
ghost use Rattle.apex_config.specs.Values.{value_at};
ghost use Rattle.apex_config.specs.Form.{is_array_if_any, wants_text, wants_number, wants_array, wants_array_if_any, wants_kind, wants_direction, is_known, unknown_keys, wrong_channel, channel_keys, port_keys, wrong_port, wrong_partition_keys, wrong_partition, wrong_document_keys, wrong_form};

use crate::document::{is_queuing, is_sampling, is_source};
use crate::found::{Added, Finder, Places, add_each, add_unless};
use crate::key::Key;
use crate::place::Part;
use crate::value::{array_at, has_word, items_at, number_at, text_at, value_at};
use toml::{Table, Value};

fn want_text(places: &mut Places, part: Part, key: Key, value: &Value) -> Added
    ensures { OnOk result
        (Adds (wants_text part key (view value.now)) places.old.items places.new.items) }
{
    add_unless(places, text_at(value, key).is_some(), part.at(key))
}

fn want_number(places: &mut Places, part: Part, key: Key, value: &Value) -> Added
    ensures { OnOk result
        (Adds (wants_number part key (view value.now)) places.old.items places.new.items) }
{
    add_unless(places, number_at(value, key).is_some(), part.at(key))
}

fn want_array(places: &mut Places, part: Part, key: Key, value: &Value) -> Added
    ensures { OnOk result
        (Adds (wants_array part key (view value.now)) places.old.items places.new.items) }
{
    add_unless(places, array_at(value, key).is_some(), part.at(key))
}

fn is_array_if_any(value: &Value, key: Key) -> bool
    ensures { result ≡ is_array_if_any (value_at key (view value.now)) }
{
    match value_at(value, key) {
        Some(found) => found.as_array().is_some(),
        None => true,
    }
}

fn want_array_if_any(places: &mut Places, part: Part, key: Key, value: &Value) -> Added
    ensures { OnOk result
        (Adds (wants_array_if_any part key (view value.now)) places.old.items places.new.items) }
{
    add_unless(places, is_array_if_any(value, key), part.at(key))
}

fn want_kind(places: &mut Places, part: Part, value: &Value) -> Added
    ensures { OnOk result
        (Adds (wants_kind part (view value.now)) places.old.items places.new.items) }
{
    let passes = is_queuing(value) || is_sampling(value);
    add_unless(places, passes, part.at(Key::Kind))
}

fn want_direction(places: &mut Places, part: Part, value: &Value) -> Added
    ensures { OnOk result
        (Adds (wants_direction part (view value.now)) places.old.items places.new.items) }
{
    let passes = is_source(value) || has_word(value, Key::Direction, "destination");
    add_unless(places, passes, part.at(Key::Direction))
}

/// Whether a word is one of these keys.
pub fn is_known(keys: &[Key], word: &str) -> bool
    ensures { result ≡ is_known keys.now word.now }
{
    keys.iter().any(|known| known.word() == word)
}

/// Adds the keys of a table that are not among these.
fn add_unknown_keys(places: &mut Places, part: Part, keys: &[Key], table: &Table) -> Added
    ensures { OnOk result
        (Adds (unknown_keys part keys.now (table_view table.now))
        places.old.items places.new.items) }
{
    for (number, word) in table.keys().enumerate() {
        add_unless(places, is_known(keys, word.as_str()), part.unknown(number))?;
    }
    Ok(())
}

/// The keys that a channel takes.
pub fn channel_keys(value: &Value) -> &'static [Key]
    ensures { result.now ≡ channel_keys (view value.now) }
{
    if is_sampling(value) {
        &[Key::Name, Key::Kind, Key::Size]
    } else {
        &[Key::Name, Key::Kind, Key::Size, Key::Depth]
    }
}

/// The keys that a port takes.
pub fn port_keys(value: &Value) -> &'static [Key]
    ensures { result.now ≡ port_keys (view value.now) }
{
    if is_queuing(value) {
        &[Key::Name, Key::Kind, Key::Direction, Key::Channel]
    } else {
        &[
            Key::Name,
            Key::Kind,
            Key::Direction,
            Key::Channel,
            Key::Refresh,
        ]
    }
}

#[derive(Drop)]
struct ChannelForm;

impl Finder<Value> for ChannelForm {
    ghost find = { λ _ c value. wrong_channel c (view value) };

    #[tactic(auto, unfolding(crate::specs::Form::wrong_channel))]
    fn add(&self, places: &mut Places, index: usize, entry: &Value) -> Added {
        let part = Part::Channel { channel: index };
        let Some(table) = entry.as_table() else {
            return add_unless(places, false, part.whole());
        };
        want_text(places, part, Key::Name, entry)?;
        want_number(places, part, Key::Size, entry)?;
        want_kind(places, part, entry)?;
        if is_queuing(entry) {
            want_number(places, part, Key::Depth, entry)?;
        }
        add_unknown_keys(places, part, channel_keys(entry), table)
    }
}

#[derive(Drop)]
struct PortForm {
    partition: usize,
}

impl Finder<Value> for PortForm {
    ghost find = { λ form i value. wrong_port form.partition i (view value) };

    #[tactic(auto, unfolding(crate::specs::Form::wrong_port))]
    fn add(&self, places: &mut Places, index: usize, entry: &Value) -> Added {
        let part = Part::Port {
            partition: self.partition,
            port: index,
        };
        let Some(table) = entry.as_table() else {
            return add_unless(places, false, part.whole());
        };
        want_text(places, part, Key::Name, entry)?;
        want_direction(places, part, entry)?;
        want_text(places, part, Key::Channel, entry)?;
        want_kind(places, part, entry)?;
        if is_sampling(entry) {
            want_number(places, part, Key::Refresh, entry)?;
        }
        add_unknown_keys(places, part, port_keys(entry), table)
    }
}

#[derive(Drop)]
struct PartitionForm;

impl Finder<Value> for PartitionForm {
    ghost find = { λ _ p value. wrong_partition p (view value) };

    #[tactic(auto, unfolding(crate::specs::Form::wrong_partition))]
    fn add(&self, places: &mut Places, index: usize, entry: &Value) -> Added {
        add_wrong_partition_keys(places, index, entry)?;
        add_each(
            places,
            items_at(entry, Key::Port),
            &PortForm { partition: index },
        )
    }
}

fn add_wrong_partition_keys(places: &mut Places, index: usize, entry: &Value) -> Added
    ensures { OnOk result
        (Adds (wrong_partition_keys index (view entry.now)) places.old.items places.new.items) }
{
    let part = Part::Partition { partition: index };
    let Some(table) = entry.as_table() else {
        return add_unless(places, false, part.whole());
    };
    want_text(places, part, Key::Name, entry)?;
    want_array_if_any(places, part, Key::Port, entry)?;
    add_unknown_keys(places, part, &[Key::Name, Key::Port], table)
}

fn add_wrong_document_keys(places: &mut Places, document: &Value) -> Added
    ensures { OnOk result
        (Adds (wrong_document_keys (view document.now)) places.old.items places.new.items) }
{
    let part = Part::Document;
    let Some(table) = document.as_table() else {
        return add_unless(places, false, part.whole());
    };
    want_array(places, part, Key::Partition, document)?;
    want_array_if_any(places, part, Key::Channel, document)?;
    add_unknown_keys(places, part, &[Key::Partition, Key::Channel], table)
}

/// Adds the places where the form of a document is wrong.
#[tactic(auto, unfolding(crate::specs::Form::wrong_form))]
pub fn add_wrong_form(places: &mut Places, document: &Value) -> Added
    ensures { OnOk result
        (Adds (wrong_form (view document.now)) places.old.items places.new.items) }
{
    add_wrong_document_keys(places, document)?;
    add_each(places, items_at(document, Key::Partition), &PartitionForm)?;
    add_each(places, items_at(document, Key::Channel), &ChannelForm)
}
