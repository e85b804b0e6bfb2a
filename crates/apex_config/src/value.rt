//! The values at the keys of a TOML value.
ghost use Rattle.std.specs.Prelude.{◌≡◌, map, option_map};
ghost use Rattle.apex_config.specs.Prelude.{bytes_eq, as_array, view, items_view};
ghost use Rattle.std.specs.Option.{option_copied};
ghost use Rattle.apex_config.specs.Values.{key_word, value_at, text_at, number_at, array_at, list_of, items_at};
ghost use Rattle.apex_config.specs.Text.{text_in, number_in, has_word};

use crate::key::Key;
use toml::Value;

/// The value at a key of a table.
pub fn value_at(value: &Value, key: Key) -> Option<&Value>
    ensures { option_map (λ found. view found.now) result ≡ value_at key (view value.now) }
{
    value.get(key.word())
}

/// The text at a key.
pub fn text_at(value: &Value, key: Key) -> Option<&str>
    ensures { option_copied result ≡ text_at key (view value.now) }
{
    match value_at(value, key) {
        Some(found) => found.as_str(),
        None => None,
    }
}

/// The whole number at a key.
pub fn number_at(value: &Value, key: Key) -> Option<i64>
    ensures { result ≡ number_at key (view value.now) }
{
    match value_at(value, key) {
        Some(found) => found.as_integer(),
        None => None,
    }
}

/// The items of an array.
pub fn items_of(value: &Value) -> Option<&[Value]>
    ensures { option_map (λ items. items_view items.now) result ≡ as_array (view value.now) }
{
    match value.as_array() {
        Some(items) => Some(items.as_slice()),
        None => None,
    }
}

/// The items of the array at a key.
pub fn array_at(value: &Value, key: Key) -> Option<&[Value]>
    ensures { option_map (λ items. items_view items.now) result ≡ array_at key (view value.now) }
{
    match value_at(value, key) {
        Some(found) => items_of(found),
        None => None,
    }
}

/// The items of the array at a key; none if there is no array.
pub fn items_at(value: &Value, key: Key) -> &[Value]
    ensures { list_of (items_view result.now) ≡ items_at key (view value.now) }
{
    match array_at(value, key) {
        Some(items) => items,
        None => &[],
    }
}

/// The text at a key; an empty one if there is none.
pub fn text_in(value: &Value, key: Key) -> &str
    ensures { result.now ≡ text_in key (view value.now) }
{
    match text_at(value, key) {
        Some(text) => text,
        None => "",
    }
}

/// The whole number at a key; 0 if there is none.
pub fn number_in(value: &Value, key: Key) -> i64
    ensures { result ≡ number_in key (view value.now) }
{
    match number_at(value, key) {
        Some(number) => number,
        None => 0,
    }
}

/// Whether the text at a key is this word.
pub fn has_word(value: &Value, key: Key, word: &str) -> bool
    ensures { result ≡ has_word key word.now (view value.now) }
{
    text_in(value, key) == word
}
