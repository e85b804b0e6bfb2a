//! The names of partitions, ports and channels.
ghost use Rattle.std.specs.Prelude.{◌≡◌, ◌≤◌, length, Ok};
ghost use Rattle.std.specs.List.{list_all};
ghost use Rattle.apex_types.specs.Name.{name_of, is_name_byte};

use arrayvec::ArrayVec;
use std::marker::Model;
use std::str;
use thiserror::Error;

/// The maximum length of a name, in bytes.
pub const NAME_LIMIT: usize = 30;

/// A name: 1 to `NAME_LIMIT` ASCII letters, digits and `_`. Case counts. A contract sees it as the list of its bytes.
#[derive(Debug, Drop, PartialEq, Eq)]
pub struct Name {
    bytes: ArrayVec<u8, NAME_LIMIT>,
}

impl Model for Name {
    ghost use Rattle.std.specs.Prelude.{ℕ, List};
    ghost use Rattle.apex_types.specs.Name.{IsName};

    ghost Value = { List ℕ };

    ghost view = { λ name. name.bytes.items };

    ghost invariant = { λ name. IsName name.bytes.items };

    ghost inverse = { λ bytes. record { bytes = record { items = bytes } } };
}

/// Why a text is not a name.
#[derive(Clone, Copy, Debug, PartialEq, Eq, Error)]
pub enum NameFault {
    /// The text is empty.
    #[error("empty")]
    Empty,
    /// The text has more than `NAME_LIMIT` bytes.
    #[error("too long")]
    TooLong,
    /// A byte is not an ASCII letter, digit or `_`.
    #[error("bad character")]
    BadCharacter,
}

impl Name {
    /// Reads a name. If there are several faults, it returns the first in the order of `NameFault`.
    pub fn read(text: &str) -> Result<Name, NameFault>
        ensures { result ≡ name_of text.now }
    {
        Name::from_bytes(text.as_bytes())
    }

    /// Reads a name from bytes, which need not be UTF-8. If there are several faults, it returns the first in the order
    /// of `NameFault`.
    pub fn from_bytes(text: &[u8]) -> Result<Name, NameFault>
        ensures { result ≡ name_of text.now }
    {
        if text.is_empty() {
            return Err(NameFault::Empty);
        }
        if text.len() > NAME_LIMIT {
            return Err(NameFault::TooLong);
        }
        if !has_name_bytes(text) {
            return Err(NameFault::BadCharacter);
        }
        let mut bytes = ArrayVec::new();
        match bytes.try_extend_from_slice(text) {
            Ok(()) => Ok(Name { bytes }),
            Err(_) => Err(NameFault::TooLong),
        }
    }

    /// The text of the name.
    pub fn text(&self) -> &str
        ensures { result.now ≡ self.now }
    {
        // SAFETY: the bytes of a name are ASCII.
        unsafe { str::from_utf8_unchecked(self.bytes.as_slice()) }
    }

    /// The bytes of the name.
    pub fn bytes(&self) -> &[u8]
        ensures bytes { result.now ≡ self.now }
        ensures short { length result.now ≤ NAME_LIMIT }
    {
        self.bytes.as_slice()
    }

    /// A copy of the name.
    pub fn copy(&self) -> Name
        ensures { result ≡ self.now }
    {
        let mut bytes = ArrayVec::new();
        bytes.try_extend_from_slice(self.bytes.as_slice()).unwrap();
        Name { bytes }
    }
}

fn has_name_bytes(text: &[u8]) -> bool
    ensures { result ≡ list_all is_name_byte text.now }
{
    text.iter()
        .all(|byte| byte.is_ascii_alphanumeric() || *byte == b'_')
}
