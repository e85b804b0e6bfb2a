//! The validity of a sampling message, VALIDITY_TYPE.
ghost use Rattle.std.specs.Prelude.{◌≡◌};
ghost use Rattle.apex_types.specs.Validity.{number_of, word_of};

/// The validity of a sampling message, VALIDITY_TYPE.
#[derive(Clone, Copy, Debug, PartialEq, Eq)]
pub enum Validity {
    /// INVALID.
    Invalid,
    /// VALID.
    Valid,
}

impl Validity {
    /// The number of the standard's enumeration.
    pub fn number(self) -> u32
        ensures { result ≡ number_of self }
    {
        match self {
            Validity::Invalid => 0,
            Validity::Valid => 1,
        }
    }

    /// The standard's word, in upper case.
    pub fn word(self) -> &'static str
        ensures { result.now ≡ word_of self }
    {
        match self {
            Validity::Invalid => "INVALID",
            Validity::Valid => "VALID",
        }
    }
}
