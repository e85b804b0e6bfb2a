//! The return code of a service, RETURN_CODE_TYPE.
ghost use Rattle.std.specs.Prelude.{◌≡◌};
ghost use Rattle.apex_types.specs.ReturnCode.{number_of, word_of};

/// The return code of a service, RETURN_CODE_TYPE.
#[derive(Clone, Copy, Debug, PartialEq, Eq)]
pub enum ReturnCode {
    /// NO_ERROR.
    NoError,
    /// NO_ACTION.
    NoAction,
    /// NOT_AVAILABLE.
    NotAvailable,
    /// INVALID_PARAM.
    InvalidParam,
    /// INVALID_CONFIG.
    InvalidConfig,
    /// INVALID_MODE.
    InvalidMode,
    /// TIMED_OUT.
    TimedOut,
}

impl ReturnCode {
    /// The number of the standard's enumeration.
    pub fn number(self) -> u32
        ensures { result ≡ number_of self }
    {
        match self {
            ReturnCode::NoError => 0,
            ReturnCode::NoAction => 1,
            ReturnCode::NotAvailable => 2,
            ReturnCode::InvalidParam => 3,
            ReturnCode::InvalidConfig => 4,
            ReturnCode::InvalidMode => 5,
            ReturnCode::TimedOut => 6,
        }
    }

    /// The standard's word, in upper case.
    pub fn word(self) -> &'static str
        ensures { result.now ≡ word_of self }
    {
        match self {
            ReturnCode::NoError => "NO_ERROR",
            ReturnCode::NoAction => "NO_ACTION",
            ReturnCode::NotAvailable => "NOT_AVAILABLE",
            ReturnCode::InvalidParam => "INVALID_PARAM",
            ReturnCode::InvalidConfig => "INVALID_CONFIG",
            ReturnCode::InvalidMode => "INVALID_MODE",
            ReturnCode::TimedOut => "TIMED_OUT",
        }
    }
}
