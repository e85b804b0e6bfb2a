//! The operating mode of a partition, OPERATING_MODE_TYPE.
ghost use Rattle.std.specs.Prelude.{◌≡◌};
ghost use Rattle.apex_types.specs.Mode.{number_of, word_of, mode_numbered};

/// The operating mode of a partition, OPERATING_MODE_TYPE.
#[derive(Clone, Copy, Debug, PartialEq, Eq)]
pub enum Mode {
    /// IDLE.
    Idle,
    /// COLD_START.
    ColdStart,
    /// WARM_START.
    WarmStart,
    /// NORMAL.
    Normal,
}

impl Mode {
    /// The mode that has this number, or `None` if no mode has it.
    pub fn from_number(number: u32) -> Option<Mode>
        ensures { result ≡ mode_numbered number }
    {
        match number {
            0 => Some(Mode::Idle),
            1 => Some(Mode::ColdStart),
            2 => Some(Mode::WarmStart),
            3 => Some(Mode::Normal),
            _ => None,
        }
    }

    /// The number of the standard's enumeration.
    pub fn number(self) -> u32
        ensures { result ≡ number_of self }
    {
        match self {
            Mode::Idle => 0,
            Mode::ColdStart => 1,
            Mode::WarmStart => 2,
            Mode::Normal => 3,
        }
    }

    /// The standard's word, in upper case.
    pub fn word(self) -> &'static str
        ensures { result.now ≡ word_of self }
    {
        match self {
            Mode::Idle => "IDLE",
            Mode::ColdStart => "COLD_START",
            Mode::WarmStart => "WARM_START",
            Mode::Normal => "NORMAL",
        }
    }
}
