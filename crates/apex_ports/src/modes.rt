//! Tests of modes.
ghost use Rattle.std.specs.Prelude.{◌≡◌};
ghost use Rattle.apex_ports.specs.Modes.{is_idle as is_idle_mode, is_normal as is_normal_mode};

use apex_types::Mode;

/// Whether the mode is IDLE.
pub(crate) fn is_idle(mode: Mode) -> bool
    ensures { result ≡ is_idle_mode mode }
{
    matches!(mode, Mode::Idle)
}

/// Whether the mode is NORMAL.
pub(crate) fn is_normal(mode: Mode) -> bool
    ensures { result ≡ is_normal_mode mode }
{
    matches!(mode, Mode::Normal)
}
