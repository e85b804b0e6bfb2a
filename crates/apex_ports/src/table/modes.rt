//! What SET_PARTITION_MODE decides.
ghost use Rattle.apex_ports.specs.declared.rows.Row.TheVariants as row;
ghost use Rattle.apex_types.specs.Mode.{mode_numbered};
ghost use Rattle.apex_ports.specs.Decisions.{Decides};
ghost use Rattle.apex_ports.specs.ReplyTable.{set_mode_row};

use crate::rows::Refusal;
use apex_types::Mode;

/// Whether a change from the present mode to the mode with a number is accepted, or why it is refused.
pub(crate) fn set_mode_row(present: Mode, number: u32) -> Result<(), Refusal>
    ensures { Decides (set_mode_row present (mode_numbered number)) row.ModeSet result }
{
    let Some(mode) = Mode::from_number(number) else {
        return Err(Refusal::UnknownMode);
    };
    match (present, mode) {
        (Mode::Normal, Mode::Normal) => Err(Refusal::AlreadyNormal),
        (Mode::ColdStart, Mode::WarmStart) => Err(Refusal::WarmStartInColdStart),
        _ => Ok(()),
    }
}
