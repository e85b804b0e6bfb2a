//! The reply table: the row that a call gets, by what its partition sees. In IDLE no call is made.
ghost use Rattle.std.specs.Prelude.{◌≡◌, ◌<◌, length};
ghost use Rattle.apex_ports.specs.Decisions.{IsRowOfDecision};
ghost use Rattle.apex_ports.specs.Noted.{call_by};
ghost use Rattle.apex_ports.specs.ReplyTable.{row_of, service_row};

use crate::modes::is_idle;
use crate::noted::CallRef;
use crate::rows::{Refusal, Row};
use crate::table::creation::{created_queuing_id, created_sampling_id, queuing_id, sampling_id};
use crate::table::lookup::{queuing_port, sampling_port};
use crate::table::modes::set_mode_row;
use crate::table::queuing::{clear_row, received_message, send_row};
use crate::table::sampling::{read_sample, write_row};
use crate::view::View;
use apex_module::Config;
use apex_types::Moment;

pub(crate) mod creation;
pub mod lookup;
pub(crate) mod modes;
pub(crate) mod queuing;
pub mod replies;
pub(crate) mod sampling;

/// The row that a call of the partition gets.
pub fn row<V: View>(
    view: &V,
    config: &Config,
    partition: usize,
    at: Moment,
    call: CallRef<'_>,
) -> Row
    requires partition { partition < length config.now.partitions }
    requires kept { V.is_kept config.now view.now }
    ensures { let here = V.seen config.now view.now partition in
        result ≡ row_of config.now here partition at (call_by call.entry) }
{
    if is_idle(view.mode(config, partition)) {
        return Row::Idle;
    }
    match accepted_row(view, config, partition, at, call) {
        Ok(row) => row,
        Err(refusal) => Row::Refused(refusal),
    }
}

// The row of a call that its service accepts, or why it is refused.
fn accepted_row<V: View>(
    view: &V,
    config: &Config,
    partition: usize,
    at: Moment,
    call: CallRef<'_>,
) -> Result<Row, Refusal>
    requires partition { partition < length config.now.partitions }
    requires kept { V.is_kept config.now view.now }
    ensures { let here = V.seen config.now view.now partition in
        IsRowOfDecision (service_row config.now here partition at (call_by call.entry)) result }
{
    match call {
        CallRef::CreateSampling { .. } => {
            let id = created_sampling_id(view, config, partition, call)?;
            Ok(Row::Created { id })
        }
        CallRef::CreateQueuing { .. } => {
            let id = created_queuing_id(view, config, partition, call)?;
            Ok(Row::Created { id })
        }
        CallRef::SamplingId { name } => {
            let id = sampling_id(view, config, partition, name)?;
            Ok(Row::Identified { id })
        }
        CallRef::QueuingId { name } => {
            let id = queuing_id(view, config, partition, name)?;
            Ok(Row::Identified { id })
        }
        CallRef::SamplingStatus { id } => match sampling_port(view, config, partition, id) {
            Some(_) => Ok(Row::SamplingStatus { id }),
            None => Err(Refusal::NoSuchPort),
        },
        CallRef::QueuingStatus { id } => match queuing_port(view, config, partition, id) {
            Some(_) => Ok(Row::QueuingStatus { id }),
            None => Err(Refusal::NoSuchPort),
        },
        CallRef::WriteSampling { id, message } => {
            write_row(view, config, partition, id, message)?;
            Ok(Row::Written)
        }
        CallRef::SendQueuing { id, message } => {
            send_row(view, config, partition, id, message)?;
            Ok(Row::Sent)
        }
        CallRef::ReadSampling { id } => {
            let (_, validity) = read_sample(view, config, partition, at, id)?;
            Ok(Row::LastRead { id, validity })
        }
        CallRef::ReceiveQueuing { id } => {
            received_message(view, config, partition, id)?;
            Ok(Row::OldestReceived { id })
        }
        CallRef::ClearQueuing { id } => {
            clear_row(view, config, partition, id)?;
            Ok(Row::Cleared)
        }
        CallRef::SetMode { mode } => {
            set_mode_row(view.mode(config, partition), mode)?;
            Ok(Row::ModeSet)
        }
    }
}
