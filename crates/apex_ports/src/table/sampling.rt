//! What WRITE_SAMPLING_MESSAGE and READ_SAMPLING_MESSAGE decide.
ghost use Rattle.std.specs.Prelude.{◌≡◌, ◌<◌, ◌≤◌, length, Some, IfOk, MatchResult};
ghost use Rattle.apex_ports.specs.declared.rows.Row.TheVariants as row;
ghost use Rattle.apex_ports.specs.Decisions.{Decides};
ghost use Rattle.apex_ports.specs.Noted.{sample_by};
ghost use Rattle.apex_ports.specs.ReplyTable.{write_row, read_row};
ghost use Rattle.apex_ports.specs.Seen.{sampling_port};

use crate::noted::SampleRef;
use crate::rows::Refusal;
use crate::table::lookup::sampling_port;
use crate::view::View;
use apex_module::Config;
use apex_types::{Direction, MESSAGE_LIMIT, Moment, Validity};

/// Whether WRITE_SAMPLING_MESSAGE is accepted, or why it is refused.
pub(crate) fn write_row<V: View>(
    view: &V,
    config: &Config,
    partition: usize,
    id: u32,
    message: &[u8],
) -> Result<(), Refusal>
    requires partition { partition < length config.now.partitions }
    requires kept { V.is_kept config.now view.now }
    ensures { let here = V.seen config.now view.now partition in
        let port = sampling_port config.now here partition id in
        Decides (write_row config.now port message.now) row.Written result }
{
    let Some(port) = sampling_port(view, config, partition, id) else {
        return Err(Refusal::NoSuchPort);
    };
    let size = config.channel(port.channel).size as usize;
    let length = message.len();
    if length == 0 {
        return Err(Refusal::EmptyMessage);
    }
    if length > size {
        return Err(Refusal::MessageTooLong);
    }
    match port.direction {
        Direction::Destination => Err(Refusal::NotSource),
        Direction::Source => Ok(()),
    }
}

/// The sample that READ_SAMPLING_MESSAGE gives, with its validity, or why it is refused.
pub(crate) fn read_sample<'a, V: View>(
    view: &'a V,
    config: &Config,
    partition: usize,
    now: Moment,
    id: u32,
) -> Result<(SampleRef<'a>, Validity), Refusal>
    requires partition { partition < length config.now.partitions }
    requires kept { V.is_kept config.now view.now }
    ensures row { let here = V.seen config.now view.now partition in
        let given = read_row here now id (sampling_port config.now here partition id) in
        MatchResult result (λ read. given ≡ row.LastRead id read.1)
        (λ refusal. given ≡ row.Refused refusal) }
    ensures sample { let here = V.seen config.now view.now partition in
        IfOk result (λ read. here.sample id ≡ Some (sample_by read.0)) }
    ensures short { IfOk result (λ read. length read.0.message.now ≤ MESSAGE_LIMIT) }
{
    let Some(port) = sampling_port(view, config, partition, id) else {
        return Err(Refusal::NoSuchPort);
    };
    if let Direction::Source = port.direction {
        return Err(Refusal::NotDestination);
    }
    let Some(sample) = view.sample(config, partition, id, port) else {
        return Err(Refusal::NeverWritten);
    };
    let validity = sample.validity(now, port.kind.refresh());
    Ok((sample, validity))
}
