//! The words of the rows of the reply table.
ghost use Rattle.std.specs.Prelude.{◌<◌, length};

use crate::values::Values;
use apex_module::Config;
use apex_ports::{CallRef, Refusal, Row};
use std::alloc::AllocError;
use std::fmt;

/// Writes the words of a row for a call of the partition: why the call isn't made or is refused. An accepted call has
/// no words. A value that the call or the configuration doesn't have is left out.
pub fn push_words(
    text: &mut String,
    config: &Config,
    partition: usize,
    call: CallRef<'_>,
    row: Row,
) -> Result<(), AllocError>
    requires { partition < length config.now.partitions }
{
    if has_words(row) {
        let values = Values::of(config, partition, call);
        write!(text, "{}", RowWords { row, values })?;
    }
    Ok(())
}

/// Writes the words of a row as they follow a reply: ` (WORDS)`. An accepted call has none.
pub fn push_note(
    text: &mut String,
    config: &Config,
    partition: usize,
    call: CallRef<'_>,
    row: Row,
) -> Result<(), AllocError>
    requires { partition < length config.now.partitions }
{
    if has_words(row) {
        let values = Values::of(config, partition, call);
        write!(text, " ({})", RowWords { row, values })?;
    }
    Ok(())
}

fn has_words(row: Row) -> bool {
    matches!(row, Row::Idle | Row::Refused(_))
}

/// The words of a row. An accepted call has none.
#[derive(Clone, Copy)]
pub(crate) struct RowWords<'a> {
    pub(crate) row: Row,
    pub(crate) values: Values<'a>,
}

impl fmt::Display for RowWords<'_> {
    fn fmt<W: fmt::Write>(&self, f: &mut fmt::Formatter<W>) -> fmt::Result {
        match self.row {
            Row::Idle => f.write_str("partition is in IDLE"),
            Row::Refused(refusal) => {
                write_refusal(f, refusal, &self.values)?;
                write_other_kind(f, refusal, &self.values)
            }
            _ => Ok(()),
        }
    }
}

/// For a port that the service can't use: that the port with this name or number is of the other kind.
fn write_other_kind<W: fmt::Write>(
    f: &mut fmt::Formatter<W>,
    refusal: Refusal,
    values: &Values<'_>,
) -> fmt::Result {
    let port = values.port;
    if port.kind.is_empty() || port.kind == values.kind {
        return Ok(());
    }
    match refusal {
        Refusal::NotConfigured | Refusal::NotCreated => {
            write!(f, "; {} is a {} port", port.name, port.kind)
        }
        Refusal::NoSuchPort => {
            write!(
                f,
                "; {} is the {} port {}",
                values.call.id, port.kind, port.name
            )
        }
        _ => Ok(()),
    }
}

fn write_refusal<W: fmt::Write>(
    f: &mut fmt::Formatter<W>,
    refusal: Refusal,
    values: &Values<'_>,
) -> fmt::Result {
    let (partition, kind) = (values.partition, values.kind);
    let (call, port) = (values.call, values.port);
    let (name, discipline) = (call.name, call.discipline);
    match refusal {
        Refusal::NotConfigured => write!(f, "{partition} has no {kind} port {name} configured"),
        Refusal::AlreadyCreated => write!(f, "{name} is created already"),
        Refusal::SizeDiffers => write!(f, "size {}, configured {}", call.size, port.size),
        Refusal::DepthDiffers => write!(f, "depth {}, configured {}", call.depth, port.depth),
        Refusal::DirectionDiffers => {
            write!(
                f,
                "direction {}, configured {}",
                call.direction, port.direction
            )
        }
        Refusal::RefreshDiffers => {
            write!(
                f,
                "refresh period {}, configured {}",
                call.refresh, port.refresh
            )
        }
        Refusal::UnknownDiscipline => write!(f, "discipline {discipline} is neither 0 nor 1"),
        Refusal::InNormal => f.write_str("partition is in NORMAL"),
        Refusal::NotCreated => write!(f, "no {kind} port {name} is created"),
        Refusal::NoSuchPort => write!(f, "no {kind} port of identifier {} is created", call.id),
        Refusal::EmptyMessage => f.write_str("message of 0 bytes"),
        Refusal::MessageTooLong => write!(
            f,
            "message of {} bytes, channel {} takes {}",
            call.length, port.channel, port.size
        ),
        Refusal::NotSource => write!(f, "port {} is a destination", port.name),
        Refusal::NotDestination => write!(f, "port {} is a source", port.name),
        Refusal::QueueFull => write!(f, "{} on {}, its depth", port.waiting, port.channel),
        Refusal::QueueEmpty => write!(f, "no message waits on {}", port.channel),
        Refusal::NeverWritten => write!(f, "channel {} was never written", port.channel),
        Refusal::UnknownMode => write!(f, "mode {} is none of 0 to 3", call.mode),
        Refusal::AlreadyNormal => f.write_str("partition is in NORMAL already"),
        Refusal::WarmStartInColdStart => f.write_str("no WARM_START while in COLD_START"),
    }
}
