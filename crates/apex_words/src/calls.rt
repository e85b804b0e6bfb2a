//! Calls as words of a trace's line, and with their replies as words of a log's line.
ghost use Rattle.std.specs.Prelude.{◌<◌, length};

use apex_module::Config;
use apex_ports::{CallRef, ReplyRef};
use apex_texts::{Service, push_reply};
use apex_types::{Call, HEX_LIMIT, Moment, Reply};
use std::alloc::AllocError;
use std::fmt;

/// Writes `MOMENT PARTITION CALL ARGUMENTS`, the line of a trace that asks for the call, without its line feed.
pub fn push_request(
    text: &mut String,
    config: &Config,
    partition: usize,
    at: Moment,
    call: &Call,
) -> Result<(), AllocError>
    requires { partition < length config.now.partitions }
{
    let Moment(nanoseconds) = at;
    let partition = config.partition_name(partition).text();
    write!(text, "{nanoseconds} {partition} {}", CallWords(call))
}

/// Writes `MOMENT PARTITION CALL ARGUMENTS -> REPLY` and a line feed, a line of a log.
pub fn push_logged(
    text: &mut String,
    config: &Config,
    partition: usize,
    at: Moment,
    call: &Call,
    reply: &Reply,
) -> Result<(), AllocError>
    requires { partition < length config.now.partitions }
{
    push_request(text, config, partition, at, call)?;
    text.push_str(" -> ")?;
    push_reply(text, ReplyRef::of(reply))?;
    text.push_str("\n")
}

/// Writes `CALL ARGUMENTS`, the words of a trace's line after the partition.
pub fn push_call(text: &mut String, call: &Call) -> Result<(), AllocError> {
    write!(text, "{}", CallWords(call))
}

/// A call as its call word and its arguments.
#[derive(Clone, Copy)]
struct CallWords<'a>(&'a Call);

impl fmt::Display for CallWords<'_> {
    fn fmt<W: fmt::Write>(&self, f: &mut fmt::Formatter<W>) -> fmt::Result {
        f.write_str(Service::of(CallRef::of(self.0)).word())?;
        match self.0 {
            Call::CreateSampling {
                name,
                size,
                direction,
                refresh,
            } => write!(f, " {} {size} {direction} {refresh}", name.text()),
            Call::CreateQueuing {
                name,
                size,
                depth,
                direction,
                discipline,
            } => write!(
                f,
                " {} {size} {depth} {direction} {discipline}",
                name.text()
            ),
            Call::WriteSampling { id, message } | Call::SendQueuing { id, message } => {
                let mut digits = [0; HEX_LIMIT];
                write!(f, " {id} {}", message.hex_in(&mut digits))
            }
            Call::SamplingId { name } | Call::QueuingId { name } => write!(f, " {}", name.text()),
            Call::ReadSampling { id }
            | Call::SamplingStatus { id }
            | Call::ReceiveQueuing { id }
            | Call::QueuingStatus { id }
            | Call::ClearQueuing { id } => write!(f, " {id}"),
            Call::SetMode { mode } => write!(f, " {mode}"),
        }
    }
}
