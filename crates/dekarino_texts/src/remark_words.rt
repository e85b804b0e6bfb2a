//! The words of remarks. Those on a channel say which messages wait there, and at which port.
ghost use Rattle.std.specs.Prelude.{◌≡◌, ◌<◌, true, length, IfSome};
ghost use Rattle.dekarino_texts.specs.Prelude.{port_of, is_destination_of};

use crate::remark::Remark;
use crate::table::PortPlace;
use crate::table_words::PortName;
use apex_module::Config;
use apex_ports::Ports;
use apex_types::{Direction, Name};
use std::fmt;

/// How many of the messages that wait on a channel are printed.
pub const MESSAGES_SHOWN: usize = 3;

/// How many bytes of such a message are printed.
const BYTES_SHOWN: usize = 16;

/// The words of a remark on the calls that these ports have served.
#[derive(Clone, Copy)]
pub struct RemarkWords<'a> {
    pub remark: &'a Remark,
    pub ports: &'a Ports,
}

impl fmt::Display for RemarkWords<'_> {
    fn fmt<W: fmt::Write>(&self, f: &mut fmt::Formatter<W>) -> fmt::Result {
        write!(f, "{}", self.remark)?;
        let Remark::MessagesWaiting { channel, count } = self.remark else {
            return Ok(());
        };
        let Some(c) = channel_called(self.ports.config(), channel) else {
            return Ok(());
        };
        write_messages(f, self.ports, c, *count)?;
        write_destination(f, self.ports, c)
    }
}

/// Writes `: MESSAGE, MESSAGE and N more`.
fn write_messages<W: fmt::Write>(
    f: &mut fmt::Formatter<W>,
    ports: &Ports,
    c: usize,
    count: usize,
) -> fmt::Result
    requires { c < length ports.now.config.channels }
{
    let mut before = ": ";
    for i in 0..MESSAGES_SHOWN {
        let Some(message) = ports.waiting(c, i) else {
            break;
        };
        f.write_str(before)?;
        write_start(f, message)?;
        before = ", ";
    }
    if count > MESSAGES_SHOWN {
        write!(f, " and {} more", count - MESSAGES_SHOWN)?;
    }
    Ok(())
}

/// Writes a message in hexadecimal digits, or the start of a long one and `..`.
fn write_start<W: fmt::Write>(f: &mut fmt::Formatter<W>, message: &[u8]) -> fmt::Result {
    if message.len() <= BYTES_SHOWN {
        return write!(f, "{}", Hex(message));
    }
    write!(f, "{}..", Hex(&message[..BYTES_SHOWN]))
}

/// Writes that the channel's destination port is not created, or that it never received a message.
fn write_destination<W: fmt::Write>(
    f: &mut fmt::Formatter<W>,
    ports: &Ports,
    c: usize,
) -> fmt::Result
    requires { c < length ports.now.config.channels }
{
    let config = ports.config();
    let Some(place) = destination_of(config, c) else {
        return Ok(());
    };
    let name = PortName { config, place };
    if !is_created(ports, place) {
        write!(f, "; {name} is not created")
    } else if ports.received_count(c) == 0 {
        write!(f, "; {name} never received")
    } else {
        Ok(())
    }
}

fn is_created(ports: &Ports, place: PortPlace) -> bool {
    place.partition < ports.config().partitions() && ports.created(place.partition, place.id)
}

/// The number of the channel of a name.
pub fn channel_called(config: &Config, name: &Name) -> Option<usize>
    ensures { IfSome result (λ c. c < length config.now.channels) }
{
    let c = config.channel_named(name)?;
    if c < config.channels() { Some(c) } else { None }
}

/// A destination port of channel `c`: the first in the order of the partitions and their ports.
pub fn destination_of(config: &Config, c: usize) -> Option<PortPlace>
    ensures { IfSome result (λ place. is_destination_of c
        (port_of config.now place.partition place.id) ≡ true) }
{
    for partition in 0..config.partitions() {
        for index in 0..config.ports(partition) {
            let id = index as u32 + 1;
            let port = config.port(partition, id).unwrap();
            if port.channel == c && port.direction == Direction::Destination {
                return Some(PortPlace { partition, id });
            }
        }
    }
    None
}

/// Bytes in hexadecimal digits, `-` if there are none.
#[derive(Clone, Copy)]
pub struct Hex<'a>(pub &'a [u8]);

impl fmt::Display for Hex<'_> {
    fn fmt<W: fmt::Write>(&self, f: &mut fmt::Formatter<W>) -> fmt::Result {
        if self.0.is_empty() {
            return f.write_str("-");
        }
        for byte in self.0 {
            write!(f, "{byte:02x}")?;
        }
        Ok(())
    }
}
