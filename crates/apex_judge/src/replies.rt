//! Whether a logged reply is that of a row.
ghost use Rattle.std.specs.Prelude.{◌≡◌, ◌<◌, length};
ghost use Rattle.apex_judge.specs.Prelude.{is_id as is_id_reply, reply_of, queuing_status_reply, sampling_status_reply, queuing_port, sampling_port};
ghost use Rattle.apex_judge.specs.Kept.{IsShown};
ghost use Rattle.apex_judge.specs.Replies.{agrees, is_code as is_code_reply, is_received as is_received_reply, is_read_as};
ghost use Rattle.apex_judge.specs.Shown.{shown};

use crate::state::State;
use apex_module::Config;
use apex_ports::Row;
use apex_ports::table::lookup::{queuing_port, sampling_port};
use apex_ports::table::replies::{oldest_at, sample_at};
use apex_ports::view::View;
use apex_types::{Reply, ReturnCode, Validity};
use std::alloc::Allocator;

impl<A: Allocator> State<A> {
    /// Whether a logged reply is that of a row. No message is copied.
    pub(crate) fn agrees(&self, config: &Config, partition: usize, row: Row, reply: &Reply) -> bool
        requires partition { partition < length config.now.partitions }
        requires shown { IsShown config.now self.now.log self.now }
        ensures { let here = shown config.now self.now.log partition in
            result ≡ agrees (reply_of config.now here partition row) reply.now }
    {
        match row {
            Row::Idle => matches!(reply, Reply::NotMade),
            Row::Refused(refusal) => is_code(reply, refusal.code()),
            Row::Created { id } => is_id(reply, id),
            Row::Identified { id } => is_id(reply, id),
            Row::Sent => is_code(reply, ReturnCode::NoError),
            Row::OldestReceived { id } => match oldest_at(self, config, partition, id) {
                Some(message) => is_received(reply, message),
                None => is_code(reply, ReturnCode::NotAvailable),
            },
            Row::Cleared => is_code(reply, ReturnCode::NoError),
            Row::QueuingStatus { id } => self.has_queuing_status(config, partition, id, reply),
            Row::Written => is_code(reply, ReturnCode::NoError),
            Row::LastRead { id, validity } => match sample_at(self, config, partition, id) {
                Some(sample) => is_read(reply, sample.message, validity),
                None => is_code(reply, ReturnCode::NoAction),
            },
            Row::SamplingStatus { id } => self.has_sampling_status(config, partition, id, reply),
            Row::ModeSet => is_code(reply, ReturnCode::NoError),
        }
    }

    fn has_queuing_status(&self, config: &Config, partition: usize, id: u32, reply: &Reply) -> bool
        requires partition { partition < length config.now.partitions }
        requires shown { IsShown config.now self.now.log self.now }
        ensures { let here = shown config.now self.now.log partition in
            let port = queuing_port config.now here partition id in
            result ≡ agrees (queuing_status_reply config.now here id port) reply.now }
    {
        let Some(port) = queuing_port(self, config, partition, id) else {
            return is_code(reply, ReturnCode::InvalidParam);
        };
        let channel = config.channel(port.channel);
        let count = self.waiting_count(config, partition, id, port);
        match reply {
            Reply::QueuingStatus {
                waiting,
                depth,
                size,
                direction,
            } => {
                *waiting as usize == count
                    && *depth == channel.kind.depth()
                    && *size == channel.size
                    && direction.number() == port.direction.number()
            }
            _ => false,
        }
    }

    fn has_sampling_status(&self, config: &Config, partition: usize, id: u32, reply: &Reply) -> bool
        requires partition { partition < length config.now.partitions }
        requires shown { IsShown config.now self.now.log self.now }
        ensures { let here = shown config.now self.now.log partition in
            let port = sampling_port config.now here partition id in
            result ≡ agrees (sampling_status_reply config.now here id port) reply.now }
    {
        let Some(port) = sampling_port(self, config, partition, id) else {
            return is_code(reply, ReturnCode::InvalidParam);
        };
        let channel = config.channel(port.channel);
        let shown = self.last_validity(config, partition, id);
        match reply {
            Reply::SamplingStatus {
                refresh,
                size,
                direction,
                last,
            } => {
                *refresh == port.kind.refresh()
                    && *size == channel.size
                    && direction.number() == port.direction.number()
                    && last.number() == shown.number()
            }
            _ => false,
        }
    }
}

fn is_code(reply: &Reply, code: ReturnCode) -> bool
    ensures { result ≡ is_code_reply code reply.now }
{
    match reply {
        Reply::Code(logged) => logged.number() == code.number(),
        _ => false,
    }
}

fn is_id(reply: &Reply, id: u32) -> bool
    ensures { result ≡ is_id_reply id reply.now }
{
    match reply {
        Reply::Id(logged) => *logged == id,
        _ => false,
    }
}

fn is_received(reply: &Reply, message: &[u8]) -> bool
    ensures { result ≡ is_received_reply message.now reply.now }
{
    match reply {
        Reply::Received(logged) => logged.bytes() == message,
        _ => false,
    }
}

fn is_read(reply: &Reply, message: &[u8], validity: Validity) -> bool
    ensures { result ≡ is_read_as message.now validity reply.now }
{
    match reply {
        Reply::Read {
            message: logged,
            validity: shown,
        } => logged.bytes() == message && shown.number() == validity.number(),
        _ => false,
    }
}
