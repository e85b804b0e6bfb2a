//! The effects of an entry of the log.
ghost use Rattle.std.specs.Prelude.{◌≡◌, ℕ, ◌<◌, true, false, length, IfOk, IfErr, IfSome};
ghost use Rattle.apex_judge.specs.Prelude.{option_copied, Call, Moment, Configuration, port_of, message_in as message_in_reply, validity_in as validity_in_reply, entry_of, is_code_no_error, is_create, is_id, is_source_of, is_destination_of};
ghost use Rattle.apex_types.specs.declared.call.Call.TheVariants as call;
ghost use Rattle.apex_judge.specs.Kept.{IsShown, Shows, IsPartitionShown, PartitionNotes, ChannelsNote, ChannelsStay};
ghost use Rattle.apex_judge.specs.Picture.{Picture};
ghost use Rattle.apex_judge.specs.Steps.{picture_of, with_effects};
ghost use Rattle.apex_judge.specs.Subjects.{is_at, with_doubt};
ghost use Rattle.apex_judge.specs.Waiting.{is_code_not_available};

use crate::channel::ChannelState;
use crate::partition::{PartitionState, PortState};
use crate::state::State;
use crate::subject::Subject;
use apex_module::Config;
use apex_types::{
    Call, Direction, Message, Mode, Moment, OutOfMemory, Reply, ReturnCode, Sample, Validity,
};
use std::alloc::Allocator;

impl<A: Allocator + Copy> State<A> {
    /// Has the effects of an entry, and doubts what it is about, or doubts it no longer. Where there is no memory for
    /// its message, nothing changes.
    pub(crate) fn note(
        &mut self,
        config: &Config,
        partition: usize,
        at: Moment,
        call: &Call,
        reply: &Reply,
        subject: Subject,
        doubted: bool,
    ) -> Result<(), OutOfMemory>
        requires partition { partition < length config.now.partitions }
        requires shown { IsShown config.now self.old.log self.old }
        ensures shown { let entry = entry_of partition at call.now reply.now in
            let picture = with_effects config.now entry (picture_of config.now self.old.log) in
            IfOk result (λ _.
            Shows config.now (with_doubt partition subject doubted picture) self.new) }
        ensures refused { IfErr result (λ _. IsShown config.now self.old.log self.new) }
        ensures log { self.new.log ≡ self.old.log }
    {
        let channels = self.channels.as_mut_slice();
        note_channels(config, channels, partition, at, call, reply)?;
        self.partitions[partition].note_with_doubt(call, reply, subject, doubted);
        Ok(())
    }
}

// ---- partitions

impl<A: Allocator> PartitionState<A> {
    // Applies an entry of the partition, and sets whether what it is about is doubted.
    fn note_with_doubt(&mut self, call: &Call, reply: &Reply, subject: Subject, doubted: bool)
        ensures { (config : Configuration) (picture : Picture) (p : ℕ) (at : Moment) →
            let entry = entry_of p at call.now reply.now in
            let noted = with_doubt p subject doubted (with_effects config entry picture) in
            IsPartitionShown config picture p self.old
            → IsPartitionShown config noted p self.new }
    {
        self.note(call, reply);
        self.mark(subject, doubted);
    }

    /// Doubts what an entry of the partition is about, or doubts it no longer.
    pub(crate) fn mark(&mut self, subject: Subject, doubted: bool)
        ensures { (config : Configuration) (picture : Picture) (p : ℕ) →
            IsPartitionShown config picture p self.old
            → IsPartitionShown config (with_doubt p subject doubted picture) p self.new }
    {
        match subject {
            Subject::Mode => self.doubted = doubted,
            Subject::Port(id) => {
                let created = self.is_created(id);
                let last = self.last_validity(id);
                self.set_port(
                    id,
                    PortState {
                        created,
                        last,
                        doubted,
                    },
                );
            }
            Subject::Nothing => {}
        }
    }

    /// Applies an entry of the partition.
    pub(crate) fn note(&mut self, call: &Call, reply: &Reply)
        ensures { PartitionNotes call.now reply.now self.old self.new }
    {
        match call {
            Call::CreateSampling { .. } => self.note_creation(reply),
            Call::CreateQueuing { .. } => self.note_creation(reply),
            Call::ReadSampling { id } => self.note_read(*id, reply),
            Call::SetMode { mode } => self.note_mode(*mode, reply),
            _ => {}
        }
    }

    // A create call that was answered an identifier.
    fn note_creation(&mut self, reply: &Reply)
        ensures { (asked : Call) → is_create asked ≡ true →
            PartitionNotes asked reply.now self.old self.new }
    {
        let Some(id) = id_in(reply) else {
            return;
        };
        let doubted = self.is_port_doubted(id);
        self.set_port(
            id,
            PortState {
                created: true,
                last: Validity::Invalid,
                doubted,
            },
        );
    }

    // A read that was answered a sample.
    fn note_read(&mut self, id: u32, reply: &Reply)
        ensures { PartitionNotes (call.ReadSampling id) reply.now self.old self.new }
    {
        let Some(last) = validity_in(reply) else {
            return;
        };
        let created = self.is_created(id);
        let doubted = self.is_port_doubted(id);
        self.set_port(
            id,
            PortState {
                created,
                last,
                doubted,
            },
        );
    }

    // A change of mode that was accepted.
    fn note_mode(&mut self, number: u32, reply: &Reply)
        ensures { PartitionNotes (call.SetMode number) reply.now self.old self.new }
    {
        if !is_no_error(reply) {
            return;
        }
        let Some(mode) = Mode::from_number(number) else {
            return;
        };
        self.set_mode(mode);
    }
}

// ---- channels

/// Applies an entry to all channels.
pub(crate) fn note_channels<A: Allocator + Copy>(
    config: &Config,
    channels: &mut [ChannelState<A>],
    partition: usize,
    at: Moment,
    call: &Call,
    reply: &Reply,
) -> Result<(), OutOfMemory>
    requires { length channels.old ≡ length config.now.channels }
    ensures noted { let entry = entry_of partition at call.now reply.now in
        IfOk result (λ _. ChannelsNote config.now entry channels.old channels.new) }
    ensures refused { IfErr result (λ _. ChannelsStay channels.old channels.new) }
    ensures count { length channels.new ≡ length channels.old }
{
    match call {
        Call::SendQueuing { id, message } => {
            note_send(config, channels, partition, *id, message, reply)?;
            Ok(())
        }
        Call::ReceiveQueuing { id } => {
            note_receive(config, channels, partition, *id, reply);
            Ok(())
        }
        Call::ClearQueuing { id } => {
            note_clear(config, channels, partition, *id, reply);
            Ok(())
        }
        Call::WriteSampling { id, message } => {
            note_write(config, channels, partition, at, *id, message, reply);
            Ok(())
        }
        _ => Ok(()),
    }
}

// A message that was accepted waits last.
fn note_send<A: Allocator + Copy>(
    config: &Config,
    channels: &mut [ChannelState<A>],
    partition: usize,
    id: u32,
    message: &Message,
    reply: &Reply,
) -> Result<(), OutOfMemory>
    requires { length channels.old ≡ length config.now.channels }
    ensures noted { IfOk result (λ _. (at : Moment) →
        let entry = entry_of partition at (call.SendQueuing id message.now) reply.now in
        ChannelsNote config.now entry channels.old channels.new) }
    ensures refused { IfErr result (λ _. ChannelsStay channels.old channels.new) }
    ensures count { length channels.new ≡ length channels.old }
{
    let Some(c) = source(config, partition, id) else {
        return Ok(());
    };
    if !is_no_error(reply) {
        return Ok(());
    }
    channels[c].send(message)?;
    Ok(())
}

// A message that was received is taken. Where none was there, none waits.
fn note_receive<A: Allocator + Copy>(
    config: &Config,
    channels: &mut [ChannelState<A>],
    partition: usize,
    id: u32,
    reply: &Reply,
)
    requires { length channels.old ≡ length config.now.channels }
    ensures noted { (at : Moment) →
        let entry = entry_of partition at (call.ReceiveQueuing id) reply.now in
        ChannelsNote config.now entry channels.old channels.new }
    ensures count { length channels.new ≡ length channels.old }
{
    let Some(c) = destination(config, partition, id) else {
        return;
    };
    if let Some(message) = message_in(reply) {
        channels[c].receive(message);
        return;
    }
    if !is_not_available(reply) {
        return;
    }
    channels[c].clear();
}

// A channel that was cleared has no message.
fn note_clear<A: Allocator>(
    config: &Config,
    channels: &mut [ChannelState<A>],
    partition: usize,
    id: u32,
    reply: &Reply,
)
    requires { length channels.old ≡ length config.now.channels }
    ensures noted { (at : Moment) →
        let entry = entry_of partition at (call.ClearQueuing id) reply.now in
        ChannelsNote config.now entry channels.old channels.new }
    ensures count { length channels.new ≡ length channels.old }
{
    let Some(c) = destination(config, partition, id) else {
        return;
    };
    if !is_no_error(reply) {
        return;
    }
    channels[c].clear();
}

// A message that was written is the last one.
fn note_write<A: Allocator>(
    config: &Config,
    channels: &mut [ChannelState<A>],
    partition: usize,
    at: Moment,
    id: u32,
    message: &Message,
    reply: &Reply,
)
    requires { length channels.old ≡ length config.now.channels }
    ensures noted { let written = call.WriteSampling id message.now in
        let entry = entry_of partition at written reply.now in
        ChannelsNote config.now entry channels.old channels.new }
    ensures count { length channels.new ≡ length channels.old }
{
    let Some(c) = source(config, partition, id) else {
        return;
    };
    if !is_no_error(reply) {
        return;
    }
    channels[c].write(message, at);
}

// ---- ends of channels

// The channel of a port that is a source.
fn source(config: &Config, partition: usize, id: u32) -> Option<usize>
    ensures channel { (c : ℕ) →
        is_source_of c (port_of config.now partition id) ≡ is_at result c }
    ensures linked { IfSome result (λ c. c < length config.now.channels) }
{
    let port = config.port(partition, id)?;
    match port.direction {
        Direction::Source => Some(port.channel),
        Direction::Destination => None,
    }
}

/// The channel of a port that is a destination.
pub(crate) fn destination(config: &Config, partition: usize, id: u32) -> Option<usize>
    ensures channel { (c : ℕ) →
        is_destination_of c (port_of config.now partition id) ≡ is_at result c }
    ensures linked { IfSome result (λ c. c < length config.now.channels) }
{
    let port = config.port(partition, id)?;
    match port.direction {
        Direction::Source => None,
        Direction::Destination => Some(port.channel),
    }
}

// ---- what a logged reply has

// Whether the reply is the bare answer NO_ERROR.
fn is_no_error(reply: &Reply) -> bool
    ensures { result ≡ is_code_no_error reply.now }
{
    matches!(reply, Reply::Code(ReturnCode::NoError))
}

// Whether the reply is the bare answer NOT_AVAILABLE.
fn is_not_available(reply: &Reply) -> bool
    ensures { result ≡ is_code_not_available reply.now }
{
    matches!(reply, Reply::Code(ReturnCode::NotAvailable))
}

fn id_in(reply: &Reply) -> Option<u32>
    ensures { (id : ℕ) → is_id id reply.now ≡ is_at result id }
{
    match reply {
        Reply::Id(id) => Some(*id),
        _ => None,
    }
}

fn validity_in(reply: &Reply) -> Option<Validity>
    ensures { result ≡ validity_in_reply reply.now }
{
    match reply {
        Reply::Read { validity, .. } => Some(*validity),
        _ => None,
    }
}

fn message_in(reply: &Reply) -> Option<&Message>
    ensures { option_copied result ≡ message_in_reply reply.now }
{
    match reply {
        Reply::Received(message) => Some(message),
        _ => None,
    }
}
