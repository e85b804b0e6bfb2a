//! Following a log that is believed, where what an entry is about departs again.
ghost use Rattle.std.specs.Prelude.{◌≡◌, ℕ, ◌<◌, true, length, IfOk, IfErr};
ghost use Rattle.apex_judge.specs.Prelude.{Moment, Configuration, entry_of};
ghost use Rattle.apex_judge.specs.Evidence.{sample_shown, with_evidence};
ghost use Rattle.apex_judge.specs.Kept.{IsShown, Shows, IsPartitionShown, ChannelsBelieve, ChannelsGo, ChannelsStay};
ghost use Rattle.apex_judge.specs.Picture.{Picture};
ghost use Rattle.apex_judge.specs.Steps.{picture_of, with_effects, when_believed, named_reply};
ghost use Rattle.apex_judge.specs.Subjects.{port_about, with_doubt};

use crate::channel::ChannelState;
use crate::evidence::{created_shown, last_shown, mode_shown, written_at};
use crate::partition::{PartitionState, PortState};
use crate::state::State;
use crate::steps::{destination, note_channels};
use crate::subject::{Subject, port_about};
use apex_module::Config;
use apex_types::{Call, Moment, OutOfMemory, Reply, ReturnCode};
use std::alloc::Allocator;

impl<A: Allocator + Copy> State<A> {
    /// Follows an entry as it is logged, and doubts what it is about. Where there is no memory for its message,
    /// nothing changes.
    pub(crate) fn believe(
        &mut self,
        config: &Config,
        partition: usize,
        at: Moment,
        call: &Call,
        reply: &Reply,
        subject: Subject,
    ) -> Result<(), OutOfMemory>
        requires partition { partition < length config.now.partitions }
        requires shown { IsShown config.now self.old.log self.old }
        ensures shown { let entry = entry_of partition at call.now reply.now in
            let picture = when_believed config.now entry (picture_of config.now self.old.log) in
            IfOk result (λ _.
            Shows config.now (with_doubt partition subject true picture) self.new) }
        ensures refused { IfErr result (λ _. IsShown config.now self.old.log self.new) }
        ensures log { self.new.log ≡ self.old.log }
    {
        let port = port_about(config, partition, call);
        let named = named_reply(port, reply);
        let channels = self.channels.as_mut_slice();
        believe_channels(config, channels, partition, at, call, reply, &named)?;
        self.partitions[partition].believe(port, call, reply, &named, subject);
        Ok(())
    }
}

// The reply with the identifier of the port that a creation names.
fn named_reply(port: Option<u32>, reply: &Reply) -> Reply
    ensures { result ≡ named_reply port reply.now }
{
    match reply {
        Reply::Id(_) => Reply::Id(port.unwrap_or(0)),
        _ => reply.copy(),
    }
}

// ---- partitions

impl<A: Allocator> PartitionState<A> {
    // Follows an entry of the partition about this port, and doubts what it is about.
    fn believe(
        &mut self,
        port: Option<u32>,
        call: &Call,
        reply: &Reply,
        named: &Reply,
        subject: Subject,
    )
        ensures { (config : Configuration) (picture : Picture) (p : ℕ) (at : Moment) →
            let effects = with_effects config (entry_of p at call.now named.now) picture in
            let seen = with_evidence config (entry_of p at call.now reply.now) effects in
            port_about config p call.now ≡ port
            → IsPartitionShown config picture p self.old
            → IsPartitionShown config (with_doubt p subject true seen) p self.new }
    {
        self.note(call, named);
        self.see(port, call, reply);
        self.mark(subject, true);
    }

    // Goes along with what the reply to a call about this port shows.
    fn see(&mut self, port: Option<u32>, call: &Call, reply: &Reply)
        ensures { (config : Configuration) (picture : Picture) (p : ℕ) (at : Moment) →
            let entry = entry_of p at call.now reply.now in
            port_about config p call.now ≡ port
            → IsPartitionShown config picture p self.old
            → IsPartitionShown config (with_evidence config entry picture) p self.new }
    {
        self.mode = mode_shown(self.mode, call, reply);
        let Some(id) = port else {
            return;
        };
        let created = created_shown(call, reply).unwrap_or(self.is_created(id));
        let last = last_shown(reply).unwrap_or(self.last_validity(id));
        let doubted = self.is_port_doubted(id);
        self.set_port(
            id,
            PortState {
                created,
                last,
                doubted,
            },
        );
    }
}

// ---- channels

// All channels go along with an entry and with what its reply shows.
fn believe_channels<A: Allocator + Copy>(
    config: &Config,
    channels: &mut [ChannelState<A>],
    partition: usize,
    at: Moment,
    call: &Call,
    reply: &Reply,
    named: &Reply,
) -> Result<(), OutOfMemory>
    requires { length channels.old ≡ length config.now.channels }
    ensures noted { let effects = entry_of partition at call.now named.now in
        let entry = entry_of partition at call.now reply.now in
        IfOk result (λ _. ChannelsBelieve config.now effects entry channels.old channels.new) }
    ensures refused { IfErr result (λ _. ChannelsStay channels.old channels.new) }
    ensures count { length channels.new ≡ length channels.old }
{
    note_channels(config, channels, partition, at, call, named)?;
    see_read(config, channels, partition, at, call, reply);
    Ok(())
}

// A read shows the sample that was written last, or that there is none.
fn see_read<A: Allocator>(
    config: &Config,
    channels: &mut [ChannelState<A>],
    partition: usize,
    at: Moment,
    call: &Call,
    reply: &Reply,
)
    requires { length channels.old ≡ length config.now.channels }
    ensures noted { let entry = entry_of partition at call.now reply.now in
        ChannelsGo (with_evidence config.now entry) channels.old channels.new }
    ensures count { length channels.new ≡ length channels.old }
{
    let Call::ReadSampling { id } = call else {
        return;
    };
    let Some(c) = destination(config, partition, *id) else {
        return;
    };
    channels[c].see(at, reply);
}

impl<A: Allocator> ChannelState<A> {
    // Goes along with the reply to a read.
    fn see(&mut self, at: Moment, reply: &Reply)
        ensures waiting { self.new.waiting ≡ self.old.waiting }
        ensures sample { self.new.sample ≡ sample_shown at reply.now self.old.sample }
    {
        match reply {
            Reply::Read { message, validity } => self.write(message, written_at(at, *validity)),
            Reply::Code(ReturnCode::NoAction) => self.remove_sample(),
            _ => {}
        }
    }
}
