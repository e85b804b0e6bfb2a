//! The log gains an entry.
ghost use Rattle.std.specs.Prelude.{◌≡◌, ℕ, ◌<◌, ◌++◌, ◌∷◌, [], true, false, length, option_map, IfSome, IfOk, IfErr};
ghost use Rattle.apex_judge.specs.Prelude.{port_of, entry_of};
ghost use Rattle.apex_judge.specs.Kept.{IsShown, Shows, doubted_of};
ghost use Rattle.apex_judge.specs.Replies.{agrees};
ghost use Rattle.apex_judge.specs.Shown.{reply_shown};
ghost use Rattle.apex_judge.specs.Steps.{picture_of, is_believed, is_receipt, receives_later, receives_waiting, when_departing};
ghost use Rattle.apex_judge.specs.Subjects.{subject_of, with_doubt};

use crate::partition::PartitionState;
use crate::state::State;
use crate::subject::{Subject, subject_of};
use apex_module::Config;
use apex_types::{Call, Moment, OutOfMemory, Reply};
use std::alloc::Allocator;

impl<A: Allocator + Copy> State<A> {
    /// The log gains an entry that agrees. Where there is no memory for its message, nothing changes.
    pub(crate) fn add_agreeing(
        &mut self,
        config: &Config,
        partition: usize,
        at: Moment,
        call: &Call,
        reply: &Reply,
    ) -> Result<(), OutOfMemory>
        requires partition { partition < length config.now.partitions }
        requires shown { IsShown config.now self.old.log self.old }
        requires agrees { agrees
            (reply_shown config.now self.old.log partition at call.now) reply.now ≡ true }
        ensures shown { IsShown config.now self.new.log self.new }
        ensures log { IfOk result (λ _. self.new.log
            ≡ self.old.log ++ entry_of partition at call.now reply.now ∷ []) }
        ensures refused { IfErr result (λ _. self.new.log ≡ self.old.log) }
    {
        let subject = subject_of(config, partition, call, reply, reply);
        self.note(config, partition, at, call, reply, subject, false)?;
        self.log.push(partition, at, call, reply);
        Ok(())
    }

    /// Adds an entry that departs to the log; the standard has this reply. If there is no memory for its message, nothing
    /// changes.
    pub(crate) fn add_departing(
        &mut self,
        config: &Config,
        partition: usize,
        at: Moment,
        call: &Call,
        reply: &Reply,
        standard: &Reply,
    ) -> Result<(), OutOfMemory>
        requires partition { partition < length config.now.partitions }
        requires shown { IsShown config.now self.old.log self.old }
        requires standard { standard.now
            ≡ reply_shown config.now self.old.log partition at call.now }
        requires departs { agrees standard.now reply.now ≡ false }
        ensures shown { IsShown config.now self.new.log self.new }
        ensures log { IfOk result (λ _. self.new.log
            ≡ self.old.log ++ entry_of partition at call.now reply.now ∷ []) }
        ensures refused { IfErr result (λ _. self.new.log ≡ self.old.log) }
    {
        self.depart(config, partition, at, call, reply, standard)?;
        self.log.push(partition, at, call, reply);
        Ok(())
    }

    // Follows an entry that departs: as it is logged, if it is believed, or else as though the standard's reply were
    // logged.
    fn depart(
        &mut self,
        config: &Config,
        partition: usize,
        at: Moment,
        call: &Call,
        reply: &Reply,
        standard: &Reply,
    ) -> Result<(), OutOfMemory>
        requires partition { partition < length config.now.partitions }
        requires shown { IsShown config.now self.old.log self.old }
        ensures shown { let picture = picture_of config.now self.old.log in
            let entry = entry_of partition at call.now reply.now in
            let subject = subject_of config.now entry standard.now in
            let believed = is_believed config.now entry standard.now subject picture in
            let departed = when_departing config.now entry standard.now believed picture in
            IfOk result (λ _.
            Shows config.now (with_doubt partition subject true departed) self.new) }
        ensures refused { IfErr result (λ _. IsShown config.now self.old.log self.new) }
        ensures log { self.new.log ≡ self.old.log }
    {
        let subject = subject_of(config, partition, call, reply, standard);
        if self.partitions[partition].is_doubted(subject) {
            return self.believe(config, partition, at, call, reply, subject);
        }
        if self.receives_later(config, partition, call, reply, standard) {
            return self.believe(config, partition, at, call, reply, subject);
        }
        self.note(config, partition, at, call, standard, subject, true)
    }

    // Whether an entry receives a message that waits, and the standard has a message too.
    fn receives_later(
        &mut self,
        config: &Config,
        partition: usize,
        call: &Call,
        reply: &Reply,
        standard: &Reply,
    ) -> bool
        requires { IsShown config.now self.old.log self.old }
        ensures test { let picture = picture_of config.now self.old.log in result
            ≡ receives_later config.now picture partition call.now standard.now reply.now }
        ensures shown { IsShown config.now self.new.log self.new }
        ensures log { self.new.log ≡ self.old.log }
    {
        if is_receipt(standard) {
            self.receives_waiting(config, partition, call, reply)
        } else {
            false
        }
    }

    // Whether an entry receives a message that waits.
    fn receives_waiting(
        &mut self,
        config: &Config,
        partition: usize,
        call: &Call,
        reply: &Reply,
    ) -> bool
        requires { IsShown config.now self.old.log self.old }
        ensures test { let picture = picture_of config.now self.old.log in
            result ≡ receives_waiting config.now picture partition call.now reply.now }
        ensures shown { IsShown config.now self.new.log self.new }
        ensures log { self.new.log ≡ self.old.log }
    {
        let Call::ReceiveQueuing { id } = call else {
            return false;
        };
        let Reply::Received(message) = reply else {
            return false;
        };
        let Some(c) = channel_of(config, partition, *id) else {
            return false;
        };
        self.channels[c].has(message)
    }
}

// Whether a reply has a received message.
fn is_receipt(reply: &Reply) -> bool
    ensures { result ≡ is_receipt reply.now }
{
    matches!(reply, Reply::Received(_))
}

// The channel of a port.
fn channel_of(config: &Config, partition: usize, id: u32) -> Option<usize>
    ensures channel { result
        ≡ option_map (λ port. port.channel) (port_of config.now partition id) }
    ensures linked { IfSome result (λ c. c < length config.now.channels) }
{
    let port = config.port(partition, id)?;
    Some(port.channel)
}

impl<A: Allocator> PartitionState<A> {
    // Whether what an entry is about is doubted.
    fn is_doubted(&self, subject: Subject) -> bool
        ensures { result ≡ doubted_of self.now subject }
    {
        match subject {
            Subject::Mode => self.doubted,
            Subject::Port(id) => self.is_port_doubted(id),
            Subject::Nothing => false,
        }
    }
}
