//! A judge of a recorded log, entry by entry.
ghost use Rattle.std.specs.Prelude.{◌≡◌, ◌<◌, ◌∷◌, ◌++◌, [], ◌↔◌, true, false, length, IfOk, IfErr, IsTrue};

use crate::departure::Expected;
use crate::state::State;
use apex_module::Config;
use apex_ports::table::{replies, row};
use apex_ports::{CallRef, Row};
use apex_types::{Call, Moment, OutOfMemory, Reply};
use std::alloc::{Allocator, Global};
use std::marker::Model;

/// Judges the entries of a log one after another, each given what the entries before it show. It keeps only what later
/// entries need: the messages that wait, a copy of their bytes if they were counted, and what the configuration has room
/// for.
///
/// A contract sees its configuration and the log so far, which no program stores. The log may be lawful or not.
#[derive(Drop)]
pub struct Judge<A: Allocator = Global> {
    config: Config,
    state: State<A>,
}

impl<A: Allocator> Model for Judge<A> {
    ghost use Rattle.apex_judge.specs.JudgeView.{JudgeView};

    ghost Value = { JudgeView };

    ghost use Rattle.apex_judge.specs.Kept.{IsShown};

    ghost view = { λ judge. record { config = judge.config; log = judge.state.log } };

    ghost invariant = { λ judge. IsShown judge.config judge.state.log judge.state };
}

impl<A: Allocator + Copy> Judge<A> {
    /// A judge before the first entry. If memory runs out, the configuration is dropped.
    pub fn new(alloc: A, config: Config) -> Result<Judge<A>, OutOfMemory>
        ensures config { IfOk result (λ judge. judge.config ≡ config) }
        ensures log { IfOk result (λ judge. judge.log ≡ []) }
    {
        let state = State::new(alloc, &config)?;
        Ok(Judge { config, state })
    }
}

impl<A: Allocator> Judge<A> {
    ghost use Rattle.apex_judge.specs.Prelude.{entry_of, reply_of, Reply};
    ghost use Rattle.apex_judge.specs.Departures.{expected_of, instead_of};
    ghost use Rattle.apex_judge.specs.Replies.{agrees};
    ghost use Rattle.apex_judge.specs.Shown.{shown, row_shown, reply_shown, waiting_shown};

    /// The configuration.
    pub fn config(&self) -> &Config
        ensures { result.now ≡ self.now.config }
    {
        &self.config
    }

    /// The number of messages that wait on a channel, as the log shows it.
    #[tactic(auto, using(crate::proofs::Lookups::channel_at))]
    pub fn waiting_count(&self, channel: usize) -> usize
        requires { channel < length self.now.config.channels }
        ensures { result ≡ length (waiting_shown self.now.config channel self.now.log) }
    {
        self.state.channels[channel].waiting_count()
    }

    /// The row of the reply table that a call of the partition gets after the log.
    pub fn row(&self, partition: usize, at: Moment, call: &Call) -> Row
        requires { partition < length self.now.config.partitions }
        ensures { result ≡ row_shown self.now.config self.now.log partition at call.now }
    {
        row(&self.state, &self.config, partition, at, CallRef::of(call))
    }

    /// The reply that the standard has for a call of the partition after the log.
    pub fn reply(&self, partition: usize, at: Moment, call: &Call) -> Reply
        requires { partition < length self.now.config.partitions }
        ensures { result ≡ reply_shown self.now.config self.now.log partition at call.now }
    {
        let row = row(&self.state, &self.config, partition, at, CallRef::of(call));
        replies::reply(&self.state, &self.config, partition, row)
    }

    /// Whether a logged reply is the standard's. No message is copied.
    pub fn agrees(&self, partition: usize, at: Moment, call: &Call, reply: &Reply) -> bool
        requires { partition < length self.now.config.partitions }
        ensures test { result ≡ agrees
            (reply_shown self.now.config self.now.log partition at call.now) reply.now }
        ensures exact { IsTrue result ↔
            (reply.now ≡ reply_shown self.now.config self.now.log partition at call.now) }
    {
        let row = row(&self.state, &self.config, partition, at, CallRef::of(call));
        self.state.agrees(&self.config, partition, row, reply)
    }

    /// What the standard has instead of a logged reply, if they differ.
    pub fn instead_of(
        &self,
        partition: usize,
        at: Moment,
        call: &Call,
        reply: &Reply,
    ) -> Option<Expected>
        requires { partition < length self.now.config.partitions }
        ensures { result ≡ instead_of self.now.config self.now.log
            (entry_of partition at call.now reply.now) }
    {
        if self.agrees(partition, at, call, reply) {
            return None;
        }
        Some(self.expected(partition, at, call))
    }

    // What the standard has for a call of the partition after the log.
    fn expected(&self, partition: usize, at: Moment, call: &Call) -> Expected
        requires { partition < length self.now.config.partitions }
        ensures { (reply : Reply) → result ≡ expected_of self.now.config self.now.log
            (entry_of partition at call.now reply) }
    {
        let row = row(&self.state, &self.config, partition, at, CallRef::of(call));
        Expected {
            row,
            reply: replies::reply(&self.state, &self.config, partition, row),
        }
    }
}

impl<A: Allocator + Copy> Judge<A> {
    ghost use Rattle.apex_ports.specs.History.{entry_of};
    ghost use Rattle.apex_judge.specs.Departures.{expected_of, instead_of};
    ghost use Rattle.apex_judge.specs.Replies.{agrees};
    ghost use Rattle.apex_judge.specs.Shown.{reply_shown};

    /// The log gains an entry, whatever the standard has there. Where there is no memory for its message, it is
    /// what it was.
    pub fn add(
        &mut self,
        partition: usize,
        at: Moment,
        call: &Call,
        reply: &Reply,
    ) -> Result<(), OutOfMemory>
        requires { partition < length self.old.config.partitions }
        ensures entry { IfOk result (λ _. self.new.log
            ≡ self.old.log ++ entry_of partition at call.now reply.now ∷ []) }
        ensures refused { IfErr result (λ _. self.new.log ≡ self.old.log) }
        ensures config { self.new.config ≡ self.old.config }
    {
        self.judge(partition, at, call, reply)?;
        Ok(())
    }

    /// The log gains an entry whose reply is the standard's. Where there is no memory for its message, it is what it
    /// was.
    pub fn add_agreeing(
        &mut self,
        partition: usize,
        at: Moment,
        call: &Call,
        reply: &Reply,
    ) -> Result<(), OutOfMemory>
        requires partition { partition < length self.old.config.partitions }
        requires agrees { agrees
            (reply_shown self.old.config self.old.log partition at call.now) reply.now ≡ true }
        ensures entry { IfOk result (λ _. self.new.log
            ≡ self.old.log ++ entry_of partition at call.now reply.now ∷ []) }
        ensures refused { IfErr result (λ _. self.new.log ≡ self.old.log) }
        ensures config { self.new.config ≡ self.old.config }
    {
        self.state
            .add_agreeing(&self.config, partition, at, call, reply)
    }

    /// Adds an entry to the log if its reply is the standard's, and returns whether it is. If it isn't, or if there
    /// is no memory for its message, the log stays as it was.
    pub fn add_if_agreeing(
        &mut self,
        partition: usize,
        at: Moment,
        call: &Call,
        reply: &Reply,
    ) -> Result<bool, OutOfMemory>
        requires { partition < length self.old.config.partitions }
        ensures test { IfOk result (λ agreed. agreed ≡ agrees
            (reply_shown self.old.config self.old.log partition at call.now) reply.now) }
        ensures entry { IfOk result (λ agreed. agreed ≡ true →
            self.new.log ≡ self.old.log ++ entry_of partition at call.now reply.now ∷ []) }
        ensures same { IfOk result (λ agreed. agreed ≡ false → self.new.log ≡ self.old.log) }
        ensures refused { IfErr result (λ _. self.new.log ≡ self.old.log) }
        ensures config { self.new.config ≡ self.old.config }
    {
        let agreed = self.agrees(partition, at, call, reply);
        if agreed {
            self.add_agreeing(partition, at, call, reply)?;
        }
        Ok(agreed)
    }

    // Adds an entry whose reply isn't the standard's, and returns what the standard has there. If there is no memory
    // for its message, the log stays as it was.
    // Not inlined, since a function that makes a reply clears its room where it begins.
    #[inline(never)]
    fn add_departing(
        &mut self,
        partition: usize,
        at: Moment,
        call: &Call,
        reply: &Reply,
    ) -> Result<Expected, OutOfMemory>
        requires partition { partition < length self.old.config.partitions }
        requires departs { agrees
            (reply_shown self.old.config self.old.log partition at call.now) reply.now ≡ false }
        ensures expected { let entry = entry_of partition at call.now reply.now in
            IfOk result (λ expected. expected ≡ expected_of self.old.config self.old.log entry) }
        ensures entry { IfOk result (λ _. self.new.log
            ≡ self.old.log ++ entry_of partition at call.now reply.now ∷ []) }
        ensures refused { IfErr result (λ _. self.new.log ≡ self.old.log) }
        ensures config { self.new.config ≡ self.old.config }
    {
        let expected = self.expected(partition, at, call);
        self.state
            .add_departing(&self.config, partition, at, call, reply, &expected.reply)?;
        Ok(expected)
    }

    /// Judges the next entry of the log and adds it: returns what the standard has instead of its reply, if they differ. If
    /// there is no memory for its message, the log is unchanged.
    pub fn judge(
        &mut self,
        partition: usize,
        at: Moment,
        call: &Call,
        reply: &Reply,
    ) -> Result<Option<Expected>, OutOfMemory>
        requires { partition < length self.old.config.partitions }
        ensures judged { let entry = entry_of partition at call.now reply.now in
            IfOk result (λ instead. instead ≡ instead_of self.old.config self.old.log entry) }
        ensures entry { IfOk result (λ _. self.new.log
            ≡ self.old.log ++ entry_of partition at call.now reply.now ∷ []) }
        ensures refused { IfErr result (λ _. self.new.log ≡ self.old.log) }
        ensures config { self.new.config ≡ self.old.config }
    {
        if self.add_if_agreeing(partition, at, call, reply)? {
            return Ok(None);
        }
        let expected = self.add_departing(partition, at, call, reply)?;
        Ok(Some(expected))
    }
}
