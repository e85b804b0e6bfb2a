//! A search call by call: the calls made so far, and the partitions tried at each of them.
ghost use Rattle.std.specs.Prelude.{◌≡◌, ◌<◌, ◌↔◌, length, replicate, Some, IfOk, OnOk, IfSome, IsTrue};
ghost use Rattle.apex_log_orders.specs.Prelude.{option_copied};
ghost use Rattle.apex_log_orders.specs.LogOrders.{HasNoOrder, IsOrder};
ghost use Rattle.apex_log_orders.specs.Walking.{CanGoOn, Ends, HasNoWayNext, IsWalk, candidate_of, next_of};

use crate::advice::Advice;
use crate::answer::{CallPlace, OwnLog};
use crate::choice::Choice;
use crate::replay::judge_at;
use apex_judge::Judge;
use apex_module::Config;
use apex_ports::Entry;
use apex_types::OutOfMemory;
use std::alloc::Global;

/// The calls made so far.
#[derive(Drop)]
pub(crate) struct Walk {
    /// The judge after them.
    pub(crate) judge: Judge,
    /// The number of them that each partition made.
    pub(crate) made: Vec<usize>,
    /// Their places in the logs, in order.
    pub(crate) path: Vec<CallPlace>,
    /// The partitions tried before each of them, and after the last.
    choices: Vec<Choice>,
}

impl Walk {
    /// No calls.
    pub(crate) fn new(
        alloc: Global,
        config: &Config,
        logs: &[OwnLog],
        advice: &Advice,
    ) -> Result<Walk, OutOfMemory>
        requires { length logs.now ≡ length config.now.partitions }
        ensures { IfOk result (λ walk. IsWalk config.now logs.now walk) }
    {
        let judge = Judge::new(alloc, config.copy()?)?;
        let made = no_calls(alloc, config.partitions())?;
        let first = advice.first(&judge, logs, made.as_slice(), 0);
        let mut choices = Vec::new(alloc);
        choices.push(Choice { first, tried: 0 })?;
        Ok(Walk {
            judge,
            made,
            path: Vec::new(alloc),
            choices,
        })
    }

    /// Whether each partition has made all calls of its log.
    pub(crate) fn has_made_all(&self, config: &Config, logs: &[OwnLog]) -> bool
        requires { IsWalk config.now logs.now self.now }
        ensures { IsTrue result ↔ IsOrder config.now logs.now self.now.judge.log }
    {
        for (p, log) in logs.iter().enumerate() {
            if self.made[p] != log.entries.len() {
                return false;
            }
        }
        true
    }

    /// Whether a call was tried here already, or the advice is for the next one.
    pub(crate) fn follows(&self, advice: &Advice, logs: &[OwnLog]) -> bool {
        match self.choices.last() {
            Some(choice) if choice.tried == 0 => {
                advice.is_good(&self.judge, logs, self.made.as_slice(), choice.first)
            }
            _ => true,
        }
    }

    /// Whether no partition was tried here.
    pub(crate) fn is_untried(&self) -> bool {
        match self.choices.last() {
            Some(choice) => choice.tried == 0,
            None => false,
        }
    }

    /// The partition to try next.
    pub(crate) fn candidate(&self, config: &Config) -> Option<usize>
        ensures exact { result ≡ candidate_of config.now self.now.choices.items }
        ensures within { IfSome result (λ p. p < length config.now.partitions) }
    {
        let choice = self.choices.last()?;
        choice.candidate(config.partitions())
    }

    /// The partition's next entry.
    pub(crate) fn next<'a>(
        &self,
        config: &Config,
        logs: &'a [OwnLog],
        p: usize,
    ) -> Option<&'a Entry>
        requires walk { IsWalk config.now logs.now self.now }
        requires partition { p < length config.now.partitions }
        ensures { option_copied result ≡ next_of logs.now self.now.judge.log p }
    {
        let log = &logs[p];
        log.entries.get(self.made[p])
    }

    /// Whether the partition has one more entry, and logged the reply that its call gets.
    pub(crate) fn can_go_on(&self, config: &Config, logs: &[OwnLog], p: usize) -> bool
        requires walk { IsWalk config.now logs.now self.now }
        requires partition { p < length config.now.partitions }
        ensures { IsTrue result ↔ CanGoOn config.now logs.now self.now.judge.log p }
    {
        let Some(entry) = self.next(config, logs, p) else {
            return false;
        };
        entry.partition == p && self.judge.agrees(p, entry.at, &entry.call, &entry.reply)
    }

    /// Makes the partition's next call.
    pub(crate) fn go_on(
        &mut self,
        config: &Config,
        logs: &[OwnLog],
        advice: &Advice,
        p: usize,
    ) -> Result<(), OutOfMemory>
        requires walk { IsWalk config.now logs.now self.old }
        requires tried { candidate_of config.now self.old.choices.items ≡ Some p }
        requires possible { CanGoOn config.now logs.now self.old.judge.log p }
        ensures { OnOk result (IsWalk config.now logs.now self.new) }
    {
        let log = &logs[p];
        let index = self.made[p];
        prove!(index < log.entries.len());
        let entry = &log.entries[index];
        self.judge
            .add_agreeing(p, entry.at, &entry.call, &entry.reply)?;
        self.path.push(CallPlace {
            partition: p,
            index,
        })?;
        self.made[p] = index + 1;
        let first = advice.first(&self.judge, logs, self.made.as_slice(), p);
        self.choices.push(Choice { first, tried: 0 })?;
        Ok(())
    }

    /// Records that the partition to try next can't continue to an order.
    pub(crate) fn pass(&mut self, config: &Config, logs: &[OwnLog])
        requires walk { IsWalk config.now logs.now self.old }
        requires tried { HasNoWayNext config.now logs.now self.old }
        ensures { IsWalk config.now logs.now self.new }
    {
        if let Some(choice) = self.choices.last_mut() {
            choice.tried += 1;
        }
    }

    /// Goes back before the last call, whose partition can't continue to an order. Returns whether there was one.
    pub(crate) fn go_back(
        &mut self,
        alloc: Global,
        config: &Config,
        logs: &[OwnLog],
    ) -> Result<bool, OutOfMemory>
        requires walk { IsWalk config.now logs.now self.old }
        requires none { ¬ Ends config.now logs.now self.old.judge.log }
        ensures walk { IfOk result (λ is. IsTrue is → IsWalk config.now logs.now self.new) }
        ensures none { IfOk result (λ is. ¬ IsTrue is → HasNoOrder config.now logs.now) }
    {
        let Some(last) = self.path.pop() else {
            return Ok(false);
        };
        let _ = self.choices.pop();
        self.made[last.partition] -= 1;
        self.judge = judge_at(alloc, config, logs, self.path.as_slice())?;
        self.pass(config, logs);
        Ok(true)
    }
}

/// A count of 0 for each partition.
fn no_calls(alloc: Global, partitions: usize) -> Result<Vec<usize>, OutOfMemory>
    ensures { IfOk result (λ made. made.items ≡ replicate partitions 0) }
{
    let mut made = Vec::new(alloc);
    made.resize(partitions, 0)?;
    Ok(made)
}
