//! Which partition to try first. Only how soon an order is found depends on it.
use crate::answer::{CallPlace, OwnLog};
use crate::bounds::{Advance, Bounds};
use crate::channel_ways::ChannelWays;
use crate::log_reader::LogReader;
use crate::messages::sent_messages;
use apex_judge::Judge;
use apex_module::Config;
use apex_ports::Entry;
use apex_types::Moment;
use std::alloc::{AllocError, Global};

/// What the logs say about the order before any call is tried: how far each call advances an end of a channel, and how
/// far the other end may be when a call is made that shows it.
#[derive(Drop)]
pub(crate) struct Advice {
    /// For each partition, what each of its calls does.
    advances: Vec<Vec<Option<Advance>>>,
    bounds: Bounds,
    /// Which calls keep a way for the other calls of their channel.
    ways: ChannelWays,
}

impl Advice {
    /// The advice of these logs.
    pub(crate) fn new(
        alloc: Global,
        config: &Config,
        logs: &[OwnLog],
    ) -> Result<Advice, AllocError> {
        let sent = sent_messages(alloc, config, logs)?;
        let mut advice = Advice {
            advances: Vec::new(alloc),
            bounds: Bounds::new(alloc, config)?,
            ways: ChannelWays::unknown(alloc),
        };
        for p in 0..config.partitions() {
            advice.read_log(alloc, config, logs, sent.as_slice(), p)?;
        }
        Ok(advice)
    }

    /// Reads the log of the next partition.
    fn read_log(
        &mut self,
        alloc: Global,
        config: &Config,
        logs: &[OwnLog],
        sent: &[Vec<CallPlace>],
        p: usize,
    ) -> Result<(), AllocError> {
        let mut advances = Vec::new(alloc);
        if let Some(log) = logs.get(p) {
            let mut reader = LogReader::new(alloc, config, p)?;
            for (index, entry) in log.entries.iter().enumerate() {
                let one = reader.read(config, logs, sent, &mut self.bounds, index, entry)?;
                advances.push(one)?;
            }
        }
        self.advances.push(advances)?;
        Ok(())
    }

    /// Learns from which points of each channel its calls can be made to the end. Without memory for it nothing changes.
    pub(crate) fn learn_ways(&mut self, alloc: Global, config: &Config, logs: &[OwnLog]) {
        if let Ok(ways) = ChannelWays::new(alloc, config, logs) {
            self.ways = ways;
        }
    }

    /// Whether the calls that use the channel can all be made; `None` if that isn't known.
    pub(crate) fn has_way(&self, channel: usize) -> Option<bool> {
        self.ways.has_way(channel)
    }

    /// The partition to try first after `made` calls of each: starting with the one that made the last call, upward and
    /// cyclically, the first whose next call gets the logged reply and hinders no call to come.
    pub(crate) fn first(
        &self,
        judge: &Judge,
        logs: &[OwnLog],
        made: &[usize],
        last: usize,
    ) -> usize {
        if self.ways.are_known() {
            return self.earliest(judge, logs, made, last);
        }
        let partitions = judge.config().partitions();
        for p in last..partitions {
            if self.is_good(judge, logs, made, p) {
                return p;
            }
        }
        for p in 0..partitions {
            if self.is_good(judge, logs, made, p) {
                return p;
            }
        }
        last
    }

    /// Whether the partition's next call gets the logged reply and hinders no call to come.
    pub(crate) fn is_good(&self, judge: &Judge, logs: &[OwnLog], made: &[usize], p: usize) -> bool {
        if p >= judge.config().partitions() {
            return false;
        }
        let Some(entry) = next_entry(logs, made, p) else {
            return false;
        };
        let is_free = match self.ways.keep_way(judge, logs, made, p, entry) {
            Some(keeps) => keeps,
            None => self.hindered(made, p).is_none(),
        };
        is_free && judge.agrees(p, entry.at, &entry.call, &entry.reply)
    }

    /// The partition whose next call is the earliest of those that get the logged reply and hinder no call to come;
    /// starting with the one that made the last call, if there are several.
    fn earliest(&self, judge: &Judge, logs: &[OwnLog], made: &[usize], last: usize) -> usize {
        let partitions = judge.config().partitions();
        let mut best = None;
        for p in last..partitions {
            best = self.earlier(judge, logs, made, best, p);
        }
        for p in 0..partitions {
            best = self.earlier(judge, logs, made, best, p);
        }
        match best {
            Some((_, p)) => p,
            None => last,
        }
    }

    /// The partition with the moment of its next call, if that is earlier than the best and good.
    fn earlier(
        &self,
        judge: &Judge,
        logs: &[OwnLog],
        made: &[usize],
        best: Option<(Moment, usize)>,
        p: usize,
    ) -> Option<(Moment, usize)> {
        let Some(entry) = next_entry(logs, made, p) else {
            return best;
        };
        if let Some((at, _)) = best {
            if at <= entry.at {
                return best;
            }
        }
        if self.is_good(judge, logs, made, p) {
            return Some((entry.at, p));
        }
        best
    }

    /// The first call to come that the partition's next call hinders.
    pub(crate) fn hindered(&self, made: &[usize], p: usize) -> Option<CallPlace> {
        let advance = self.advance_of(p, *made.get(p)?)?;
        for bound in self.bounds.on(advance) {
            if bound.hinders(made, advance) {
                return Some(bound.place);
            }
        }
        None
    }

    fn advance_of(&self, p: usize, index: usize) -> Option<Advance> {
        *self.advances.get(p)?.get(index)?
    }
}

/// The partition's next entry.
fn next_entry<'a>(logs: &'a [OwnLog], made: &[usize], p: usize) -> Option<&'a Entry> {
    let index = *made.get(p)?;
    logs.get(p)?.entries.get(index)
}
