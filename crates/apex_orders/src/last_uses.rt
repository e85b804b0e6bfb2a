//! The last calls of a script that name a channel.
ghost use Rattle.std.specs.Prelude.{◌≡◌, ◌<◌, ◌≤◌, ◌+◌, if◌then◌else◌, ℕ, List, length, slice_get, Some, IfOk, IsTrue};
ghost use Rattle.apex_orders.specs.Prelude.{Call, Moment, Configuration};
ghost use Rattle.apex_orders.specs.LastUses.{AreLastUses, AreLastUsesBelow, AreOfScripts, IsQuietFrom};

use crate::commuting::{channel_named, is_change};
use apex_module::Config;
use apex_ports::Script;
use apex_types::{Call, OutOfMemory};
use std::alloc::Global;

/// The number of calls of a script up to the last that names a channel, and up to the last that can change it.
#[derive(Clone, Copy)]
pub(crate) struct LastUse {
    pub(crate) named: usize,
    pub(crate) changed: usize,
}

impl LastUse {
    /// Includes the call before this count, which names the channel.
    fn followed_by(self, is_change: bool, count: usize) -> LastUse
        ensures named { result.named ≡ count }
        ensures changed { result.changed ≡ (if is_change then count else self.changed) }
    {
        LastUse {
            named: count,
            changed: if is_change { count } else { self.changed },
        }
    }

    /// The count up to which calls can change the channel or, if `named`, name it.
    fn count(self, named: bool) -> usize
        ensures { result ≡ (if named then self.named else self.changed) }
    {
        if named { self.named } else { self.changed }
    }
}

/// The last uses of every channel by one script.
#[derive(Drop)]
pub(crate) struct LastUses {
    pub(crate) channels: Vec<LastUse>,
}

impl LastUses {
    /// The last uses by the partition's script.
    fn new(
        alloc: Global,
        config: &Config,
        p: usize,
        script: &Script,
    ) -> Result<LastUses, OutOfMemory>
        ensures uses { IfOk result (λ uses. AreLastUses config.now p script.now uses) }
        ensures short { length script.now ≤ usize.MAX }
    {
        let unused = LastUse {
            named: 0,
            changed: 0,
        };
        let calls = script.calls.len();
        let channels = vec![in alloc; unused; config.channels()]?;
        let mut uses = LastUses { channels };
        for k in 0..calls {
            let (_, call) = &script.calls[k];
            uses.add(config, p, call, k);
        }
        Ok(uses)
    }

    /// Includes the call at an index, which is beyond all calls so far.
    fn add(&mut self, config: &Config, p: usize, call: &Call, k: usize)
        requires { k < usize.MAX }
        ensures { (script : List (Moment × Call)) (at : Moment)
            → AreLastUsesBelow config.now p script k self.old
            → slice_get script k ≡ Some (at, call.now)
            → AreLastUsesBelow config.now p script (k + 1) self.new }
    {
        let Some(channel) = channel_named(config, p, call) else {
            return;
        };
        let Some(last) = self.channels.get(channel) else {
            return;
        };
        self.channels[channel] = last.followed_by(is_change(call), k + 1);
    }

    /// Whether no call from an index on can change the channel or, if `named`, names it.
    pub(crate) fn are_over(&self, channel: usize, named: bool, made: usize) -> bool
        ensures { (config : Configuration) (p : ℕ) (script : List (Moment × Call))
            → AreLastUses config p script self.now → IsTrue result
            → IsQuietFrom config p script channel named made }
    {
        match self.channels.get(channel) {
            None => false,
            Some(last) => {
                if last.count(named) > made {
                    return false;
                }
                true
            }
        }
    }
}

/// The last uses by each script.
pub(crate) fn last_uses(
    alloc: Global,
    config: &Config,
    scripts: &[Script],
) -> Result<Vec<LastUses>, OutOfMemory>
    ensures { IfOk result (λ uses. AreOfScripts config.now scripts.now uses.items) }
{
    let mut uses = Vec::new(alloc);
    for p in 0..scripts.len() {
        let script = &scripts[p];
        let one = LastUses::new(alloc, config, p, script)?;
        uses.push(one)?;
    }
    Ok(uses)
}
