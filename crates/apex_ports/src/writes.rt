//! What a call would write.
ghost use Rattle.std.specs.Prelude.{◌≡◌, ◌<◌, false, length, IfSome, MatchOption};
ghost use Rattle.apex_ports.specs.Kept.{IsCurrent};
ghost use Rattle.apex_ports.specs.Ports.{is_queuing};
ghost use Rattle.apex_ports.specs.Writes.{Writes, WritesNothing};

use crate::modes::is_idle;
use crate::state::State;
use crate::table::lookup::configured_port;
use crate::table::sampling::write_row;
use crate::view::View;
use apex_module::Config;
use apex_types::{Call, Message};
use std::alloc::Allocator;

impl<A: Allocator> State<A> {
    /// The channel that a call would write into, with the message.
    pub(crate) fn write_of<'a>(
        &self,
        config: &Config,
        partition: usize,
        call: &'a Call,
    ) -> Option<(usize, &'a Message)>
        requires partition { partition < length config.now.partitions }
        requires current { IsCurrent config.now self.now }
        ensures writes { let history = self.now.history in MatchOption result
            (WritesNothing config.now history partition call.now)
            (λ write. Writes config.now history partition call.now write.0 write.1.now) }
        ensures channel { IfSome result (λ write. write.0 < length config.now.channels) }
        ensures kind { IfSome result (λ write. is_queuing config.now write.0 ≡ false) }
    {
        let Call::WriteSampling { id, message } = call else {
            return None;
        };
        if is_idle(self.mode(config, partition)) {
            return None;
        }
        match write_row(self, config, partition, *id, message.bytes()) {
            Ok(_) => {
                let port = configured_port(config, partition, *id)?;
                Some((port.channel, message))
            }
            Err(_) => None,
        }
    }
}
