//! Ports for trying calls.
ghost use Rattle.std.specs.Prelude.{IfOk};
ghost use Rattle.apex_orders.specs.Known.{IsTrialOf};

use apex_module::Config;
use apex_ports::Ports;
use apex_types::{MESSAGE_LIMIT, OutOfMemory};
use std::alloc::Global;

/// Ports on which a call is tried, others to compare them with, and the place for the message of a reply.
#[derive(Drop)]
pub(crate) struct Trial {
    pub(crate) ports: Ports,
    pub(crate) other: Ports,
    pub(crate) buffer: [u8; MESSAGE_LIMIT],
}

impl Trial {
    /// New ports of the configuration.
    pub(crate) fn new(alloc: Global, config: &Config) -> Result<Trial, OutOfMemory>
        ensures { IfOk result (λ trial. IsTrialOf config.now trial) }
    {
        let ports = Ports::new(alloc, config.copy()?)?;
        let other = Ports::new(alloc, config.copy()?)?;
        Ok(Trial {
            ports,
            other,
            buffer: [0; MESSAGE_LIMIT],
        })
    }
}
