//! Runs orders of scripts' calls.
ghost use Rattle.std.specs.Prelude.{◌≡◌, ◌++◌, [], length, IfOk};
ghost use Rattle.apex_orders.specs.Orders.{history_of, next_entries};

use crate::order::Order;
use crate::step::make_next;
use apex_module::Config;
use apex_ports::{Ports, SavedPorts, Script};
use apex_types::{MESSAGE_LIMIT, OutOfMemory};
use std::alloc::Global;
use std::marker::Model;

/// Ports on which orders of scripts' calls are run, one after another. A contract sees the ports.
#[derive(Drop)]
pub struct Replayer {
    ports: Ports,
    /// The ports before the first call.
    start: SavedPorts,
    /// The place for the message of a reply.
    buffer: [u8; MESSAGE_LIMIT],
}

impl Model for Replayer {
    ghost use Rattle.std.specs.Prelude.{◌≡◌, []};
    ghost use Rattle.apex_ports.specs.PortsView.{PortsView};
    ghost use Rattle.apex_orders.specs.Prelude.{IsSound};

    ghost Value = { PortsView };

    ghost view = { λ one. one.ports };

    ghost invariant = { λ one. (one.start.config ≡ one.ports.config)
        × (one.start.history ≡ []) × IsSound one.ports.config one.ports.history };
}

impl Replayer {
    /// New ports of the configuration.
    pub fn new(alloc: Global, config: &Config) -> Result<Replayer, OutOfMemory>
        ensures config { IfOk result (λ one. one.config ≡ config.now) }
        ensures history { IfOk result (λ one. one.history ≡ []) }
    {
        let ports = Ports::new(alloc, config.copy()?)?;
        let start = ports.save(alloc)?;
        Ok(Replayer {
            ports,
            start,
            buffer: [0; MESSAGE_LIMIT],
        })
    }

    /// Sets the ports back to new ones, and makes the calls of the scripts in this order. It takes no memory.
    pub fn run(&mut self, scripts: &[Script], order: &Order)
        requires { length scripts.now ≡ length self.old.config.partitions }
        ensures config { self.new.config ≡ self.old.config }
        ensures history { self.new.history
            ≡ history_of self.old.config scripts.now order.now }
    {
        self.ports.restore(&self.start);
        for p in order.partitions() {
            self.advance(scripts, *p);
        }
    }

    /// Makes the next call of the partition's script, if one is left. A number that is no partition's has no script.
    fn advance(&mut self, scripts: &[Script], p: usize)
        requires { length scripts.now ≡ length self.old.config.partitions }
        ensures config { self.new.config ≡ self.old.config }
        ensures history { self.new.history ≡ self.old.history
            ++ next_entries self.old.config scripts.now self.old.history p }
    {
        if p < scripts.len() {
            let _ = make_next(&mut self.ports, scripts, p, &mut self.buffer);
        }
    }

    /// The ports after the last order.
    pub fn ports(&self) -> &Ports
        ensures { result.now ≡ self.now }
    {
        &self.ports
    }
}
