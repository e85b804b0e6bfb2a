//! What a state shows to each partition: all that the rows and the replies of its calls depend on.
ghost use Rattle.std.specs.Prelude.{◌≡◌, ℕ, ◌<◌, ◌≤◌, ◌^◌, ◌-◌, [], length, slice_get, Some, None, IfSome};
ghost use Rattle.std.proofs.Common.{ap};
ghost use Rattle.std.specs.Option.{option_copied};
ghost use Rattle.apex_module.specs.Configuration.{Configuration, port_of, ports_of};
ghost use Rattle.apex_ports.specs.Kept.{IsCurrent};
ghost use Rattle.apex_ports.specs.Noted.{IsSampleBy};
ghost use Rattle.apex_ports.specs.Ports.{IsIdentifier};
ghost use Rattle.apex_ports.specs.Seen.{Seen, seen, waiting_of, sample_of};

use crate::noted::SampleRef;
use crate::state::State;
use apex_module::{Config, Port};
use apex_types::{MESSAGE_LIMIT, Mode, Validity};
use std::alloc::Allocator;

/// A state of the ports of a configuration. It shows each partition its mode and, for each of its ports, whether it is
/// created, what its last read showed, and what its channel holds.
pub trait View {
    // what holds for a state of the configuration
    ghost is_kept: { Configuration → Self → Type 0 };

    // what the state shows to a partition
    ghost seen: { Configuration → Self → ℕ → Seen };

    /// The partition's mode.
    fn mode(&self, config: &Config, partition: usize) -> Mode
        requires partition { partition < length config.now.partitions }
        requires kept { is_kept config.now self.now }
        ensures { result ≡ (seen config.now self.now partition).mode };

    /// Whether a configured port is created.
    fn is_created(&self, config: &Config, partition: usize, id: u32) -> bool
        requires partition { partition < length config.now.partitions }
        requires kept { is_kept config.now self.now }
        requires identifier { IsIdentifier (ports_of config.now partition) id }
        ensures { result ≡ (seen config.now self.now partition).created id };

    /// What the last read of a configured port showed.
    fn last_validity(&self, config: &Config, partition: usize, id: u32) -> Validity
        requires partition { partition < length config.now.partitions }
        requires kept { is_kept config.now self.now }
        requires identifier { IsIdentifier (ports_of config.now partition) id }
        ensures { result ≡ (seen config.now self.now partition).last id };

    /// The number of messages that wait on the channel of the port with the identifier.
    fn waiting_count(&self, config: &Config, partition: usize, id: u32, port: &Port) -> usize
        requires kept { is_kept config.now self.now }
        requires port { port_of config.now partition id ≡ Some port.now }
        requires linked { port.now.channel < length config.now.channels }
        ensures count { result ≡ length ((seen config.now self.now partition).waiting id) }
        ensures few { result ≤ 2 ^ 32 - 1 };

    /// The oldest message that waits on the channel of the port with the identifier.
    fn oldest(&self, config: &Config, partition: usize, id: u32, port: &Port) -> Option<&[u8]>
        requires kept { is_kept config.now self.now }
        requires port { port_of config.now partition id ≡ Some port.now }
        requires linked { port.now.channel < length config.now.channels }
        ensures message { let waiting = (seen config.now self.now partition).waiting id in
            option_copied result ≡ slice_get waiting 0 }
        ensures short { IfSome result (λ message. length message.now ≤ MESSAGE_LIMIT) };

    /// The sample written last into the channel of the port with the identifier.
    fn sample(&self, config: &Config, partition: usize, id: u32, port: &Port) -> Option<SampleRef>
        requires kept { is_kept config.now self.now }
        requires port { port_of config.now partition id ≡ Some port.now }
        requires linked { port.now.channel < length config.now.channels }
        ensures sample { IsSampleBy ((seen config.now self.now partition).sample id) result }
        ensures short { IfSome result (λ sample. length sample.message.now ≤ MESSAGE_LIMIT) };

    // if there is no port, nothing is seen
    ghost nothing_waits: { (config : Configuration) (state : Self) (p id : ℕ) →
        port_of config p id ≡ None → (seen config state p).waiting id ≡ [] };

    ghost nothing_written: { (config : Configuration) (state : Self) (p id : ℕ) →
        port_of config p id ≡ None → (seen config state p).sample id ≡ None };
}

impl<A: Allocator> View for State<A> {
    ghost is_kept = { IsCurrent };

    ghost seen = { λ config state partition. seen config state.history partition };

    ghost nothing_waits = { λ config state p id none. ap (waiting_of config state.history) none };

    ghost nothing_written = { λ config state p id none. ap (sample_of config state.history) none };

    fn mode(&self, config: &Config, partition: usize) -> Mode {
        self.partitions[partition].mode
    }

    fn is_created(&self, config: &Config, partition: usize, id: u32) -> bool {
        self.partitions[partition].is_created(id)
    }

    fn last_validity(&self, config: &Config, partition: usize, id: u32) -> Validity {
        self.partitions[partition].last_validity(id)
    }

    fn waiting_count(&self, config: &Config, partition: usize, id: u32, port: &Port) -> usize {
        self.channels[port.channel].waiting_count()
    }

    fn oldest(&self, config: &Config, partition: usize, id: u32, port: &Port) -> Option<&[u8]> {
        self.channels[port.channel].waiting(0)
    }

    fn sample(&self, config: &Config, partition: usize, id: u32, port: &Port) -> Option<SampleRef> {
        self.channels[port.channel].sample()
    }
}
