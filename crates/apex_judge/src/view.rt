//! What the log shows to each partition.
ghost use Rattle.std.proofs.Common.{ap};
ghost use Rattle.apex_judge.specs.Kept.{IsShown};
ghost use Rattle.apex_judge.specs.Picture.{waiting_at, sample_at};
ghost use Rattle.apex_judge.specs.Shown.{shown};
ghost use Rattle.apex_judge.specs.Steps.{picture_of};

use crate::state::State;
use apex_module::{Config, Port};
use apex_ports::SampleRef;
use apex_ports::view::View;
use apex_types::{Mode, Validity};
use std::alloc::Allocator;

impl<A: Allocator> View for State<A> {
    ghost is_kept = { λ config state. IsShown config state.log state };

    ghost seen = { λ config state partition. shown config state.log partition };

    ghost nothing_waits = { λ config state p id none.
        ap (waiting_at (picture_of config state.log)) none };

    ghost nothing_written = { λ config state p id none.
        ap (sample_at (picture_of config state.log)) none };

    #[tactic(auto, using(crate::proofs::Lookups::partition_at))]
    fn mode(&self, config: &Config, partition: usize) -> Mode {
        self.partitions[partition].mode
    }

    fn is_created(&self, config: &Config, partition: usize, id: u32) -> bool {
        self.partitions[partition].is_created(id)
    }

    fn last_validity(&self, config: &Config, partition: usize, id: u32) -> Validity {
        self.partitions[partition].last_validity(id)
    }

    fn waiting_count(&self, config: &Config, partition: usize, id: u32, port: &Port) -> usize {
        self.channels[port.channel].waiting_count()
    }

    #[tactic(auto, using(crate::proofs::Lookups::channel_at))]
    fn oldest(&self, config: &Config, partition: usize, id: u32, port: &Port) -> Option<&[u8]> {
        self.channels[port.channel].oldest()
    }

    fn sample(
        &self,
        config: &Config,
        partition: usize,
        id: u32,
        port: &Port,
    ) -> Option<SampleRef<'_>> {
        match &self.channels[port.channel].sample {
            Some(sample) => Some(SampleRef::of(sample)),
            None => None,
        }
    }
}
