//! The samples that a board's sampling channels hold.
ghost use Rattle.std.specs.Prelude.{◌≡◌, ◌<◌, ◌∷◌, ◌++◌, [], length, IfOk};
ghost use Rattle.apex_board.specs.Prelude.{entry_of, reply_to};
ghost use Rattle.apex_board.specs.Samples.{AreSamples};

use apex_module::Config;
use apex_ports::Ports;
use apex_types::{Call, Moment, Sample};
use std::alloc::{AllocError, Allocator};

/// The samples before the first call: no channel holds one.
pub(crate) fn new_samples<A: Allocator + Copy>(
    alloc: A,
    config: &Config,
) -> Result<Vec<Option<Sample>, A>, AllocError>
    ensures { IfOk result (λ samples. AreSamples config.now [] samples.items) }
{
    let mut samples = Vec::with_capacity(alloc, config.channels())?;
    for _ in 0..config.channels() {
        samples.push(None)?;
    }
    Ok(samples)
}

/// Replaces the sample that a call writes, before the ports answer the call.
pub(crate) fn put_sample<A: Allocator>(
    samples: &mut [Option<Sample>],
    ports: &Ports<A>,
    partition: usize,
    at: Moment,
    call: &Call,
)
    requires partition { partition < length ports.now.config.partitions }
    requires samples { AreSamples ports.now.config ports.now.history samples.old }
    ensures { let config = ports.now.config in let history = ports.now.history in
        let reply = reply_to config history partition at call.now in
        AreSamples config (history ++ entry_of partition at call.now reply ∷ []) samples.new }
{
    if let Some((channel, message)) = ports.write_of(partition, call) {
        let message = message.copy();
        samples[channel] = Some(Sample { message, at });
    }
}
