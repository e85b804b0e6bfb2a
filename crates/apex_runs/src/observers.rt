//! Compares what the observers of a run show with the samples of a run on ports.
ghost use Rattle.std.specs.Prelude.{◌≡◌, map, IfOk, IfErr};
ghost use Rattle.apex_observers.specs.Published.{last_of};
ghost use Rattle.apex_ports.specs.Noted.{IsSampleBy};
ghost use Rattle.apex_runs.specs.Observers.{ShowSamples, IsReadFault};

use apex_observers::{Observer, Sampled};
use apex_ports::{Ports, RunFault, SampleRef};
use apex_texts::Fault;
use apex_types::Moment;
use std::alloc::Allocator;

/// Compares what the observers of the sampling channels show, in the channels' order, with the channels' samples.
pub(crate) fn compare<A: Allocator, B: Allocator>(
    ports: &Ports<B>,
    observers: &mut [Observer<A>],
) -> Result<(), Fault>
    ensures shown { IfOk result (λ _.
        ShowSamples ports.now.config ports.now.history observers.new) }
    ensures channels { map (λ known. known.channel) observers.new
        ≡ map (λ known. known.channel) observers.old }
    ensures fault { IfErr result IsReadFault }
{
    let mut index = 0;
    for c in 0..ports.config().channels() {
        if !ports.config().channel(c).kind.is_queuing() {
            if index >= observers.len() {
                return Err(Fault::Run(RunFault::ResultsDiffer));
            }
            compare_read(&mut observers[index], ports.last_sample(c))?;
            index += 1;
        }
    }
    Ok(())
}

/// Compares what one observer shows with the sample of its channel.
fn compare_read<A: Allocator>(
    observer: &mut Observer<A>,
    sample: Option<SampleRef<'_>>,
) -> Result<(), Fault>
    ensures channel { observer.new.channel ≡ observer.old.channel }
    ensures shown { IfOk result (λ _. IsSampleBy (last_of observer.new.writes) sample.entry) }
    ensures fault { IfErr result IsReadFault }
{
    match (observer.read(Moment(0), 0), sample) {
        (Sampled::Gone, _) => Err(Fault::Gone),
        (Sampled::Empty, None) => Ok(()),
        (Sampled::Sample { message, at, .. }, Some(sample)) => {
            if message.bytes() == sample.message && at == sample.at {
                Ok(())
            } else {
                Err(Fault::Run(RunFault::ResultsDiffer))
            }
        }
        _ => Err(Fault::Run(RunFault::ResultsDiffer)),
    }
}
