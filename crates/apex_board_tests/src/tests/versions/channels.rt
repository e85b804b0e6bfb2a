//! The publishers of a module's channels.
ghost use Rattle.std.specs.Prelude.{◌≡◌, [], ◌∷◌, None, Some, OnOk};
ghost use Rattle.apex_observers.specs.Published.{Published};

use super::{holds, message, shows_write};
use apex_observers::{ObserverFault, Publishers};
use apex_types::Validity::Valid;
use apex_types::{Moment, OutOfMemory};
use std::alloc::Allocator;
use std::process::Abort;
use std::sync::Wait;
use std::test::Fail;

// A queuing channel and a sampling channel.
fn add_both<A: Allocator + Copy, R: Wait>(
    rt: &R,
    alloc: A,
    publishers: &mut Publishers<A>,
) -> Result<(), OutOfMemory>
    requires { publishers.old ≡ [] }
    ensures { OnOk result ((published : Published)
        × (publishers.new ≡ None ∷ Some published ∷ [])) }
{
    publishers.add_queuing(rt)?;
    publishers.add_sampling(rt, alloc, 1)
}

fn shows_the_write<A: Allocator + Copy, R: Wait + Abort>(
    rt: &R,
    alloc: A,
    publishers: &mut Publishers<A>,
) -> Result<(), ObserverFault>
    requires { (published : Published) × (publishers.old ≡ None ∷ Some published ∷ []) }
{
    let mut observers = publishers.observers(alloc)?;
    let published = publishers.publish(rt, 1, &message(1), Moment(1));
    holds(rt, published.is_ok(), 0);
    for observer in &mut observers {
        shows_write(rt, observer, (1, 0), (1, 1), Valid);
    }
    holds(rt, observers.len() == 1, 1);
    holds(rt, publishers.observers(alloc).is_err(), 2);
    Ok(())
}

#[test]
fn each_sampling_channel_has_a_publisher(rt: HostRuntime) -> Result<(), Fail> {
    let mut publishers = Publishers::new(rt.alloc());
    match add_both(&rt, rt.alloc(), &mut publishers) {
        Ok(()) => {
            let shown = shows_the_write(&rt, rt.alloc(), &mut publishers);
            publishers.close(&rt);
            Ok(shown?)
        }
        Err(refused) => {
            publishers.close(&rt);
            Err(refused)?
        }
    }
}
