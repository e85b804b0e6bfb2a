//! Four observers in threads of their own, beside a publisher.
use super::{holds, message, write};
use apex_observers::{NoPlace, Observer, Publisher, Sampled};
use apex_types::Moment;
use std::process::Abort;
use std::sync::Wait;
use std::test::Fail;
use std::thread;
use std::thread::Threads;

/// The number of reads of each observer.
const READS: u64 = 100_000;

/// The number of samples that are written, at the moments from 1 on.
const WRITES: u64 = 10_000;

// The moment of the sample that is shown, which was written with the bytes of its moment.
fn moment_shown<R: Abort>(rt: &R, observer: &mut Observer) -> u64 {
    let Sampled::Sample {
        message: shown,
        at,
        ..
    } = observer.read(Moment(0), 0)
    else {
        panic!(rt; "a sample was written");
    };
    holds(rt, 1 <= at.0 && at.0 <= WRITES, at.0);
    holds(rt, shown == message(at.0), at.0);
    at.0
}

fn read_all<R: Abort>(rt: &R, observer: &mut Observer) {
    let mut last = 0;
    for _ in 0..READS {
        let at = moment_shown(rt, observer);
        holds(rt, last <= at, at);
        last = at;
    }
}

fn write_all<R: Wait + Abort>(rt: &R, publisher: &mut Publisher) {
    for at in 2..WRITES + 1 {
        write(rt, publisher, at, at);
    }
}

fn reads_beside_writes<R: Threads + Wait + Abort + Sync>(
    rt: &R,
    publisher: &mut Publisher,
    observers: &mut [Observer],
) {
    write(rt, publisher, 1, 1);
    thread::join(
        rt,
        || write_all(rt, publisher),
        || thread::for_each_mut(rt, observers, 4, &|_, observer| read_all(rt, observer)),
    );
    for observer in observers {
        holds(rt, moment_shown(rt, observer) == WRITES, 0);
    }
}

fn four_observers(publisher: &mut Publisher) -> Result<[Observer; 4], NoPlace> {
    let one = publisher.observer()?;
    let two = publisher.observer()?;
    let three = publisher.observer()?;
    Ok([one, two, three, publisher.observer()?])
}

#[test]
fn four_observers_beside_a_writer(rt: HostRuntime) -> Result<(), Fail> {
    let mut publisher = Publisher::new(&rt, rt.alloc(), 4)?;
    let observers = four_observers(&mut publisher);
    if let Ok(mut observers) = observers {
        reads_beside_writes(&rt, &mut publisher, &mut observers);
        publisher.close(&rt);
        return Ok(());
    }
    publisher.close(&rt);
    Err("there are four places")?
}
