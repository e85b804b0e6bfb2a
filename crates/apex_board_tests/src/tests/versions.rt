//! Observers of one channel, from outside; also those of all channels, and an allocator that refuses.
ghost use Rattle.std.specs.Prelude.{◌≡◌};

mod channels;
mod switch;
mod threads;

use apex_observers::{NoPlace, Observer, Publisher, Sampled};
use apex_types::Validity::{Invalid, Valid};
use apex_types::{Message, Moment, OutOfMemory, Validity};
use refusing::Switch;
use std::alloc::{AllocGlobal, Allocator};
use std::process::Abort;
use std::sync::Wait;
use std::test::Fail;

/// More allocations than a publisher makes.
const ALLOCATION_LIMIT: u64 = 40;

/// The number of writes of the longest history, at the moments from 0 on.
const WRITES: u64 = 100_000;

// Fails unless `is_so` holds; the number identifies the case.
fn holds(rt: &impl Abort, is_so: bool, case: u64) {
    assert!(rt; is_so, "case {case}");
}

// The message of a number is its eight bytes.
fn message(number: u64) -> Message {
    match Message::from_bytes(&number.to_be_bytes()) {
        Ok(message) => message,
        Err(_) => Message::empty(),
    }
}

// The message of the number is published.
fn write<A: Allocator, R: Wait + Abort>(rt: &R, publisher: &mut Publisher<A>, number: u64, at: u64)
    ensures { publisher.new.channel ≡ publisher.old.channel }
{
    let published = publisher.publish(rt, &message(number), Moment(at));
    holds(rt, published.is_ok(), at);
}

// The observer shows this at the moment.
fn shows<A: Allocator>(rt: &impl Abort, observer: &mut Observer<A>, now: u64, wanted: &Sampled)
    ensures { observer.new.channel ≡ observer.old.channel }
{
    let shown = observer.read(Moment(now), 0);
    holds(rt, shown == *wanted, now);
}

// At the moment and with the refresh period of `read`, the observer shows the message of the number and of the moment of
// `written`.
fn shows_write<A: Allocator>(
    rt: &impl Abort,
    observer: &mut Observer<A>,
    read: (u64, u64),
    written: (u64, u64),
    validity: Validity,
)
    ensures { observer.new.channel ≡ observer.old.channel }
{
    let ((now, refresh), (number, at)) = (read, written);
    let shown = observer.read(Moment(now), refresh);
    let wanted = Sampled::Sample {
        message: message(number),
        at: Moment(at),
        validity,
    };
    holds(rt, shown == wanted, now);
}

fn shows_the_last_write<A: Allocator, R: Wait + Abort>(
    rt: &R,
    publisher: &mut Publisher<A>,
) -> Result<(), NoPlace> {
    let mut observer = publisher.observer()?;
    shows(rt, &mut observer, 0, &Sampled::Empty);
    write(rt, publisher, 1, 7);
    shows_write(rt, &mut observer, (7, 0), (1, 7), Valid);
    shows_write(rt, &mut observer, (8, 0), (1, 7), Invalid);
    shows_write(rt, &mut observer, (57, 50), (1, 7), Valid);
    shows_write(rt, &mut observer, (58, 50), (1, 7), Invalid);
    write(rt, publisher, 2, u64::MAX);
    let last = (u64::MAX, u64::MAX);
    shows_write(rt, &mut observer, last, (2, u64::MAX), Valid);
    Ok(())
}

#[test]
fn the_last_write_is_shown(rt: HostRuntime) -> Result<(), Fail> {
    let mut publisher = Publisher::new(&rt, rt.alloc(), 1)?;
    let shown = shows_the_last_write(&rt, &mut publisher);
    publisher.close(&rt);
    Ok(shown?)
}

fn never_goes_back<A: Allocator, R: Wait + Abort>(
    rt: &R,
    publisher: &mut Publisher<A>,
) -> Result<(), NoPlace> {
    let mut observer = publisher.observer()?;
    let none = publisher.receipt();
    write(rt, publisher, 1, 1);
    let one = publisher.receipt();
    write(rt, publisher, 2, 2);
    observer.learn(publisher.receipt());
    shows_write(rt, &mut observer, (2, 0), (2, 2), Valid);
    observer.learn(one.copy());
    observer.learn(none);
    shows_write(rt, &mut observer, (2, 0), (2, 2), Valid);
    write(rt, publisher, 3, 1);
    observer.learn(one);
    shows_write(rt, &mut observer, (2, 0), (3, 1), Invalid);
    Ok(())
}

#[test]
fn receipts_in_any_order_never_lead_back(rt: HostRuntime) -> Result<(), Fail> {
    let mut publisher = Publisher::new(&rt, rt.alloc(), 1)?;
    let shown = never_goes_back(&rt, &mut publisher);
    publisher.close(&rt);
    Ok(shown?)
}

#[test]
fn an_observer_outlives_its_channel(rt: HostRuntime) -> Result<(), Fail> {
    let mut publisher = Publisher::new(&rt, rt.alloc(), 1)?;
    let made = publisher.observer();
    write(&rt, &mut publisher, 1, 1);
    let receipt = publisher.receipt();
    publisher.close(&rt);
    let mut observer = made?;
    shows(&rt, &mut observer, 1, &Sampled::Gone);
    observer.learn(receipt);
    shows(&rt, &mut observer, 1, &Sampled::Gone);
    Ok(())
}

#[test]
fn places_are_given_back(rt: HostRuntime) -> Result<(), Fail> {
    let mut publisher = Publisher::new(&rt, rt.alloc(), 2)?;
    let first = publisher.observer();
    let second = publisher.observer();
    holds(&rt, publisher.observer().is_err(), 0);
    drop(second);
    holds(&rt, publisher.observer().is_ok() && first.is_ok(), 1);
    publisher.close(&rt);
    Ok(())
}

// One observer reads after each write, and the other only after the last.
fn writes_without_memory<A: Allocator, R: Wait + Abort>(
    rt: &R,
    publisher: &mut Publisher<A>,
) -> Result<(), NoPlace> {
    let mut late = publisher.observer()?;
    let mut observer = publisher.observer()?;
    for turn in 0..WRITES {
        write(rt, publisher, turn, turn);
        observer.learn(publisher.receipt());
        shows_write(rt, &mut observer, (turn, 0), (turn, turn), Valid);
    }
    let last = WRITES - 1;
    shows_write(rt, &mut late, (last, 0), (last, last), Valid);
    shows_write(rt, &mut observer, (u64::MAX, 0), (last, last), Invalid);
    Ok(())
}

// Whether a publisher is made if one request is refused after `pass` others. Once made, it requests no more.
fn is_made<R: AllocGlobal + Wait + Abort>(rt: &R, pass: u64) -> Result<bool, NoPlace> {
    let switch = Switch::new(rt.alloc());
    switch.refuse_after(pass, 1);
    match Publisher::new(rt, &switch, 2) {
        Ok(mut publisher) => {
            holds(rt, switch.refused() == 0, pass);
            switch.refuse_all();
            let shown = writes_without_memory(rt, &mut publisher);
            holds(rt, switch.requests() == 0, pass);
            publisher.close(rt);
            shown?;
            Ok(true)
        }
        Err(OutOfMemory) => {
            holds(rt, switch.refused() == 1, pass);
            Ok(false)
        }
    }
}

#[test]
fn memory_is_taken_when_a_publisher_is_made(rt: HostRuntime) -> Result<(), Fail> {
    for pass in 0..ALLOCATION_LIMIT {
        if is_made(&rt, pass)? {
            holds(&rt, 1 < pass, pass);
            return Ok(());
        }
    }
    panic!(rt; "a publisher asks for fewer allocations");
}
