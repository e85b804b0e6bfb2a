//! What an allocator refuses by its plan, and what it counts.
use super::holds;
use refusing::Switch;
use std::alloc::{AllocError, Allocator};

// Three vectors of one byte each, so three requests.
fn three_vectors<A: Allocator + Copy>(alloc: A) -> Result<u8, AllocError> {
    let mut sum = 0u8;
    for byte in [1u8, 2, 3] {
        let mut bytes = Vec::new(alloc);
        bytes.push(byte)?;
        sum = sum.wrapping_add(bytes[0]);
    }
    Ok(sum)
}

// Makes three requests by the plan: whether they are granted, and how many are then asked for and refused.
fn is_planned<A: Allocator>(switch: &Switch<A>, sum: Option<u8>, asked: u64, refused: u64) -> bool {
    three_vectors(switch).ok() == sum && switch.requests() == asked && switch.refused() == refused
}

#[test]
fn refuses_by_plan(rt: HostRuntime) {
    let switch = Switch::new(rt.alloc());
    holds(&rt, is_planned(&switch, Some(6), 3, 0), 3);
    for pass in 0..3u64 {
        switch.refuse_after(pass, 1);
        holds(&rt, is_planned(&switch, None, pass + 1, 1), pass);
    }
    switch.refuse_after(3, 1);
    holds(&rt, is_planned(&switch, Some(6), 3, 0), 4);
}

#[test]
fn refuses_all_until_allowed(rt: HostRuntime) -> Result<(), AllocError> {
    let switch = Switch::new(rt.alloc());
    let mut bytes = Vec::with_capacity(&switch, 1)?;
    switch.refuse_all();
    bytes.push_reserved(7u8);
    holds(&rt, bytes.reserve(100).is_err() && switch.refused() == 1, 0);
    switch.allow_all();
    holds(&rt, bytes.reserve(100).is_ok() && switch.requests() == 1, 1);
    holds(&rt, bytes.first() == Some(&7), 2);
    Ok(())
}

fn sent<T: Send>(value: T) -> T {
    value
}

// A vector of a switch may go to another thread. This tests the types.
#[test]
fn vector_is_send(rt: HostRuntime) -> Result<(), AllocError> {
    let switch = Switch::new(rt.alloc());
    let mut bytes = Vec::new(&switch);
    bytes.push(7u8)?;
    holds(&rt, sent(bytes).len() == 1, 0);
    Ok(())
}
