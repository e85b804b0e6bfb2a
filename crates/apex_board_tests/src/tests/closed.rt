//! A board that is closed, or that isn't made because memory runs out, returns every block to its heap.
use crate::tests::boards;
use crate::tests::boards::holds;
use crate::tests::limits::answers;
use crate::tests::module::{Module, config_of};
use apex_board::Board;
use apex_types::OutOfMemory;
use linked_list_allocator::LocalHeap;
use std::alloc::{AllocGlobal, Allocator};
use std::process::Abort;
use std::sync::Wait;
use std::test::Fail;

/// More bytes than a board of a module at the limits takes for these rounds.
const HEAP: usize = 268_435_456;

/// The rounds of calls before a board is closed, with all their messages in the queues.
const ROUNDS: u32 = 9;

/// Heaps of up to this number times 256 bytes have room for the board of the smallest example.
const SIZES: usize = 1000;

fn serves_rounds<A: Allocator, R: Abort + Wait>(
    rt: &R,
    board: &mut Board<A>,
    module: Module,
) -> Result<(), OutOfMemory> {
    for round in 0..ROUNDS {
        answers(rt, board, module, round)?;
    }
    Ok(())
}

fn gives_back<R: AllocGlobal + Abort + Wait>(rt: &R, module: Module) -> Result<(), Fail> {
    let heap = LocalHeap::new(rt.alloc(), HEAP)?;
    let (mut board, observers) = Board::with_observers(rt, &heap, config_of(rt, module)?)?;
    let served = serves_rounds(rt, &mut board, module);
    holds(rt, heap.used() > 0, 0);
    board.close(rt);
    drop(observers);
    holds(rt, heap.used() == 0, 1);
    Ok(served?)
}

#[test]
fn closed_boards_at_the_limits(rt: HostRuntime) -> Result<(), Fail> {
    for queuing in [0, 32, 64] {
        gives_back(&rt, Module { queuing, at: 0 })?;
    }
    Ok(())
}

// Whether a board is made in a heap of this size; it is then closed, and nothing is left of it.
fn is_made_in<R: AllocGlobal + Abort + Wait>(rt: &R, size: usize) -> Result<bool, Fail> {
    let heap = LocalHeap::new(rt.alloc(), size)?;
    let is_made = match Board::with_observers(rt, &heap, boards::config_of(rt)?) {
        Ok((board, observers)) => {
            board.close(rt);
            drop(observers);
            true
        }
        Err(_refused) => false,
    };
    holds(rt, heap.used() == 0, 0);
    Ok(is_made)
}

#[test]
fn refused_boards_in_heaps_of_all_sizes(rt: HostRuntime) -> Result<(), Fail> {
    for size in 1..SIZES {
        if is_made_in(&rt, size * 256)? {
            holds(&rt, size > 1, 0);
            return Ok(());
        }
    }
    panic!(rt; "no heap is large enough");
}
