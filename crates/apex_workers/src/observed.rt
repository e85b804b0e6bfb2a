//! The board of a run behind a lock, with its observers.
ghost use Rattle.std.specs.Prelude.{◌≡◌, [], IfOk};
ghost use Rattle.apex_observers.specs.Channels.{AreObservers};
ghost use Rattle.apex_workers.specs.Facts.{HasBoardFacts};

use crate::locked::{ask_lent, board_facts};
use apex_board::Board;
use apex_module::Config;
use apex_observers::{Observer, ObserverFault};
use apex_threads::{AskFault, SharedBoard};
use apex_types::{Call, Moment, Reply};
use std::alloc::Allocator;
use std::marker::Model;
use std::sync::{Mutex, MutexGuard, Wait};

/// A board with an observer of each of its sampling channels, in the channels' order.
pub(crate) struct ObservedBoard<A: Allocator> {
    board: Board<A>,
    observers: Vec<Observer<A>, A>,
}

impl<A: Allocator> Model for ObservedBoard<A> {
    ghost use Rattle.apex_observers.specs.Channels.{AreObservers};
    ghost use Rattle.apex_workers.specs.Observed.{ObservedView};

    ghost Value = { ObservedView };

    ghost view = { λ observed. record {
      board = observed.board;
      observers = observed.observers.items;
    } };

    ghost invariant = { λ observed.
        AreObservers observed.board.published observed.observers.items };
}

impl<A: Allocator + Copy> ObservedBoard<A> {
    /// A new board, with observers that have seen nothing.
    pub(crate) fn new<R: Wait>(
        rt: &R,
        alloc: A,
        config: Config,
    ) -> Result<ObservedBoard<A>, ObserverFault>
        ensures config { IfOk result (λ made. made.board.config ≡ config) }
        ensures log { IfOk result (λ made. made.board.log ≡ []) }
    {
        let (board, observers) = Board::with_observers(rt, alloc, config)?;
        Ok(ObservedBoard { board, observers })
    }
}

impl<A: Allocator> ObservedBoard<A> {
    /// The board, and its observers.
    pub(crate) fn into_parts(self) -> (Board<A>, Vec<Observer<A>, A>)
        ensures board { result.0 ≡ self.board }
        ensures observers { result.1.items ≡ self.observers }
        ensures whose { AreObservers result.0.published result.1.items }
        ensures facts { HasBoardFacts result.0 }
    {
        let ObservedBoard { board, observers } = self;
        board_facts(&board);
        (board, observers)
    }

    /// Ends the board.
    pub(crate) fn close<R: Wait>(self, rt: &R) {
        let (board, _observers) = self.into_parts();
        board.close(rt);
    }
}

/// A board with its observers, which one thread at a time holds.
pub(crate) struct LockedObservedBoard<A: Allocator> {
    observed: Mutex<ObservedBoard<A>>,
}

impl<A: Allocator> LockedObservedBoard<A> {
    /// The board behind a free lock.
    pub(crate) fn new(observed: ObservedBoard<A>) -> LockedObservedBoard<A> {
        LockedObservedBoard {
            observed: Mutex::new(observed),
        }
    }

    /// Returns the board with its observers. No contract says which log it has by then.
    pub(crate) fn into_observed(self) -> ObservedBoard<A> {
        let LockedObservedBoard { observed } = self;
        observed.into_inner()
    }
}

impl<A: Allocator + Send + Sync> SharedBoard for LockedObservedBoard<A> {
    /// Holds the lock only for this call.
    fn ask<R: Wait>(
        &self,
        rt: &R,
        partition: usize,
        at: Moment,
        call: &Call,
    ) -> Result<Reply, AskFault> {
        let mut guard = self.observed.lock(rt);
        let answer = ask_lent(rt, &mut guard.board, partition, at, call);
        MutexGuard::unlock(guard);
        answer
    }
}
