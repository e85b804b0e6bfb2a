//! The board behind a lock.
ghost use Rattle.std.specs.Prelude.{◌≡◌, ◌↔◌, ◌<◌, ◌≤◌, ◌∷◌, ◌++◌, [], length, IfOk, IsOk, IsErrOf, OnErr};
ghost use Rattle.std.specs.Sync.Mutex.{mutex_guard_value};

use apex_board::Board;
use apex_ports::rules::conserved;
use apex_threads::{AskFault, SharedBoard};
use apex_types::{Call, Moment, Reply};
use std::alloc::{Allocator, Global};
use std::sync::{Mutex, MutexGuard, Wait};

/// A board that one thread at a time holds.
///
/// Like the board, it is not `Drop`: take the board back with `into_board`, and close that.
pub struct LockedBoard<A: Allocator = Global> {
    board: Mutex<Board<A>>,
}

impl<A: Allocator> LockedBoard<A> {
    ghost use Rattle.apex_workers.specs.Facts.{HasBoardFacts};

    /// The board behind a free lock.
    pub fn new(board: Board<A>) -> LockedBoard<A> {
        LockedBoard {
            board: Mutex::new(board),
        }
    }

    /// Lends the board, once no other thread has it. No contract says which log it has by then.
    pub fn lock<R: Wait>(&self, rt: &R) -> MutexGuard<'_, Board<A>>
        ensures { HasBoardFacts (mutex_guard_value result) }
    {
        let guard = self.board.lock(rt);
        board_facts(&guard);
        guard
    }

    /// Returns the board. No contract says which log it has by then.
    pub fn into_board(self) -> Board<A>
        ensures { HasBoardFacts result }
    {
        let LockedBoard { board } = self;
        let board = board.into_inner();
        board_facts(&board);
        board
    }
}

impl<A: Allocator + Send + Sync> SharedBoard for LockedBoard<A> {
    /// Holds the lock only for this call.
    fn ask<R: Wait>(
        &self,
        rt: &R,
        partition: usize,
        at: Moment,
        call: &Call,
    ) -> Result<Reply, AskFault> {
        let mut guard = self.board.lock(rt);
        let answer = ask_lent(rt, &mut guard, partition, at, call);
        MutexGuard::unlock(guard);
        answer
    }
}

ghost use Rattle.apex_observers.specs.Channels.{books_of};
ghost use Rattle.apex_ports.specs.History.{entry_of};
ghost use Rattle.apex_ports.specs.ReplyTable.{reply_to};
ghost use Rattle.apex_ports.specs.Writes.{WritesNothing};
ghost use Rattle.apex_workers.specs.Facts.{HasBoardFacts};
ghost use Rattle.apex_threads.specs.declared.shared.AskFault.TheVariants as fault;

/// Makes one call on the lent board.
pub(crate) fn ask_lent<A: Allocator, R: Wait>(
    rt: &R,
    board: &mut Board<A>,
    partition: usize,
    at: Moment,
    call: &Call,
) -> Result<Reply, AskFault>
    // The reply is the reply table's, and the log gains exactly this entry.
    ensures reply { IfOk result (λ reply.
        reply ≡ reply_to board.old.config board.old.log partition at call.now) }
    ensures entry { IfOk result (λ reply.
        board.new.log ≡ board.old.log ++ entry_of partition at call.now reply ∷ []) }
    ensures config { board.new.config ≡ board.old.config }
    ensures channels { books_of board.new.published ≡ books_of board.old.published }

    // A refusal changes nothing. Its reason is the partition, or memory if there is no room or a write is to be
    // published.
    ensures partition { IsErrOf result fault.NoPartition
        ↔ (length board.old.config.partitions ≤ partition) }
    ensures succeeds { partition < length board.old.config.partitions
        → WritesNothing board.old.config board.old.log partition call.now
        → 1 ≤ board.old.room → IsOk result }
    ensures refused { OnErr result (board.new.log ≡ board.old.log) }
    ensures refused_published { OnErr result (board.new.published ≡ board.old.published) }
{
    if partition >= board.config().partitions() {
        return Err(AskFault::NoPartition);
    }
    board
        .call(rt, partition, at, call)
        .map_err(|_refused| AskFault::OutOfMemory)
}

/// Brings in what holds for every board. There is nothing to run.
pub(crate) fn board_facts<A: Allocator>(board: &Board<A>)
    ensures { HasBoardFacts board.now }
{
    let _log = board.log();
    let _config = board.ports().config();
    conserved();
}
