//! Lists of requests.
ghost use Rattle.std.specs.Prelude.{◌≡◌, ◌+◌, ◌<◌, ◌≤◌, ◌++◌, false, length, take, All, IfErr, OnOk, IsOk};
ghost use Rattle.apex_board.specs.Prelude.{books_of, requests_of, StaysIdle, Answers};
ghost use Rattle.apex_board.specs.OnRequests.{WritesNothingAt, is_write};

use crate::board::Board;
use apex_ports::Request;
use std::alloc::Allocator;
use std::sync::Wait;
use thiserror::Error;

/// Memory ran out at request `done`, counted from 0: only the requests before it are applied.
#[derive(Clone, Copy, Debug, PartialEq, Eq, Error)]
#[error("out of memory")]
pub struct Stopped {
    pub done: usize,
}

/// Answers the requests in order.
pub fn run_list<A: Allocator, R: Wait>(
    rt: &R,
    board: &mut Board<A>,
    requests: &[Request],
) -> Result<(), Stopped>
    requires { All
        (λ request. request.partition < length board.old.config.partitions) requests.now }

    // The log is the one lawful history of the old requests followed by those that were applied.
    ensures all { OnOk result (Answers board.new.config (requests_of board.old.log
        ++ requests.now) board.new.log) }
    ensures stopped { IfErr result (λ stop. Answers board.new.config (requests_of board.old.log
        ++ take stop.done requests.now) board.new.log) }
    ensures within { IfErr result (λ stop. stop.done < length requests.now) }
    ensures config { board.new.config ≡ board.old.config }
    ensures channels { books_of board.new.published ≡ books_of board.old.published }

    // With enough room all are applied, each lowers the room by at most one, and the list stops before the room is used
    // up only at a write that is to be published. A partition in IDLE stays there.
    ensures succeeds { All (λ request. is_write request.call ≡ false) requests.now →
        length requests.now ≤ board.old.room → IsOk result }
    ensures room { OnOk result (board.old.room ≤ board.new.room + length requests.now) }
    ensures stopped_room { IfErr result (λ stop.
        WritesNothingAt board.new.config board.new.log requests.now stop.done →
        board.old.room ≤ stop.done) }
    ensures idle { StaysIdle board.old.config board.old.log board.new.log }
{
    // If this fails, the log grows as it goes.
    let _ = board.reserve_log(requests.len());
    for (done, request) in requests.iter().enumerate() {
        match board.call(rt, request.partition, request.at, &request.call) {
            Ok(_) => {}
            Err(_) => return Err(Stopped { done }),
        }
    }
    Ok(())
}
