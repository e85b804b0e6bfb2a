//! What a board of a module at the limits has recorded of its long history, and what its observers show.
use crate::tests::boards::holds;
use crate::tests::module::Module;
use crate::tests::rounds::{CHANNELS, DEPTH, PLACES, REFRESH, ROUNDS, SENDING, USING, message_of};
use apex_board::{Board, Entry};
use apex_observers::{Observer, Sampled};
use apex_types::{Message, Moment, Taken, Validity};
use std::alloc::Allocator;
use std::process::Abort;

// When sending ends, a queue has the messages of the rounds after this one.
const KEPT: u32 = SENDING - DEPTH;

// These are the messages of the rounds in which messages are sent.
fn are_accepted(rt: &impl Abort, channel: u32, accepted: &[Message]) {
    let mut round = 0u32;
    for message in accepted {
        round = round.saturating_add(1);
        holds(rt, *message == message_of(channel, round), u64::from(round));
    }
    holds(rt, round == SENDING, u64::from(channel));
}

// All of them were received in order; the last 512 of an odd channel were cleared.
fn are_taken(rt: &impl Abort, channel: u32, taken: &[Taken]) {
    let mut round = 0u32;
    for one in taken {
        round = round.saturating_add(1);
        let is_cleared = channel % 2 == 1 && round > KEPT;
        holds(
            rt,
            one.message == message_of(channel, round),
            u64::from(round),
        );
        holds(rt, one.cleared == is_cleared, u64::from(round));
    }
    holds(rt, round == SENDING, u64::from(channel));
}

// A sampling channel holds the message of the last round that used it.
fn holds_last<A: Allocator>(board: &Board<A>, module: Module, channel: u32) -> bool {
    let c = channel as usize;
    if c >= board.config().channels() {
        return false;
    }
    match board.last_sample(c) {
        Some(sample) => {
            sample.at == Moment(module.at) && sample.message == message_of(channel, USING)
        }
        None => false,
    }
}

/// The board of the module has recorded the whole history.
pub(crate) fn are_whole<A: Allocator>(rt: &impl Abort, board: &Board<A>, module: Module) {
    for channel in 0..CHANNELS {
        let c = channel as usize;
        assert!(rt; c < board.config().channels());
        holds(rt, board.waiting_count(c) == 0, u64::from(channel));
        if module.is_queuing(channel) {
            are_accepted(rt, channel, board.accepted(c));
            are_taken(rt, channel, board.taken(c));
        } else {
            holds(rt, holds_last(board, module, channel), u64::from(channel));
        }
    }
}

/// The log has the calls of all rounds with their replies.
pub(crate) fn are_logged(rt: &impl Abort, log: &[Entry], module: Module) {
    let mut entries = log.iter();
    for round in 0..ROUNDS {
        for place in 0..PLACES {
            if let Some(row) = module.row(round, place) {
                let Some(entry) = entries.next() else {
                    panic!(rt; "the log ends in round {round}");
                };
                let asked = row.request;
                holds(rt, entry.partition == asked.partition, u64::from(round));
                holds(rt, entry.at == asked.at, u64::from(round));
                holds(rt, entry.call == asked.call, u64::from(round));
                holds(rt, entry.reply == row.reply, u64::from(round));
            }
        }
    }
    holds(rt, entries.next().is_none(), 0);
}

/// Each observer shows its channel's message of the round.
pub(crate) fn are_shown<A: Allocator>(
    rt: &impl Abort,
    observers: &mut [Observer<A>],
    module: Module,
    round: u32,
) {
    for (channel, observer) in (module.queuing..CHANNELS).zip(observers.iter_mut()) {
        let shown = observer.read(Moment(module.at), REFRESH);
        let wanted = Sampled::Sample {
            message: message_of(channel, round),
            at: Moment(module.at),
            validity: Validity::Valid,
        };
        holds(rt, shown == wanted, u64::from(round));
    }
}

/// The observers show that the board is gone.
pub(crate) fn are_gone<A: Allocator>(rt: &impl Abort, observers: &mut [Observer<A>]) {
    for observer in observers.iter_mut() {
        holds(rt, observer.read(Moment(0), REFRESH) == Sampled::Gone, 0);
    }
}
