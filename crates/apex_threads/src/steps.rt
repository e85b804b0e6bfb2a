//! The steps of a worker for each call: it passes its gate, asks the board, and then reports to the gate.
ghost use Rattle.std.specs.Prelude.{◌≡◌, ◌+◌, ◌<◌, ◌≤◌, OnOk, OnErr};
ghost use Rattle.apex_ports.specs.Noted.{call_by};
ghost use Rattle.apex_ports.specs.Services.{length_sent};

use crate::gate::{Gate, Held};
use crate::shared::{AskFault, SharedBoard};
use apex_ports::CallRef;
use apex_types::{MESSAGE_LIMIT, Moment, Reply};
use std::sync::Wait;

/// The only way from a worker to its gate and the board. It counts the calls that the gate let through, those that the
/// board was asked for, and those reported to the gate, so no step can be taken out of turn.
pub(crate) struct Steps<'a, S, G> {
    board: &'a S,
    gate: &'a G,
    partition: usize,
    passed: usize,
    asked: usize,
    heard: usize,
}

impl<S, G> Drop for Steps<'_, S, G> {
    fn drop(self) {
        let Steps {
            board: _,
            gate: _,
            partition: _,
            passed: _,
            asked: _,
            heard: _,
        } = self;
    }
}

impl<'a, S: SharedBoard, G: Gate> Steps<'a, S, G> {
    ghost use Rattle.apex_threads.specs.Steps.{IsBetweenCalls, IsOfSameWorker};

    /// The steps of a partition's worker before its first call.
    pub(crate) fn new(board: &'a S, gate: &'a G, partition: usize) -> Steps<'a, S, G>
        ensures first { IsBetweenCalls result 0 }
        ensures partition { result.partition ≡ partition }
        ensures gate { result.gate.now ≡ gate.now }
    {
        Steps {
            board,
            gate,
            partition,
            passed: 0,
            asked: 0,
            heard: 0,
        }
    }

    /// Passes the gate before the next call, after each earlier one was reported to the gate.
    pub(crate) fn pass(&mut self) -> Result<(), Held>
        requires turn { IsBetweenCalls self.old self.old.passed }
        requires room { self.old.passed < usize.MAX }
        ensures passed { OnOk result (self.new.passed ≡ self.old.passed + 1) }
        ensures refused { OnErr result
            (G.may_refuse self.old.gate.now self.old.partition (self.old.passed + 1)) }
        ensures asked { self.new.asked ≡ self.old.asked }
        ensures heard { self.new.heard ≡ self.old.heard }
        ensures same { IsOfSameWorker self.old self.new }
    {
        let n = self.passed + 1;
        self.gate.pass(self.partition, n)?;
        self.passed = n;
        Ok(())
    }

    /// Asks the board for the call that the gate let through, with the reply in `reply`.
    pub(crate) fn ask<R: Wait>(
        &mut self,
        rt: &R,
        at: Moment,
        call: CallRef<'_>,
        reply: &mut Reply,
    ) -> Result<(), AskFault>
        requires turn { self.old.passed ≡ self.old.asked + 1 }
        requires short { length_sent (call_by call) ≤ MESSAGE_LIMIT }
        ensures asked { self.new.asked ≡ self.old.asked + 1 }
        ensures passed { self.new.passed ≡ self.old.passed }
        ensures heard { self.new.heard ≡ self.old.heard }
        ensures same { IsOfSameWorker self.old self.new }
    {
        self.asked += 1;
        self.board.ask_into(rt, self.partition, at, call, reply)
    }

    /// Reports to the gate the call that the board was asked for.
    pub(crate) fn tell(&mut self)
        requires turn { self.old.asked ≡ self.old.heard + 1 }
        ensures heard { self.new.heard ≡ self.old.heard + 1 }
        ensures passed { self.new.passed ≡ self.old.passed }
        ensures asked { self.new.asked ≡ self.old.asked }
        ensures same { IsOfSameWorker self.old self.new }
    {
        self.heard += 1;
        self.gate.answered(self.partition, self.heard);
    }
}
