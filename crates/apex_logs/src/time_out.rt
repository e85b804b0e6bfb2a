//! The time-outs of logged calls, and the reply that a call would have got without one when it returned.
ghost use Rattle.std.specs.Prelude.{◌≡◌};
ghost use Rattle.apex_logs.specs.TimeOut.{can_wait, max_wait_of, polled_code, as_polled, as_waited};

use apex_types::{Call, Reply, ReturnCode};

/// What a line of a log says about its call's time-out.
#[derive(Clone, Copy, Debug, PartialEq, Eq)]
pub enum TimeOut {
    /// Nothing.
    Unsaid,
    /// A number of nanoseconds.
    Nanoseconds(u64),
    /// The call waits until it can be served.
    Infinite,
}

/// How long a call may wait.
#[derive(Clone, Copy, Debug, PartialEq, Eq)]
pub enum MaxWait {
    /// Not at all.
    Zero,
    /// For some time.
    Finite,
    /// Until it can be served.
    Infinite,
}

impl MaxWait {
    /// How long a logged call may wait. If its line says no time-out, a send or a receive has one if `all` is set.
    pub fn of(all: bool, call: &Call, time_out: TimeOut) -> MaxWait
        ensures { result ≡ max_wait_of all call.now time_out }
    {
        match time_out {
            TimeOut::Unsaid if all && can_wait(call) => MaxWait::Finite,
            TimeOut::Unsaid | TimeOut::Nanoseconds(0) => MaxWait::Zero,
            TimeOut::Nanoseconds(_) => MaxWait::Finite,
            TimeOut::Infinite => MaxWait::Infinite,
        }
    }

    /// The return code that the call would have got without a time-out when it returned.
    pub fn polled_code(self, code: ReturnCode) -> ReturnCode
        ensures { result ≡ polled_code self code }
    {
        match (self, code) {
            (MaxWait::Finite, ReturnCode::TimedOut) => ReturnCode::NotAvailable,
            (MaxWait::Finite | MaxWait::Infinite, ReturnCode::NotAvailable) => ReturnCode::TimedOut,
            _ => code,
        }
    }

    /// Replaces a logged reply with the one that the call would have got without a time-out when it returned.
    pub fn poll(self, reply: &mut Reply)
        ensures { reply.new ≡ as_polled self reply.old }
    {
        if let Reply::Code(code) = reply {
            *code = self.polled_code(*code);
        }
    }

    /// Replaces the standard's reply to a call without a time-out by its reply to this one. A call that would still
    /// wait has none, and keeps NOT_AVAILABLE.
    pub fn wait(self, reply: &mut Reply)
        ensures { reply.new ≡ as_waited self reply.old }
    {
        if let (MaxWait::Finite, Reply::Code(ReturnCode::NotAvailable)) = (self, &*reply) {
            *reply = Reply::Code(ReturnCode::TimedOut);
        }
    }
}

// Whether a call takes a time-out.
fn can_wait(call: &Call) -> bool
    ensures { result ≡ can_wait call.now }
{
    matches!(call, Call::SendQueuing { .. } | Call::ReceiveQueuing { .. })
}
