//! The plan: which requests are refused.
ghost use Rattle.std.specs.Prelude.{◌<◌, ◌-◌, ◌↔◌, IsTrue};
ghost use Rattle.refusing.specs.Plan.{IsRefused};

use std::sync::atomic::{AtomicU64, Ordering};

/// Which requests for memory are refused, and how many requests were made and refused so far.
///
/// Several threads can read and change the words. Whoever changes the plan must make sure that no other thread requests
/// memory meanwhile.
#[derive(Drop)]
pub struct Plan {
    pass: AtomicU64,
    refuse: AtomicU64,
    requests: AtomicU64,
    refused: AtomicU64,
}

impl Plan {
    /// The plan that refuses nothing.
    pub const fn allow_all() -> Plan {
        Plan {
            pass: AtomicU64::new(0),
            refuse: AtomicU64::new(0),
            requests: AtomicU64::new(0),
            refused: AtomicU64::new(0),
        }
    }

    /// Starts a plan: the next `pass` requests are let through, and the `refuse` after them are refused.
    pub fn start(&self, pass: u64, refuse: u64) {
        self.pass.store(pass, Ordering::SeqCst);
        self.refuse.store(refuse, Ordering::SeqCst);
        self.requests.store(0, Ordering::SeqCst);
        self.refused.store(0, Ordering::SeqCst);
    }

    /// Counts one request and returns whether it is refused.
    pub fn refuses_next(&self) -> bool {
        let request = self.requests.fetch_add(1, Ordering::SeqCst);
        let pass = self.pass.load(Ordering::SeqCst);
        let refuse = self.refuse.load(Ordering::SeqCst);
        let is_refused = is_refused(request, pass, refuse);
        if is_refused {
            self.refused.fetch_add(1, Ordering::SeqCst);
        }
        is_refused
    }

    /// The number of requests since the plan was started.
    pub fn requests(&self) -> u64 {
        self.requests.load(Ordering::SeqCst)
    }

    /// The number of refused requests since the plan was started.
    pub fn refused(&self) -> u64 {
        self.refused.load(Ordering::SeqCst)
    }
}

/// Whether the plan refuses request number `request`, counted from 0.
pub fn is_refused(request: u64, pass: u64, refuse: u64) -> bool
    ensures { IsTrue result ↔ IsRefused pass refuse request }
{
    request >= pass && request - pass < refuse
}
