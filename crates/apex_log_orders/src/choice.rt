//! Which partition makes the next call.
ghost use Rattle.std.specs.Prelude.{◌≡◌, ◌<◌, IfSome};
ghost use Rattle.apex_log_orders.specs.Walking.{candidate};

/// The partitions that are tried after the calls so far: from a first one upward and cyclically.
#[derive(Clone, Copy)]
pub(crate) struct Choice {
    /// The one to try first.
    pub(crate) first: usize,
    /// The number of partitions tried.
    pub(crate) tried: usize,
}

impl Choice {
    /// The partition to try, out of this number of partitions.
    pub(crate) fn candidate(&self, partitions: usize) -> Option<usize>
        ensures exact { result ≡ candidate partitions self.now.first self.now.tried }
        ensures within { IfSome result (λ p. p < partitions) }
    {
        if self.tried >= partitions {
            return None;
        }
        let above = partitions.saturating_sub(self.first);
        if self.tried < above {
            Some(self.first + self.tried)
        } else {
            Some(self.tried - above)
        }
    }
}
