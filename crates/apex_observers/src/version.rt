//! One published state of a channel.
ghost use Rattle.std.specs.Prelude.{◌≡◌, [], Some};
ghost use Rattle.apex_observers.specs.Published.{last_of};
ghost use Rattle.apex_observers.specs.Shown.{shown_of};

use crate::receipt::Receipt;
use crate::sampled::Sampled;
use apex_types::{Moment, Sample};
use left_right::Absorb;
use std::alloc::AllocError;
use std::marker::Model;

/// The last sample, with the receipt of the writes up to it.
#[derive(Drop)]
pub struct Version {
    last: Option<Sample>,
    receipt: Receipt,
}

impl Model for Version {
    ghost use Rattle.std.specs.Prelude.{◌≡◌};
    ghost use Rattle.apex_observers.specs.Published.{Published, last_of};

    ghost Value = { Published };

    ghost view = { λ version. version.receipt };

    ghost invariant = { λ version. version.last ≡ last_of version.receipt.writes };
}

impl Version {
    /// The version before the first write.
    pub fn empty(receipt: Receipt) -> Version
        requires { receipt.writes ≡ [] }
        ensures { result ≡ receipt }
    {
        Version {
            last: None,
            receipt,
        }
    }

    /// The version that shows the receipt's last write.
    pub fn new(sample: Sample, receipt: Receipt) -> Version
        requires { last_of receipt.writes ≡ Some sample }
        ensures { result ≡ receipt }
    {
        Version {
            last: Some(sample),
            receipt,
        }
    }

    /// A copy of the version.
    fn copy(&self) -> Version
        ensures { result ≡ self.now }
    {
        Version {
            last: match &self.last {
                Some(sample) => Some(sample.copy()),
                None => None,
            },
            receipt: self.receipt.copy(),
        }
    }

    /// The writes up to this version.
    pub fn receipt(&self) -> &Receipt
        ensures { result.now ≡ self.now }
    {
        &self.receipt
    }

    /// What the version shows at a moment. The refresh period is in nanoseconds.
    pub fn shown(&self, now: Moment, refresh: u64) -> Sampled
        ensures { result ≡ shown_of now.0 refresh self.now.writes }
    {
        match &self.last {
            None => Sampled::Empty,
            Some(sample) => Sampled::Sample {
                message: sample.message.copy(),
                at: sample.at,
                validity: sample.validity(now, refresh),
            },
        }
    }
}

impl Absorb<Version> for Version {
    type State = Version;

    ghost state = { λ version. version };

    ghost applied = { λ _ operation. operation };

    ghost never_fails = { Unit {0} };

    fn absorb_first(&mut self, operation: &Version, _other: &Version) -> Result<(), AllocError> {
        *self = operation.copy();
        Ok(())
    }

    fn absorb_second(&mut self, operation: Version, _other: &Version) -> Result<(), Version> {
        *self = operation;
        Ok(())
    }
}
