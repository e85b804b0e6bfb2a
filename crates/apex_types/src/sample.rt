//! What a sampling channel holds.
ghost use Rattle.std.specs.Prelude.{◌≡◌};
ghost use Rattle.apex_types.specs.Sample.{validity_at};

use crate::message::Message;
use crate::moment::Moment;
use crate::validity::Validity;

/// The message that a sampling channel holds, and when it was written.
#[derive(Debug, Drop, PartialEq, Eq)]
pub struct Sample {
    pub message: Message,
    pub at: Moment,
}

impl Sample {
    /// VALID until `refresh` nanoseconds after the write, that moment included, computed without overflow.
    pub fn validity(&self, now: Moment, refresh: u64) -> Validity
        ensures { result ≡ validity_at now.0 self.now.at.0 refresh }
    {
        if now.0.saturating_sub(self.at.0) <= refresh {
            Validity::Valid
        } else {
            Validity::Invalid
        }
    }

    /// A copy of the sample.
    pub fn copy(&self) -> Sample
        ensures { result ≡ self.now }
    {
        Sample {
            message: self.message.copy(),
            at: self.at,
        }
    }
}
