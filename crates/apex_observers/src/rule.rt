//! The rule under which versions are published and read.
use crate::receipt::Receipt;
use crate::version::Version;
use atomic_table::{Join, Split};
use crossbeam_utils::rule::{Outcome, Protocol};

/// What a reader or the writer knows belongs to the channel that these versions are of.
pub struct OneChannel;

impl Protocol<Version, Option<Receipt>> for OneChannel {
    ghost use Rattle.std.specs.Prelude.{None};
    ghost use Rattle.apex_observers.specs.OneChannel.{IsOneChannel};

    ghost holds = { IsOneChannel };

    ghost first = { None };
}

/// A publication or a read: the version is known afterwards.
pub struct Taken;

impl Outcome<Version, Option<Receipt>> for Taken {
    ghost use Rattle.apex_observers.specs.OneChannel.{Takes};

    ghost then = { Takes };
}

/// What the writer passes on to a new reader.
pub struct PassedOn;

impl Split<Option<Receipt>> for PassedOn {
    ghost left = { λ known. known };

    ghost right = { λ known. known };
}

impl Join<Option<Receipt>> for PassedOn {
    ghost use Rattle.std.specs.Prelude.{None};

    ghost both = { λ _ passed. passed };

    ghost spent = { None };
}
