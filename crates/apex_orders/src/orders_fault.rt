//! Why a search of all orders has no answer.
ghost use Rattle.std.specs.Prelude.{◌≡◌};
ghost use Rattle.apex_orders.specs.declared.orders_fault.OrdersFault.TheVariants as orders_fault;

use apex_types::OutOfMemory;
use std::alloc::AllocError;
use thiserror::Error;

/// Why a search of all orders has no answer.
#[derive(Clone, Copy, Debug, PartialEq, Eq, Error)]
pub enum OrdersFault {
    /// An allocation failed.
    #[error("out of memory")]
    OutOfMemory,
    /// The orders lead to more states than the bound: nothing is claimed.
    #[error("undecided: more states than the bound")]
    TooManyStates,
    /// `progress` ended the search: nothing is claimed.
    #[error("undecided: the search was ended")]
    Stopped,
}

impl From<OutOfMemory> for OrdersFault {
    ghost from_gives = { λ _ given. given ≡ orders_fault.OutOfMemory };

    fn from(_refused: OutOfMemory) -> OrdersFault {
        OrdersFault::OutOfMemory
    }
}

impl From<AllocError> for OrdersFault {
    ghost from_gives = { λ _ given. given ≡ orders_fault.OutOfMemory };

    fn from(_refused: AllocError) -> OrdersFault {
        OrdersFault::OutOfMemory
    }
}
