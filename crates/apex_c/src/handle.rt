//! The handle that C keeps.
ghost use Rattle.std.specs.Prelude.{◌≡◌, None, Some, Err, is_some, MatchOption};
ghost use Rattle.std.specs.Fn.{FnOnceReturnsAt};
ghost use Rattle.std.specs.Option.{option_map};
ghost use Rattle.apex_c.specs.Calls.{code_number};

use crate::answer::{NOT_MADE, NOT_OPEN};
use crate::held::Held;
use apex_ports::Ports;
use apex_types::ReturnCode;
use std::alloc::Global;
use std::mem;

/// The ports of a module, or none. C keeps it, and lends it to each function. All zero, it has none.
#[repr(C)]
#[derive(Drop)]
pub struct Handle {
    is_open: bool,
    pub held: Held,
    ghost agrees: { is_some held.ports ≡ is_open },
}

impl Handle {
    /// A handle of no ports.
    pub(crate) fn closed(alloc: Global) -> Handle
        ensures { result.held.ports ≡ None }
    {
        Handle {
            is_open: false,
            held: Held::none(alloc),
        }
    }

    /// A handle of the ports.
    pub(crate) fn of(ports: Box<Ports>) -> Handle
        ensures { result.held.ports ≡ Some ports.value }
    {
        Handle {
            is_open: true,
            held: Held::of_box(ports),
        }
    }

    /// Whether the handle has ports.
    pub(crate) fn is_open(&self) -> bool
        ensures { result ≡ is_some self.now.held.ports }
    {
        self.is_open
    }

    /// Takes the ports out.
    pub(crate) fn take(&mut self, alloc: Global) -> Option<Box<Ports>>
        ensures taken { option_map (λ ports. ports.value) result ≡ self.old.held.ports }
        ensures closed { self.new.held.ports ≡ None }
    {
        let Handle { is_open, held } = mem::replace(self, Handle::closed(alloc));
        if is_open { Some(held.into_box()) } else { None }
    }

    /// What a reader finds in the ports, which stay as they are, or `NOT_OPEN`.
    pub(crate) fn read<X, F: FnOnce(&Ports) -> Result<X, u32> + Drop>(
        &mut self,
        alloc: Global,
        find: F,
    ) -> Result<X, u32>
        requires { F.IsAlwaysCallable find }
        ensures found { MatchOption self.old.held.ports (result ≡ Err NOT_OPEN)
            (λ ports. FnOnceReturnsAt F.FnOnce find ports result) }
        ensures ports { self.new.held.ports ≡ self.old.held.ports }
    {
        let Some(ports) = self.take(alloc) else {
            return Err(NOT_OPEN);
        };
        let found = find(&ports);
        *self = Handle::of(ports);
        found
    }
}

/// The number of a return code, or `NOT_MADE`.
pub(crate) fn number_of_code(code: Option<ReturnCode>) -> u32
    ensures { result ≡ code_number code }
{
    match code {
        None => NOT_MADE,
        Some(code) => code.number(),
    }
}
