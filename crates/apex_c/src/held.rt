//! The ports of a module behind a pointer, in a form that C can keep.
ghost use Rattle.std.specs.Prelude.{◌≡◌, ◌≢◌, Some, None};
ghost use Rattle.apex_c.specs.Held.{PortsHeld, ports_coded, held_owns};

use crate::parts::Parts;
use apex_ports::Ports;
use std::alloc::Global;
use std::marker::Model;

/// The ports of a module, or none. What is held when the value is dropped is not freed.
#[repr(C)]
#[derive(Drop)]
pub struct Held {
    at: *mut u8,
    alloc: Global,
    pub ghost ports: { PortsHeld } by { ports_coded },
}

impl Model for Held {
    ghost also_owns = { λ held. held_owns held.alloc held.at held.ports };
}

// What is held may go to another thread, as the box of it may.
unsafe impl Send for Held {}

impl Held {
    /// Holds the ports of the box.
    pub(crate) fn of_box(ports: Box<Ports>) -> Held
        ensures { result.ports ≡ Some ports.value }
    {
        Held::of_parts(Parts::of(ports))
    }

    /// The box of the ports that are held.
    pub(crate) fn into_box(self) -> Box<Ports>
        requires { self.ports ≢ None }
        ensures { Some result.value ≡ self.ports }
    {
        self.into_parts().into_box()
    }

    /// Holds none.
    pub(crate) fn none(alloc: Global) -> Held
        ensures { result.ports ≡ None }
    {
        Held {
            at: std::ptr::null_mut(),
            alloc,
        }
    }

    fn of_parts(parts: Parts<Ports, Global>) -> Held
        ensures { result.ports ≡ Some parts.value }
    {
        let Parts { ptr, alloc } = parts;
        Held {
            at: ptr as *mut u8,
            alloc,
        }
    }

    fn into_parts(self) -> Parts<Ports, Global>
        requires { self.ports ≢ None }
        ensures { Some result.value ≡ self.ports }
    {
        let Held { at, alloc } = self;
        Parts {
            ptr: at as *mut Ports,
            alloc,
        }
    }
}
