//! The state of a partition: its mode and its table of ports.
ghost use Rattle.std.specs.Prelude.{◌≡◌, ℕ, ◌<◌, ◌≤◌, ◌==◌, if◌then◌else◌, true, false, length, Some};
ghost use Rattle.apex_types.specs.declared.validity.Validity.TheVariants.{Invalid};
ghost use Rattle.apex_ports.specs.Kept.{state_at, created_in, last_in};
ghost use Rattle.apex_ports.specs.Modes.{is_start};

use apex_types::{Mode, Validity};
use std::alloc::Allocator;

/// Whether a port is created, and what its last read showed.
#[derive(Clone, Copy, Debug)]
pub(crate) struct PortState {
    pub(crate) created: bool,
    pub(crate) last: Validity,
}

/// The mode of a partition, and its ports in the order of their identifiers.
#[derive(Drop)]
pub(crate) struct PartitionState<A: Allocator> {
    pub(crate) mode: Mode,
    pub(crate) ports: Vec<PortState, A>,
}

impl<A: Allocator> PartitionState<A> {
    /// The state of the port with an identifier, which is its index, counted from 1.
    pub(crate) fn port(&self, id: u32) -> Option<PortState>
        ensures { result ≡ state_at self.now.ports.items id }
    {
        if id == 0 {
            return None;
        }
        self.ports.get(id as usize - 1).copied()
    }

    /// Whether the port with the identifier is created.
    pub(crate) fn is_created(&self, id: u32) -> bool
        ensures { result ≡ created_in (state_at self.now.ports.items id) }
    {
        match self.port(id) {
            Some(port) => port.created,
            None => false,
        }
    }

    /// The validity that the last read of the port with the identifier showed.
    pub(crate) fn last_validity(&self, id: u32) -> Validity
        ensures { result ≡ last_in (state_at self.now.ports.items id) }
    {
        match self.port(id) {
            Some(port) => port.last,
            None => Validity::Invalid,
        }
    }

    /// Replaces the state of a port.
    pub(crate) fn set_port(&mut self, id: u32, port: PortState)
        requires first { 0 < id }
        requires last { id ≤ length self.old.ports.items }
        ensures ports { (other : ℕ) → state_at self.new.ports.items other
            ≡ (if other == id then Some port else state_at self.old.ports.items other) }
        ensures count { length self.new.ports.items ≡ length self.old.ports.items }
        ensures mode { self.new.mode ≡ self.old.mode }
    {
        self.ports[id as usize - 1] = port;
    }

    /// Sets the mode. COLD_START and WARM_START restart the partition: each port has to be created again.
    pub(crate) fn set_mode(&mut self, mode: Mode)
        ensures mode { self.new.mode ≡ mode }
        ensures count { length self.new.ports.items ≡ length self.old.ports.items }
        ensures restart { (id : ℕ) → is_start mode ≡ true →
            created_in (state_at self.new.ports.items id) ≡ false }
        ensures stay { (id : ℕ) → is_start mode ≡ false →
            created_in (state_at self.new.ports.items id)
            ≡ created_in (state_at self.old.ports.items id) }
        ensures last { (id : ℕ) → last_in (state_at self.new.ports.items id)
            ≡ last_in (state_at self.old.ports.items id) }
    {
        self.mode = mode;
        match mode {
            Mode::ColdStart | Mode::WarmStart => forget_ports(self.ports.as_mut_slice()),
            Mode::Idle | Mode::Normal => {}
        }
    }
}

// Marks each port as not created.
fn forget_ports(ports: &mut [PortState])
    ensures created { (id : ℕ) → created_in (state_at ports.new id) ≡ false }
    ensures last { (id : ℕ) → last_in (state_at ports.new id) ≡ last_in (state_at ports.old id) }
{
    for port in ports.iter_mut() {
        port.created = false;
    }
}
