//! Saves the state of a partition as bytes, and restores it.
ghost use Rattle.std.specs.Prelude.{◌≡◌, ◌++◌, length, OnOk};
ghost use Rattle.std.specs.List.{flat_map};
ghost use Rattle.apex_types.specs.declared.mode.Mode.{Mode};
ghost use Rattle.apex_types.specs.Mode.{number_of};
ghost use Rattle.apex_ports.specs.declared.partition.PortState.{PortState};
ghost use Rattle.apex_ports.specs.Packed.{port_byte, packed_port};
ghost use Rattle.apex_ports.specs.Saved.{Reads};

use crate::partition::{PartitionState, PortState};
use crate::unpacking::Reader;
use apex_types::{Mode, Validity};
use std::alloc::{AllocError, Allocator};

impl<A: Allocator> PartitionState<A> {
    ghost use Rattle.apex_ports.specs.Packed.{packed_partition};
    ghost use Rattle.apex_ports.specs.Saved.{HasAsManyPorts, IsSameTable};

    /// Writes the state behind the bytes.
    pub(crate) fn save(&self, bytes: &mut Vec<u8, A>) -> Result<(), AllocError>
        ensures { OnOk result (bytes.new.items ≡ bytes.old.items ++ packed_partition self.now) }
    {
        bytes.push(self.mode.number() as u8)?;
        save_ports(self.ports.as_slice(), bytes)
    }

    /// Restores the state that is read next, of a partition with as many ports.
    pub(crate) fn restore(&mut self, reader: &mut Reader<'_>)
        ensures { Reads packed_partition (HasAsManyPorts self.old)
            (λ saved. IsSameTable saved self.new) reader.old reader.new }
    {
        self.mode = mode_of_byte(reader.byte());
        restore_ports(self.ports.as_mut_slice(), reader);
    }
}

impl PortState {
    // The byte of its saved state.
    fn to_byte(self) -> u8
        ensures { result ≡ port_byte self }
    {
        match (self.created, self.last) {
            (false, Validity::Invalid) => 0,
            (false, Validity::Valid) => 1,
            (true, Validity::Invalid) => 2,
            (true, Validity::Valid) => 3,
        }
    }

    // The state that has this byte.
    fn of_byte(byte: u8) -> PortState
        ensures { (port : PortState) → port_byte port ≡ byte → result ≡ port }
    {
        match byte {
            0 => PortState {
                created: false,
                last: Validity::Invalid,
            },
            1 => PortState {
                created: false,
                last: Validity::Valid,
            },
            2 => PortState {
                created: true,
                last: Validity::Invalid,
            },
            _ => PortState {
                created: true,
                last: Validity::Valid,
            },
        }
    }
}

// The mode that has this byte as its number.
fn mode_of_byte(byte: u8) -> Mode
    ensures { (mode : Mode) → number_of mode ≡ byte → result ≡ mode }
{
    match byte {
        0 => Mode::Idle,
        1 => Mode::ColdStart,
        2 => Mode::WarmStart,
        _ => Mode::Normal,
    }
}

fn save_ports<A: Allocator>(ports: &[PortState], bytes: &mut Vec<u8, A>) -> Result<(), AllocError>
    ensures { OnOk result
        (bytes.new.items ≡ bytes.old.items ++ flat_map packed_port ports.now) }
{
    for port in ports {
        bytes.push(port.to_byte())?;
    }
    Ok(())
}

fn restore_ports(ports: &mut [PortState], reader: &mut Reader<'_>)
    ensures { Reads (flat_map packed_port) (λ saved. length saved ≡ length ports.old)
        (λ saved. ports.new ≡ saved) reader.old reader.new }
{
    for port in ports.iter_mut() {
        *port = PortState::of_byte(reader.byte());
    }
}
