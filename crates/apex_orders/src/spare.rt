//! Memory of saved ports that is used again.
ghost use Rattle.std.specs.Prelude.{◌≡◌, IfOk};

use apex_ports::{Ports, SavedPorts};
use apex_types::OutOfMemory;
use std::alloc::Global;

/// For how many points a worker keeps memory to use again.
const MOST_SPARE: usize = 16_384;

/// Keeps the memory of saved ports to use it again, unless there is enough.
pub(crate) fn keep(spare: &mut Vec<SavedPorts>, saved: SavedPorts) -> Result<(), OutOfMemory> {
    if spare.len() < MOST_SPARE {
        spare.push(saved)?;
    }
    Ok(())
}

/// Saves the ports, in memory that is spare if there is some.
pub(crate) fn save(
    alloc: Global,
    ports: &Ports,
    spare: &mut Vec<SavedPorts>,
) -> Result<SavedPorts, OutOfMemory>
    ensures { IfOk result (λ saved. saved ≡ ports.now) }
{
    match spare.pop() {
        None => ports.save(alloc),
        Some(old) => ports.save_over(old),
    }
}

/// Adds saved ports that are not used to the list.
pub(crate) fn add_unused(
    spare: &mut Vec<SavedPorts>,
    unused: Option<SavedPorts>,
) -> Result<(), OutOfMemory> {
    if let Some(ports) = unused {
        spare.push(ports)?;
    }
    Ok(())
}
