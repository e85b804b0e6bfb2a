//! Opening and closing.
ghost use Rattle.std.specs.Prelude.{◌≡◌, ◌≢◌, ◌⊎◌, [], Ok, None, is_some, if◌then◌else◌, IfOk};
ghost use Rattle.apex_config.specs.Meaning.{config_of, read_of};
ghost use Rattle.apex_c.specs.Fault.{AreLinesOf, path_in};
ghost use Rattle.apex_c.specs.Opening.{IsOpening, fault_number, opening_number, ports_at_start};
ghost use Rattle.apex_c.specs.Texts.{text_after, text_length_after};

use crate::answer::NOT_OPEN;
use crate::fault::put_refused;
use crate::handle::Handle;
use apex_config::ReadConfig;
use apex_module::{Config, ConfigFault};
use apex_ports::Ports;
use apex_refusals::read_config;
use apex_types::OutOfMemory;
use std::alloc::Global;

/// The handle was opened.
pub const OPENED: u32 = 0;

/// Memory was refused.
pub const OUT_OF_MEMORY: u32 = 11;

/// The handle was open before.
pub const ALREADY_OPEN: u32 = 12;

/// The handle was closed.
pub const CLOSED: u32 = 0;

/// Opens a handle with the ports of a configuration, every partition in COLD_START. Answers `OPENED`, the number of
/// the configuration's fault (1 to 10), `OUT_OF_MEMORY` or `ALREADY_OPEN`.
#[unsafe(no_mangle)]
pub extern "C" fn apex_open(alloc: Global, handle: &mut Handle, text: &[u8]) -> u32
    ensures { let config = config_of text.now in IsOpening
        handle.old.held.ports handle.new.held.ports
        (ports_at_start config) (opening_number config) result }
{
    if handle.is_open() {
        return ALREADY_OPEN;
    }
    match Config::read(alloc, text) {
        Ok(config) => open(alloc, handle, config),
        Err(fault) => number_of_fault(fault),
    }
}

/// Opens a handle as `apex_open` does, and says why a text is refused, from one reading of it: the path of the fault's first
/// place and a line for each place, as `apex_configuration_fault` and `apex_configuration_mistakes` put them.
#[unsafe(no_mangle)]
#[tactic(auto, unfolding(apex_config::specs::Meaning::config_of))]
pub extern "C" fn apex_open_explained(
    alloc: Global,
    handle: &mut Handle,
    text: &[u8],
    path: &mut [u8],
    path_length: &mut u64,
    lines: &mut [u8],
    lines_length: &mut u64,
) -> u32
    ensures opening { let config = config_of text.now in IsOpening
        handle.old.held.ports handle.new.held.ports
        (ports_at_start config) (opening_number config) result }
    ensures path { handle.old.held.ports ≡ None → result ≢ OUT_OF_MEMORY →
        path.new ≡ text_after (path_in (read_of text.now)) path.old }
    ensures path_length { handle.old.held.ports ≡ None → result ≢ OUT_OF_MEMORY →
        path_length.new ≡ text_length_after (path_in (read_of text.now)) path_length.old }
    ensures lines { handle.old.held.ports ≡ None → result ≢ OUT_OF_MEMORY →
        AreLinesOf (read_of text.now) lines.old lines.new lines_length.new }
    ensures no_path { (result ≡ OUT_OF_MEMORY) ⊎ (result ≡ ALREADY_OPEN) →
        (path.new ≡ path.old) × (path_length.new ≡ path_length.old) }
    ensures no_lines { (result ≡ OUT_OF_MEMORY) ⊎ (result ≡ ALREADY_OPEN) →
        (lines.new ≡ lines.old) × (lines_length.new ≡ lines_length.old) }
{
    if handle.is_open() {
        return ALREADY_OPEN;
    }
    match read_config(alloc, None, text) {
        Ok(Ok(config)) => open(alloc, handle, config),
        Ok(Err(refused)) => put_refused(alloc, &refused, path, path_length, lines, lines_length),
        Err(_) => OUT_OF_MEMORY,
    }
}

/// Closes a handle and gives its memory back. Answers `CLOSED` or `NOT_OPEN`.
#[unsafe(no_mangle)]
pub extern "C" fn apex_close(alloc: Global, handle: &mut Handle) -> u32
    ensures closed { handle.new.held.ports ≡ None }
    ensures answer { result ≡ (if is_some handle.old.held.ports then CLOSED else NOT_OPEN) }
{
    match handle.take(alloc) {
        Some(ports) => {
            drop(ports);
            CLOSED
        }
        None => NOT_OPEN,
    }
}

// Opens a handle with the ports of a configuration before the first call.
fn open(alloc: Global, handle: &mut Handle, config: Config) -> u32
    ensures answer { (result ≡ OPENED) ⊎ (result ≡ OUT_OF_MEMORY) }
    ensures opened { result ≡ OPENED → handle.new.held.ports ≡ ports_at_start (Ok config) }
    ensures refused { result ≢ OPENED → handle.new.held.ports ≡ handle.old.held.ports }
{
    match boxed_ports(alloc, config) {
        Ok(ports) => {
            *handle = Handle::of(ports);
            OPENED
        }
        Err(_) => OUT_OF_MEMORY,
    }
}

// The ports of a configuration before the first call.
fn boxed_ports(alloc: Global, config: Config) -> Result<Box<Ports>, OutOfMemory>
    ensures config { IfOk result (λ ports. ports.value.config ≡ config) }
    ensures fresh { IfOk result (λ ports. ports.value.history ≡ []) }
{
    let ports = Ports::new(alloc, config)?;
    Ok(Box::new(alloc, ports)?)
}

pub(crate) fn number_of_fault(fault: ConfigFault) -> u32
    ensures { result ≡ fault_number fault }
{
    match fault.number() {
        Some(number) => number,
        None => OUT_OF_MEMORY,
    }
}
