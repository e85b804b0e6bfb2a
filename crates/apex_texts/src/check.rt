//! The line that says what an accepted configuration has.
ghost use Rattle.std.specs.Prelude.{◌≡◌, string_bytes, IfOk};
ghost use Rattle.apex_texts.specs.Check.{port_count, counts_line, check_line};

use apex_module::Config;
use std::alloc::{AllocError, Global};

/// `ok partitions P ports Q channels C` for a configuration, as a line.
pub fn check_line(alloc: Global, config: &Config) -> Result<String, AllocError>
    ensures { IfOk result (λ text. string_bytes text ≡ check_line config.now) }
{
    counts_line(
        alloc,
        config.partitions(),
        count_ports(config),
        config.channels(),
    )
}

fn counts_line(
    alloc: Global,
    partitions: usize,
    ports: usize,
    channels: usize,
) -> Result<String, AllocError>
    ensures { IfOk result (λ text. string_bytes text ≡ counts_line partitions ports channels) }
{
    format!(in alloc; "ok partitions {partitions} ports {ports} channels {channels}\n")
}

/// The number of ports of all partitions.
fn count_ports(config: &Config) -> usize
    ensures { result ≡ port_count config.now }
{
    let mut ports: usize = 0;
    for p in 0..config.partitions() {
        ports += config.ports(p);
    }
    ports
}
