//! Ports by identifier and by name.
ghost use Rattle.std.specs.Prelude.{◌≡◌, ◌<◌, length, Some, None, IfSome, MatchOption};
ghost use Rattle.std.specs.Option.{option_copied};
ghost use Rattle.apex_module.specs.Configuration.{port_of, ports_of};
ghost use Rattle.apex_ports.specs.Ports.{IsIdentifier, queuing_named, sampling_named};
ghost use Rattle.apex_ports.specs.Seen.{created_port, queuing_port, sampling_port};

use crate::view::View;
use apex_module::{Config, Port, PortKind};
use apex_types::Name;

/// The partition's configured port with the identifier, created or not.
pub(crate) fn configured_port<'a>(config: &'a Config, partition: usize, id: u32) -> Option<&'a Port>
    ensures found { option_copied result ≡ port_of config.now partition id }
    ensures identifier { IfSome result (λ _. IsIdentifier (ports_of config.now partition) id) }
    ensures linked { IfSome result (λ port. port.now.channel < length config.now.channels) }
{
    config.port(partition, id)
}

// The partition's port with the identifier, if it is created.
fn created_port<'a, V: View>(
    view: &V,
    config: &'a Config,
    partition: usize,
    id: u32,
) -> Option<&'a Port>
    requires partition { partition < length config.now.partitions }
    requires kept { V.is_kept config.now view.now }
    ensures port { let here = V.seen config.now view.now partition in
        option_copied result ≡ created_port config.now here partition id }
    ensures configured { IfSome result (λ port. port_of config.now partition id ≡ Some port.now) }
    ensures identifier { IfSome result (λ _. IsIdentifier (ports_of config.now partition) id) }
    ensures linked { IfSome result (λ port. port.now.channel < length config.now.channels) }
{
    let port = configured_port(config, partition, id)?;
    if view.is_created(config, partition, id) {
        Some(port)
    } else {
        None
    }
}

/// The partition's queuing port with the identifier, if it is created.
pub fn queuing_port<'a, V: View>(
    view: &V,
    config: &'a Config,
    partition: usize,
    id: u32,
) -> Option<&'a Port>
    requires partition { partition < length config.now.partitions }
    requires kept { V.is_kept config.now view.now }
    ensures port { let here = V.seen config.now view.now partition in
        option_copied result ≡ queuing_port config.now here partition id }
    ensures configured { IfSome result (λ port. port_of config.now partition id ≡ Some port.now) }
    ensures linked { IfSome result (λ port. port.now.channel < length config.now.channels) }
{
    let port = created_port(view, config, partition, id)?;
    match port.kind {
        PortKind::Queuing => Some(port),
        PortKind::Sampling { .. } => None,
    }
}

/// The partition's sampling port with the identifier, if it is created.
pub fn sampling_port<'a, V: View>(
    view: &V,
    config: &'a Config,
    partition: usize,
    id: u32,
) -> Option<&'a Port>
    requires partition { partition < length config.now.partitions }
    requires kept { V.is_kept config.now view.now }
    ensures port { let here = V.seen config.now view.now partition in
        option_copied result ≡ sampling_port config.now here partition id }
    ensures configured { IfSome result (λ port. port_of config.now partition id ≡ Some port.now) }
    ensures identifier { IfSome result (λ _. IsIdentifier (ports_of config.now partition) id) }
    ensures linked { IfSome result (λ port. port.now.channel < length config.now.channels) }
{
    let port = created_port(view, config, partition, id)?;
    match port.kind {
        PortKind::Queuing => None,
        PortKind::Sampling { .. } => Some(port),
    }
}

/// The partition's configured queuing port with the name, created or not, and its identifier.
pub(crate) fn queuing_named<'a>(
    config: &'a Config,
    partition: usize,
    name: &Name,
) -> Option<(u32, &'a Port)>
    requires { partition < length config.now.partitions }
    ensures found { MatchOption result
        (queuing_named config.now partition name.now ≡ None)
        (λ found. queuing_named config.now partition name.now
        ≡ Some (record { id = found.0; port = found.1.now })) }
    ensures identifier { IfSome result
        (λ found. IsIdentifier (ports_of config.now partition) found.0) }
    ensures linked { IfSome result (λ found. found.1.now.channel < length config.now.channels) }
{
    let id = config.port_named(partition, name)?;
    let port = configured_port(config, partition, id)?;
    match port.kind {
        PortKind::Queuing => Some((id, port)),
        PortKind::Sampling { .. } => None,
    }
}

/// The partition's configured sampling port with the name, created or not, and its identifier.
pub(crate) fn sampling_named<'a>(
    config: &'a Config,
    partition: usize,
    name: &Name,
) -> Option<(u32, &'a Port)>
    requires { partition < length config.now.partitions }
    ensures found { MatchOption result
        (sampling_named config.now partition name.now ≡ None)
        (λ found. sampling_named config.now partition name.now
        ≡ Some (record { id = found.0; port = found.1.now })) }
    ensures identifier { IfSome result
        (λ found. IsIdentifier (ports_of config.now partition) found.0) }
    ensures linked { IfSome result (λ found. found.1.now.channel < length config.now.channels) }
{
    let id = config.port_named(partition, name)?;
    let port = configured_port(config, partition, id)?;
    match port.kind {
        PortKind::Queuing => None,
        PortKind::Sampling { .. } => Some((id, port)),
    }
}
