//! What an entry of a log is about, which is doubted after it departs.
ghost use Rattle.std.specs.Prelude.{◌≡◌, ◌<◌, length};
ghost use Rattle.apex_judge.specs.Prelude.{Moment, entry_of, queuing_of_id, sampling_of_id};
ghost use Rattle.apex_judge.specs.Subjects.{id_in, port_about, is_of_mode, subject_of};

use apex_module::{Config, PortKind};
use apex_types::{Call, Reply, ReturnCode};

/// What an entry of a log is about.
#[derive(Clone, Copy, Debug)]
pub(crate) enum Subject {
    /// The mode of the partition.
    Mode,
    /// The configured port of the identifier.
    Port(u32),
    /// Neither.
    Nothing,
}

/// The subject of an entry of a partition, if the standard has this reply.
pub(crate) fn subject_of(
    config: &Config,
    partition: usize,
    call: &Call,
    reply: &Reply,
    standard: &Reply,
) -> Subject
    requires { partition < length config.now.partitions }
    ensures { (at : Moment) → let entry = entry_of partition at call.now reply.now in
        result ≡ subject_of config.now entry standard.now }
{
    if is_of_mode(call, reply) || is_of_mode(call, standard) {
        return Subject::Mode;
    }
    match port_about(config, partition, call) {
        Some(id) => Subject::Port(id),
        None => Subject::Nothing,
    }
}

// Whether a reply is of the mode.
fn is_of_mode(call: &Call, reply: &Reply) -> bool
    ensures { result ≡ is_of_mode call.now reply.now }
{
    match call {
        Call::SetMode { .. } => true,
        Call::CreateSampling { .. } | Call::CreateQueuing { .. } => matches!(
            reply,
            Reply::NotMade | Reply::Code(ReturnCode::InvalidMode)
        ),
        _ => matches!(reply, Reply::NotMade),
    }
}

/// The identifier of the port that a call uses by name or by identifier, if it is configured and of the call's kind.
pub(crate) fn port_about(config: &Config, partition: usize, call: &Call) -> Option<u32>
    requires { partition < length config.now.partitions }
    ensures { result ≡ port_about config.now partition call.now }
{
    match call {
        Call::CreateSampling { name, .. } | Call::SamplingId { name } => {
            sampling_id(config, partition, config.port_named(partition, name))
        }
        Call::CreateQueuing { name, .. } | Call::QueuingId { name } => {
            queuing_id(config, partition, config.port_named(partition, name))
        }
        Call::WriteSampling { id, .. } | Call::ReadSampling { id } | Call::SamplingStatus { id } =>
            sampling_id(config, partition, Some(*id)),
        Call::SendQueuing { id, .. }
        | Call::ReceiveQueuing { id }
        | Call::QueuingStatus { id }
        | Call::ClearQueuing { id } => queuing_id(config, partition, Some(*id)),
        Call::SetMode { .. } => None,
    }
}

// The identifier, if it is a sampling port's.
fn sampling_id(config: &Config, partition: usize, id: Option<u32>) -> Option<u32>
    ensures { result ≡ id_in (sampling_of_id config.now partition id) }
{
    let id = id?;
    let port = config.port(partition, id)?;
    match port.kind {
        PortKind::Queuing => None,
        PortKind::Sampling { .. } => Some(id),
    }
}

// The identifier, if it is a queuing port's.
fn queuing_id(config: &Config, partition: usize, id: Option<u32>) -> Option<u32>
    ensures { result ≡ id_in (queuing_of_id config.now partition id) }
{
    let id = id?;
    let port = config.port(partition, id)?;
    match port.kind {
        PortKind::Queuing => Some(id),
        PortKind::Sampling { .. } => None,
    }
}
