//! What CREATE_QUEUING_PORT, CREATE_SAMPLING_PORT, GET_QUEUING_PORT_ID and GET_SAMPLING_PORT_ID decide.
ghost use Rattle.std.specs.Prelude.{◌≡◌, ◌<◌, length, true, MatchResult};
ghost use Rattle.apex_ports.specs.declared.rows.Row.TheVariants as row;
ghost use Rattle.apex_types.specs.declared.moment.Moment.{Moment};
ghost use Rattle.apex_ports.specs.Noted.{call_by};
ghost use Rattle.apex_ports.specs.Ports.{is_create_queuing, is_create_sampling, queuing_named, sampling_named};
ghost use Rattle.apex_ports.specs.ReplyTable.{id_row, service_row};

use crate::modes::is_normal;
use crate::noted::CallRef;
use crate::rows::Refusal;
use crate::table::lookup::{queuing_named, sampling_named};
use crate::view::View;
use apex_module::Config;
use apex_types::Name;

/// The greatest QUEUING_DISCIPLINE: FIFO is 0, PRIORITY is 1.
const PRIORITY: u32 = 1;

/// The identifier of the port that CREATE_QUEUING_PORT creates, or why it is refused.
pub(crate) fn created_queuing_id<V: View>(
    view: &V,
    config: &Config,
    partition: usize,
    call: CallRef<'_>,
) -> Result<u32, Refusal>
    requires partition { partition < length config.now.partitions }
    requires kept { V.is_kept config.now view.now }
    requires call { is_create_queuing (call_by call) ≡ true }
    ensures { let here = V.seen config.now view.now partition in (at : Moment) →
        let given = service_row config.now here partition at (call_by call.entry) in
        MatchResult result (λ id. given ≡ row.Created id)
        (λ refusal. given ≡ row.Refused refusal) }
{
    let CallRef::CreateQueuing {
        name,
        size,
        depth,
        direction,
        discipline,
    } = call
    else {
        unreachable!();
    };
    let Some((id, port)) = queuing_named(config, partition, name) else {
        return Err(Refusal::NotConfigured);
    };
    let channel = config.channel(port.channel);
    if view.is_created(config, partition, id) {
        Err(Refusal::AlreadyCreated)
    } else if size != channel.size {
        Err(Refusal::SizeDiffers)
    } else if depth != channel.kind.depth() {
        Err(Refusal::DepthDiffers)
    } else if direction != port.direction.number() {
        Err(Refusal::DirectionDiffers)
    } else if discipline > PRIORITY {
        Err(Refusal::UnknownDiscipline)
    } else if is_normal(view.mode(config, partition)) {
        Err(Refusal::InNormal)
    } else {
        Ok(id)
    }
}

/// The identifier of the port that CREATE_SAMPLING_PORT creates, or why it is refused.
pub(crate) fn created_sampling_id<V: View>(
    view: &V,
    config: &Config,
    partition: usize,
    call: CallRef<'_>,
) -> Result<u32, Refusal>
    requires partition { partition < length config.now.partitions }
    requires kept { V.is_kept config.now view.now }
    requires call { is_create_sampling (call_by call) ≡ true }
    ensures { let here = V.seen config.now view.now partition in (at : Moment) →
        let given = service_row config.now here partition at (call_by call.entry) in
        MatchResult result (λ id. given ≡ row.Created id)
        (λ refusal. given ≡ row.Refused refusal) }
{
    let CallRef::CreateSampling {
        name,
        size,
        direction,
        refresh,
    } = call
    else {
        unreachable!();
    };
    let Some((id, port)) = sampling_named(config, partition, name) else {
        return Err(Refusal::NotConfigured);
    };
    let channel = config.channel(port.channel);
    if view.is_created(config, partition, id) {
        Err(Refusal::AlreadyCreated)
    } else if size != channel.size {
        Err(Refusal::SizeDiffers)
    } else if direction != port.direction.number() {
        Err(Refusal::DirectionDiffers)
    } else if refresh != port.kind.refresh() {
        Err(Refusal::RefreshDiffers)
    } else if is_normal(view.mode(config, partition)) {
        Err(Refusal::InNormal)
    } else {
        Ok(id)
    }
}

/// The identifier that GET_QUEUING_PORT_ID gives, or why it is refused.
pub(crate) fn queuing_id<V: View>(
    view: &V,
    config: &Config,
    partition: usize,
    name: &Name,
) -> Result<u32, Refusal>
    requires partition { partition < length config.now.partitions }
    requires kept { V.is_kept config.now view.now }
    ensures { let here = V.seen config.now view.now partition in
        let named = queuing_named config.now partition name.now in
        let given = id_row here named in
        MatchResult result (λ id. given ≡ row.Identified id)
        (λ refusal. given ≡ row.Refused refusal) }
{
    match queuing_named(config, partition, name) {
        Some((id, _)) if view.is_created(config, partition, id) => Ok(id),
        _ => Err(Refusal::NotCreated),
    }
}

/// The identifier that GET_SAMPLING_PORT_ID gives, or why it is refused.
pub(crate) fn sampling_id<V: View>(
    view: &V,
    config: &Config,
    partition: usize,
    name: &Name,
) -> Result<u32, Refusal>
    requires partition { partition < length config.now.partitions }
    requires kept { V.is_kept config.now view.now }
    ensures { let here = V.seen config.now view.now partition in
        let named = sampling_named config.now partition name.now in
        let given = id_row here named in
        MatchResult result (λ id. given ≡ row.Identified id)
        (λ refusal. given ≡ row.Refused refusal) }
{
    match sampling_named(config, partition, name) {
        Some((id, _)) if view.is_created(config, partition, id) => Ok(id),
        _ => Err(Refusal::NotCreated),
    }
}
