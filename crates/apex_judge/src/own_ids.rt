//! Logs with a system's own identifiers, which are judged with ours in their place.
ghost use Rattle.std.specs.Prelude.{◌≡◌, ◌<◌, length, Some, IfOk};
ghost use Rattle.apex_judge.specs.Prelude.{is_code_no_error};
ghost use Rattle.apex_judge.specs.OwnIds.{id_asked, asked_of, id_replied, replied_of, port_asked, restarted, in_ours, known_after, replaced_by, none_known, entry_in_ours, own_after, replaced_in, restored};

use crate::port_ids::{KnownIds, PortIds};
use apex_module::Config;
use apex_ports::Entry;
use apex_types::{Call, Mode, OutOfMemory, Reply, ReturnCode};
use std::alloc::{AllocError, Global};
use std::marker::Model;

/// The system's identifiers in an entry that now has ours, and what was known about them before.
#[derive(Clone, Copy, Debug, PartialEq, Eq)]
pub struct Replaced {
    asked: u32,
    replied: u32,
    /// What was known before about the port that is created or asked for.
    pub known: KnownIds,
}

/// The identifiers that a log gave to the ports of each partition, if the log has a system's own. A contract sees whether
/// it has, and the lists of identifiers.
#[derive(Debug, Drop)]
pub struct OwnIds {
    on: bool,
    partitions: Vec<PortIds>,
}

impl Model for OwnIds {
    ghost use Rattle.apex_judge.specs.OwnIds.{Own};

    ghost Value = { Own };

    ghost view = { λ own. record { on = own.on; known = own.partitions.items } };
}

impl OwnIds {
    /// Before the first entry. `on` says whether the log's identifiers are the system's.
    pub fn new(alloc: Global, config: &Config, on: bool) -> Result<OwnIds, AllocError>
        ensures { IfOk result (λ own. own ≡ none_known on config.now) }
    {
        let mut partitions = Vec::with_capacity(alloc, config.partitions())?;
        for _ in 0..config.partitions() {
            partitions.push(PortIds::new(alloc))?;
        }
        Ok(OwnIds { on, partitions })
    }

    /// Replaces the system's identifiers in the next entry of a log with ours, if the log has the system's. If there is no
    /// memory for a new identifier, the entry is unspecified.
    pub fn enter(
        &mut self,
        config: &Config,
        entry: &mut Entry,
    ) -> Result<Option<Replaced>, OutOfMemory>
        requires partition { entry.old.partition < length config.now.partitions }
        requires known { length self.old.known ≡ length config.now.partitions }
        ensures entry { IfOk result (λ _.
            entry.new ≡ entry_in_ours config.now self.old entry.old) }
        ensures known { IfOk result (λ _. self.new ≡ own_after config.now self.old entry.old) }
        ensures partition { IfOk result (λ _. entry.new.partition ≡ entry.old.partition) }
        ensures count { IfOk result (λ _. length self.new.known ≡ length self.old.known) }
        ensures replaced { IfOk result (λ replaced.
            replaced ≡ replaced_in config.now self.old entry.old) }
    {
        if !self.on {
            return Ok(None);
        }
        let replaced = enter(&mut self.partitions[entry.partition], config, entry)?;
        Ok(Some(replaced))
    }
}

impl Replaced {
    /// Puts the system's identifiers back into an entry.
    pub fn restore(self, entry: &mut Entry)
        ensures { entry.new ≡ restored (Some self) entry.old }
    {
        set_asked(&mut entry.call, self.asked);
        set_replied(&mut entry.reply, self.replied);
    }
}

// Replaces the system's identifiers in an entry of a partition.
fn enter(ids: &mut PortIds, config: &Config, entry: &mut Entry) -> Result<Replaced, OutOfMemory>
    requires { entry.old.partition < length config.now.partitions }
    ensures entry { IfOk result (λ _. entry.new ≡ in_ours config.now ids.old entry.old) }
    ensures known { IfOk result (λ _. ids.new ≡ known_after config.now ids.old entry.old) }
    ensures replaced { IfOk result (λ replaced.
        replaced ≡ replaced_by config.now ids.old entry.old) }
{
    let port = port_asked(config, entry.partition, &entry.call);
    let (asked, replied) = (id_asked(&entry.call), id_replied(&entry.reply));
    let known = ids.known_of(port, replied);
    let (ours, given) = (ids.ours_of(asked), ids.given_of(port, replied));
    if restarted(&entry.call, &entry.reply) {
        ids.clear();
    } else {
        ids.learn(port, &entry.reply)?;
    }
    set_asked(&mut entry.call, ours);
    set_replied(&mut entry.reply, given);
    Ok(Replaced {
        asked,
        replied,
        known,
    })
}

// Whether the entry of a call and its reply restarts the partition.
fn restarted(call: &Call, reply: &Reply) -> bool
    ensures { result ≡ restarted call.now reply.now }
{
    match (call, reply) {
        (Call::SetMode { mode }, Reply::Code(ReturnCode::NoError)) => matches!(
            Mode::from_number(*mode),
            Some(Mode::ColdStart | Mode::WarmStart)
        ),
        _ => false,
    }
}

// Our identifier of the port that a call creates or asks for.
fn port_asked(config: &Config, partition: usize, call: &Call) -> Option<u32>
    requires { partition < length config.now.partitions }
    ensures { result ≡ port_asked config.now partition call.now }
{
    match call {
        Call::CreateSampling { name, .. }
        | Call::CreateQueuing { name, .. }
        | Call::SamplingId { name }
        | Call::QueuingId { name } => config.port_named(partition, name),
        _ => None,
    }
}

fn id_asked(call: &Call) -> u32
    ensures { result ≡ id_asked call.now }
{
    match call {
        Call::WriteSampling { id, .. }
        | Call::ReadSampling { id }
        | Call::SamplingStatus { id }
        | Call::SendQueuing { id, .. }
        | Call::ReceiveQueuing { id }
        | Call::QueuingStatus { id }
        | Call::ClearQueuing { id } => *id,
        _ => 0,
    }
}

fn set_asked(call: &mut Call, ours: u32)
    ensures { call.new ≡ asked_of ours call.old }
{
    match call {
        Call::WriteSampling { id, .. } => *id = ours,
        Call::ReadSampling { id } => *id = ours,
        Call::SamplingStatus { id } => *id = ours,
        Call::SendQueuing { id, .. } => *id = ours,
        Call::ReceiveQueuing { id } => *id = ours,
        Call::QueuingStatus { id } => *id = ours,
        Call::ClearQueuing { id } => *id = ours,
        _ => {}
    }
}

fn id_replied(reply: &Reply) -> u32
    ensures { result ≡ id_replied reply.now }
{
    match reply {
        Reply::Id(id) => *id,
        _ => 0,
    }
}

fn set_replied(reply: &mut Reply, ours: u32)
    ensures { reply.new ≡ replied_of ours reply.old }
{
    if let Reply::Id(id) = reply {
        *id = ours;
    }
}
