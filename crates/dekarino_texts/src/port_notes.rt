//! Which ports the calls of a trace created, and at which a sample was read.
ghost use Rattle.std.specs.Prelude.{◌≡◌, ℕ, [], ◌∷◌, ◌++◌, ◌||◌, OnOk};
ghost use Rattle.dekarino_texts.specs.Prelude.{History, entry_of, creates};
ghost use Rattle.dekarino_texts.specs.Notes.{ArePortsNoted, has_port, is_some_port};
ghost use Rattle.dekarino_texts.specs.Remarks.{shows_sample};

use apex_ports::Request;
use apex_types::{Call, Reply};
use std::alloc::{AllocError, Global};

/// A port, by its partition and its identifier.
#[derive(Clone, Copy, Debug, Drop)]
pub(crate) struct PortKey {
    partition: usize,
    id: u32,
}

/// The ports that were created and those at which a sample was read, each once.
#[derive(Drop)]
pub(crate) struct PortNotes {
    created: Vec<PortKey>,
    read: Vec<PortKey>,
}

impl PortNotes {
    /// The notes before the first call.
    pub(crate) fn new(alloc: Global) -> PortNotes
        ensures { ArePortsNoted [] result }
    {
        PortNotes {
            created: Vec::new(alloc),
            read: Vec::new(alloc),
        }
    }

    /// Notes a call and its reply.
    pub(crate) fn note(&mut self, request: &Request, reply: &Reply) -> Result<(), AllocError>
        ensures { let asked = request.now in
            let entry = entry_of asked.partition asked.at asked.call reply.now in
            OnOk result ((history : History) → ArePortsNoted history self.old →
            ArePortsNoted (history ++ entry ∷ []) self.new) }
    {
        add(&mut self.created, port_created(request, reply))?;
        add(&mut self.read, port_read(request, reply))
    }

    /// Whether a call of partition `p` created its port of the identifier.
    pub(crate) fn is_created(&self, p: usize, id: u32) -> bool
        ensures { result ≡ has_port p id self.now.created.items }
    {
        has_port(self.created.as_slice(), p, id)
    }

    /// Whether a call of partition `p` read a sample at its port of the identifier.
    pub(crate) fn is_read(&self, p: usize, id: u32) -> bool
        ensures { result ≡ has_port p id self.now.read.items }
    {
        has_port(self.read.as_slice(), p, id)
    }
}

/// The port that a call created, if it did.
fn port_created(request: &Request, reply: &Reply) -> Option<PortKey>
    ensures { let asked = request.now in
        let entry = entry_of asked.partition asked.at asked.call reply.now in
        (p id : ℕ) → is_some_port p id result ≡ creates p id entry }
{
    match (&request.call, reply) {
        (Call::CreateSampling { .. } | Call::CreateQueuing { .. }, Reply::Id(id)) => {
            Some(PortKey {
                partition: request.partition,
                id: *id,
            })
        }
        _ => None,
    }
}

/// The port at which a call read a sample, if it did.
fn port_read(request: &Request, reply: &Reply) -> Option<PortKey>
    ensures { let asked = request.now in
        let entry = entry_of asked.partition asked.at asked.call reply.now in
        (p id : ℕ) → is_some_port p id result ≡ shows_sample p id entry }
{
    match (&request.call, reply) {
        (Call::ReadSampling { id }, Reply::Read { .. }) => Some(PortKey {
            partition: request.partition,
            id: *id,
        }),
        _ => None,
    }
}

fn has_port(ports: &[PortKey], p: usize, id: u32) -> bool
    ensures { result ≡ has_port p id ports.now }
{
    ports
        .iter()
        .any(|port| port.partition == p && port.id == id)
}

/// Adds a port, if there is one and it isn't among them.
fn add(ports: &mut Vec<PortKey>, port: Option<PortKey>) -> Result<(), AllocError>
    ensures { OnOk result ((p id : ℕ) → has_port p id ports.new.items
        ≡ (is_some_port p id port || has_port p id ports.old.items)) }
{
    let Some(port) = port else {
        return Ok(());
    };
    if has_port(ports.as_slice(), port.partition, port.id) {
        return Ok(());
    }
    ports.push(port)?;
    Ok(())
}
