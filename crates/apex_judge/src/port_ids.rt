//! The identifiers that a log gave to the ports of a partition.
ghost use Rattle.std.specs.Prelude.{◌≡◌, ◌==◌, [], find, IfOk, IfErr};
ghost use Rattle.apex_judge.specs.OwnIds.{ours_in, ours_of, system_of, is_new, given_of, known_of, known_with};

use apex_types::{OutOfMemory, Reply};
use std::alloc::Global;
use std::marker::Model;

/// An identifier that a log gave to a port.
#[derive(Clone, Copy, Debug, PartialEq, Eq)]
pub struct PortId {
    /// The system's.
    pub system: u32,
    /// Ours.
    pub ours: u32,
}

/// What a log showed before about a port that is created or asked for.
#[derive(Clone, Copy, Debug, PartialEq, Eq)]
pub struct KnownIds {
    /// The system's identifier of the port, if it is known.
    pub own: Option<u32>,
    /// Our identifier of the port that has the identifier in the reply, if one has it.
    pub holder: Option<u32>,
}

/// The identifiers that a log gave to the ports of a partition since it started last.
#[derive(Debug, Drop)]
pub(crate) struct PortIds {
    ids: Vec<PortId>,
}

impl Model for PortIds {
    ghost use Rattle.std.specs.Prelude.{List};
    ghost use Rattle.apex_judge.specs.declared.port_ids.PortId.{PortId};

    ghost Value = { List PortId };

    ghost view = { λ ids. ids.ids.items };
}

impl PortIds {
    /// None.
    pub(crate) fn new(alloc: Global) -> PortIds
        ensures { result ≡ [] }
    {
        PortIds {
            ids: Vec::new(alloc),
        }
    }

    fn with_system(&self, system: u32) -> Option<PortId>
        ensures { result ≡ find (λ one. one.system == system) self.now }
    {
        self.ids.iter().copied().find(|one| one.system == system)
    }

    fn with_ours(&self, ours: u32) -> Option<PortId>
        ensures { result ≡ find (λ one. one.ours == ours) self.now }
    {
        self.ids.iter().copied().find(|one| one.ours == ours)
    }

    /// Our identifier of the port that has one of the system's.
    fn ours_in(&self, system: u32) -> Option<u32>
        ensures { result ≡ ours_in self.now system }
    {
        let one = self.with_system(system)?;
        Some(one.ours)
    }

    /// Our identifier of the port that has one of the system's; 0 if none has it.
    pub(crate) fn ours_of(&self, system: u32) -> u32
        ensures { result ≡ ours_of self.now system }
    {
        self.ours_in(system).unwrap_or(0)
    }

    /// The system's identifier of a port.
    fn system_of(&self, ours: u32) -> Option<u32>
        ensures { result ≡ system_of self.now ours }
    {
        let one = self.with_ours(ours)?;
        Some(one.system)
    }

    /// Whether neither an identifier nor a port is known.
    fn is_new(&self, system: u32, port: u32) -> bool
        ensures { result ≡ is_new self.now system port }
    {
        self.ours_in(system).is_none() && self.system_of(port).is_none()
    }

    /// Our identifier instead of the one that a reply gives to a port.
    pub(crate) fn given_of(&self, port: Option<u32>, system: u32) -> u32
        ensures { result ≡ given_of self.now port system }
    {
        match port {
            Some(port) if self.ours_of(system) == port || self.is_new(system, port) => port,
            _ => 0,
        }
    }

    /// What is known about a port that is created or asked for.
    pub(crate) fn known_of(&self, port: Option<u32>, system: u32) -> KnownIds
        ensures { result ≡ known_of self.now port system }
    {
        match port {
            None => KnownIds {
                own: None,
                holder: None,
            },
            Some(port) => KnownIds {
                own: self.system_of(port),
                holder: self.ours_in(system),
            },
        }
    }

    /// Goes along with a reply about a port. Where there is no memory for its identifier, nothing changes.
    pub(crate) fn learn(&mut self, port: Option<u32>, reply: &Reply) -> Result<(), OutOfMemory>
        ensures known { IfOk result (λ _. self.new ≡ known_with self.old port reply.now) }
        ensures refused { IfErr result (λ _. self.new ≡ self.old) }
    {
        if let (Some(port), Reply::Id(system)) = (port, reply) {
            if self.is_new(*system, port) {
                self.ids.push(PortId {
                    system: *system,
                    ours: port,
                })?;
            }
        }
        Ok(())
    }

    /// Forgets all.
    pub(crate) fn clear(&mut self)
        ensures { self.new ≡ [] }
    {
        self.ids.clear();
    }
}
