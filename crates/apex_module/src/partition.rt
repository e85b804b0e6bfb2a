//! Partitions.
ghost use Rattle.std.specs.Prelude.{◌≡◌, IfOk};
ghost use Rattle.std.specs.Cmp.Lexicographic.{pointwise};
ghost use Rattle.apex_module.specs.Equality.{equal_ports};

use crate::port::Port;
use apex_types::Name;
use std::alloc::{AllocError, Global};
use std::marker::Model;

/// A partition: its name, and its ports in the order of their identifiers.
#[derive(Debug, Drop)]
pub struct Partition {
    name: Name,
    ports: Vec<Port>,
}

impl Model for Partition {
    ghost use Rattle.apex_module.specs.Configuration.{PartitionData};

    ghost Value = { PartitionData };

    ghost view = { λ partition. record { name = partition.name; ports = partition.ports.items } };
}

impl Partition {
    /// Makes a partition with this name and these ports.
    pub fn new(name: Name, ports: Vec<Port>) -> Partition
        ensures name { result.name ≡ name }
        ensures ports { result.ports ≡ ports.items }
    {
        Partition { name, ports }
    }

    /// The partition's name.
    pub fn name(&self) -> &Name
        ensures { result.now ≡ self.now.name }
    {
        &self.name
    }

    /// The partition's ports, in the order of their identifiers.
    pub fn ports(&self) -> &[Port]
        ensures { result.now ≡ self.now.ports }
    {
        self.ports.as_slice()
    }

    /// A copy of the partition.
    pub fn copy(&self) -> Result<Partition, AllocError>
        ensures { IfOk result (λ partition. partition ≡ self.now) }
    {
        let ports = copies_of_ports(*self.ports.allocator(), self.ports.as_slice())?;
        Ok(Partition {
            name: self.name.copy(),
            ports,
        })
    }
}

impl PartialEq for Partition {
    ghost use Rattle.std.specs.Cmp.{partial_equiv_from_equiv};
    ghost use Rattle.apex_module.specs.Equality.{equal_partitions};
    ghost use Rattle.apex_module.specs.EqualityLaws.{equal_partitions-IsEquivalence};

    ghost eq = { equal_partitions };

    ghost laws = { partial_equiv_from_equiv equal_partitions-IsEquivalence };

    fn eq(&self, other: &Partition) -> bool {
        self.name == other.name && same_ports(self.ports.as_slice(), other.ports.as_slice())
    }
}

fn same_ports(ports: &[Port], others: &[Port]) -> bool
    ensures { result ≡ pointwise equal_ports ports.now others.now }
{
    ports == others
}

fn copies_of_ports(alloc: Global, ports: &[Port]) -> Result<Vec<Port>, AllocError>
    ensures { IfOk result (λ made. made.items ≡ ports.now) }
{
    let mut made = Vec::with_capacity(alloc, ports.len())?;
    for port in ports {
        made.push(port.copy())?;
    }
    Ok(made)
}
