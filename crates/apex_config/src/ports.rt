//! Tests of each port.
ghost use Rattle.std.specs.Prelude.{◌≡◌, OnOk};
ghost use Rattle.apex_config.specs.Places.{Adds, unless, at_each};
ghost use Rattle.apex_config.specs.Passes.{at_ports, spot_of_port};

use crate::config_text::{PartitionText, PortText};
use crate::found::{Added, Finder, Places, add_each, add_unless};
use crate::place::{Part, Place, Spot};

/// A test of a port.
pub trait PortTest<X> {
    ghost use Rattle.std.specs.Prelude.{Bool};

    ghost passes: { Self → X → Bool };

    fn passes(&self, port: &X) -> bool
        ensures { result ≡ passes self.now port.now };
}

#[derive(Drop)]
struct PortsOf<'t, T> {
    partition: usize,
    spot: Spot,
    test: &'t T,
}

impl<'t, 'a, T: PortTest<PortText<'a>>> Finder<PortText<'a>> for PortsOf<'t, T> {
    ghost find = { λ ports i port.
        unless (T.passes ports.test.now port) (spot_of_port ports.spot ports.partition i) };

    fn add(&self, places: &mut Places, index: usize, entry: &PortText<'a>) -> Added {
        let part = Part::Port {
            partition: self.partition,
            port: index,
        };
        let spot = self.spot;
        add_unless(places, self.test.passes(entry), Place { part, spot })
    }
}

#[derive(Drop)]
struct AllPorts<'t, T> {
    spot: Spot,
    test: &'t T,
}

impl<'t, 'a, T: PortTest<PortText<'a>>> Finder<PartitionText<'a>> for AllPorts<'t, T> {
    ghost find = { λ ports p partition. at_each
        (λ i port. unless (T.passes ports.test.now port) (spot_of_port ports.spot p i))
        0 partition.ports };

    fn add(&self, places: &mut Places, index: usize, entry: &PartitionText<'a>) -> Added {
        let ports = PortsOf {
            partition: index,
            spot: self.spot,
            test: self.test,
        };
        add_each(places, entry.ports.as_slice(), &ports)
    }
}

/// Adds a spot for each port that fails a test.
pub fn add_ports_unless<'a, T: PortTest<PortText<'a>>>(
    places: &mut Places,
    partitions: &[PartitionText<'a>],
    spot: Spot,
    test: &T,
) -> Added
    ensures { OnOk result (Adds
        (at_ports (λ p i port. unless (T.passes test.now port) (spot_of_port spot p i))
        partitions.now)
        places.old.items places.new.items) }
{
    add_each(places, partitions, &AllPorts { spot, test })
}
