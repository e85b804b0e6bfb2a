//! The path of a part of a configuration.
ghost use Rattle.std.specs.Prelude.{Some};
ghost use Rattle.apex_refusals.specs.Paths.{path_of};

use apex_config::Part;
use std::fmt;

/// A part of a configuration, as a path whose indexes count from 0.
#[derive(Clone, Copy)]
pub struct PathOfPart(pub Part);

impl fmt::Display for PathOfPart {
    ghost output = { λ path. Some (path_of path.0) };

    fn fmt<W: fmt::Write>(&self, f: &mut fmt::Formatter<W>) -> fmt::Result {
        match self.0 {
            Part::Document => f.write_str("configuration"),
            Part::Partition { partition } => write!(f, "partition[{partition}]"),
            Part::Port { partition, port } => write!(f, "partition[{partition}].port[{port}]"),
            Part::Channel { channel } => write!(f, "channel[{channel}]"),
        }
    }
}
