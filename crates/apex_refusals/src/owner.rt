//! How a line names the part of a configuration that holds a fault.

use crate::places::value_of;
use crate::printed::Named;
use apex_config::key::Key;
use apex_config::place::Part;
use apex_config::value::text_at;
use apex_module::ConfigFault;
use std::fmt;
use toml::Value;

/// An entry of a list, by its name, or by its number from 1 if it has none.
#[derive(Clone, Copy)]
struct Label<'a> {
    index: usize,
    name: Option<&'a str>,
}

impl fmt::Display for Label<'_> {
    fn fmt<W: fmt::Write>(&self, f: &mut fmt::Formatter<W>) -> fmt::Result {
        match self.name {
            Some(name) => write!(f, "{}", Named(name)),
            None => write!(f, "number {}", self.index.saturating_add(1)),
        }
    }
}

/// A part, with the name of its partition and its own, if the line uses them.
#[derive(Clone, Copy)]
pub struct Owner<'a> {
    part: Part,
    partition: Option<&'a str>,
    name: Option<&'a str>,
}

/// The name of a part of a document.
fn name_of(document: &Value, part: Part) -> Option<&str> {
    text_at(value_of(document, part)?, Key::Name)
}

impl<'a> Owner<'a> {
    /// A part of a document. A name that another part had before doesn't identify its part.
    pub fn new(document: &'a Value, fault: ConfigFault, part: Part) -> Owner<'a> {
        let partition = match part {
            Part::Port { partition, .. } => name_of(document, Part::Partition { partition }),
            _ => None,
        };
        let name = match fault {
            ConfigFault::NameTwice => None,
            _ => name_of(document, part),
        };
        Owner {
            part,
            partition,
            name,
        }
    }
}

impl fmt::Display for Owner<'_> {
    fn fmt<W: fmt::Write>(&self, f: &mut fmt::Formatter<W>) -> fmt::Result {
        let name = self.name;
        match self.part {
            Part::Document => f.write_str("configuration"),
            Part::Partition { partition } => {
                let index = partition;
                write!(f, "partition {}", Label { index, name })
            }
            Part::Port { partition, port } => {
                let owner = Label {
                    index: partition,
                    name: self.partition,
                };
                write!(f, "partition {owner}, port {}", Label { index: port, name })
            }
            Part::Channel { channel } => {
                let index = channel;
                write!(f, "channel {}", Label { index, name })
            }
        }
    }
}
