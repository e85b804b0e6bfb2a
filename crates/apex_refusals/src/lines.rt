//! The lines of a refusal, one for each of the first places.
ghost use Rattle.std.specs.Prelude.{◌≡◌, take};
ghost use Rattle.apex_refusals.specs.declared.more.TheConstants.{MISTAKE_LIMIT};

use crate::finding::Finding;
use crate::form_finding::form_finding;
use crate::hint::hint_of;
use crate::line_of::line_of;
use crate::more::{MISTAKE_LIMIT, push_more};
use crate::owner::Owner;
use crate::path::PathOfPart;
use crate::places::{key_at, key_there};
use crate::printed::Named;
use crate::value_finding::{ReadText, value_finding};
use apex_config::channel_index::ChannelIndex;
use apex_config::config_text::ChannelText;
use apex_config::document::config_text;
use apex_config::ends::Ends;
use apex_config::place::{Part, Place};
use apex_config::refusal::Refusal;
use apex_module::ConfigFault;
use apex_types::Direction;
use std::alloc::{AllocError, Global};
use toml::Value;

/// How lines name their places.
#[derive(Clone, Copy)]
pub enum Form<'f> {
    /// By the names of what holds the place.
    Names,
    /// By the file and the line as well, with what was most likely meant.
    File { name: &'f str, text: &'f [u8] },
}

/// The lines so far for a refused document.
#[derive(Drop)]
struct Lines<'d> {
    alloc: Global,
    document: &'d Value,
    fault: ConfigFault,
    form: Form<'d>,
    text: String,
    /// The line of the file on which the last place was found.
    near: usize,
}

impl<'d> Lines<'d> {
    /// Adds the line of a place.
    fn push<'a>(
        &mut self,
        place: Place,
        finding: &Finding<'a>,
        channels: &[ChannelText<'a>],
    ) -> Result<(), AllocError> {
        let owner = Owner::new(self.document, self.fault, place.part);
        let Form::File { name, text } = self.form else {
            return writeln!(self.text, "{owner}: {finding}");
        };
        self.push_head(name, text, place)?;
        write!(self.text, "{owner}: {finding}")?;
        if let Some(hint) = hint_of(self.alloc, finding, channels)? {
            write!(self.text, "; {hint}")?;
        }
        self.text.push('\n')
    }

    /// Adds the file, the line if it is known, and the path of a place.
    fn push_head(&mut self, name: &str, text: &[u8], place: Place) -> Result<(), AllocError> {
        let key = key_there(self.document, place);
        self.text.push_str(name)?;
        if let Some(number) = line_of(self.alloc, text, place.part, key, &mut self.near)? {
            write!(self.text, ":{number}")?;
        }
        match (place.part, key_at(self.document, place)) {
            (Part::Document, Some(key)) => write!(self.text, ": {}: ", Named(key)),
            (part, Some(key)) => write!(self.text, ": {}.{}: ", PathOfPart(part), Named(key)),
            (part, None) => write!(self.text, ": {}: ", PathOfPart(part)),
        }
    }

    /// Adds the lines of places whose form is wrong.
    fn push_forms(&mut self, places: &[Place]) -> Result<(), AllocError> {
        for place in places {
            if let Some(finding) = form_finding(self.document, *place) {
                self.push(*place, &finding, &[])?;
            }
        }
        Ok(())
    }

    /// Adds the lines of places in a document whose form is right.
    fn push_values(&mut self, places: &[Place]) -> Result<(), AllocError> {
        let config = config_text(self.alloc, self.document)?;
        let channels = config.channels.as_slice();
        let (partitions, indexed) = match self.fault {
            ConfigFault::KindDiffers | ConfigFault::Sources | ConfigFault::Destinations => {
                (config.partitions.as_slice(), channels)
            }
            _ => (&config.partitions.as_slice()[..0], &channels[..0]),
        };
        let direction = match self.fault {
            ConfigFault::Sources => Direction::Source,
            _ => Direction::Destination,
        };
        let index = ChannelIndex::new(self.alloc, indexed)?;
        let ends = Ends::new(self.alloc, &index, partitions, direction)?;
        let read = ReadText {
            config: &config,
            channels: &index,
            ends: &ends,
            direction,
        };
        for place in places {
            if let Some(finding) = value_finding(self.document, &read, self.fault, *place) {
                self.push(*place, &finding, channels)?;
            }
        }
        Ok(())
    }
}

/// The places that get lines: the first ones.
fn first_of(places: &[Place]) -> &[Place]
    ensures { result.now ≡ take MISTAKE_LIMIT places.now }
{
    if places.len() > MISTAKE_LIMIT {
        &places[..MISTAKE_LIMIT]
    } else {
        places
    }
}

/// The lines for the first places of a refused document, and one with the number of further ones.
pub fn lines_of(
    alloc: Global,
    document: &Value,
    refusal: &Refusal,
    form: Form<'_>,
) -> Result<String, AllocError> {
    let mut lines = Lines {
        alloc,
        document,
        fault: refusal.fault,
        form,
        text: String::new(alloc),
        near: 0,
    };
    let places = refusal.places.as_slice();
    match refusal.fault {
        ConfigFault::Shape => lines.push_forms(first_of(places))?,
        _ => lines.push_values(first_of(places))?,
    }
    push_more(&mut lines.text, places.len().saturating_sub(MISTAKE_LIMIT))?;
    Ok(lines.text)
}
