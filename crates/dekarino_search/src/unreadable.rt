//! The line of a file that can't be read.
use apex_files::{FILE_LIMIT, Obstacle, READ_LIMIT};
use std::fmt::{Display, Formatter};
use std::{fmt, io};

/// A file that can't be read, and why.
#[derive(Clone, Copy, Debug, Drop)]
pub struct UnreadableFile<'a> {
    pub path: &'a str,
    pub obstacle: Obstacle,
}

impl Display for UnreadableFile<'_> {
    fn fmt<W: fmt::Write>(&self, f: &mut Formatter<W>) -> fmt::Result {
        write!(f, "cannot read {}: ", self.path)?;
        match self.obstacle {
            Obstacle::NotFound => write!(f, "no such file"),
            Obstacle::PermissionDenied => write!(f, "permission denied"),
            Obstacle::IsFolder => write!(f, "it is a folder"),
            Obstacle::TooLarge => write!(f, "it is larger than {FILE_LIMIT} bytes"),
            Obstacle::NotEnded => write!(f, "it had not ended after {READ_LIMIT} reads"),
            Obstacle::System(Some(number)) => {
                write!(f, "{}", io::Error::from_raw_os_error(number))
            }
            Obstacle::System(None) => write!(f, "the system did not say why"),
        }
    }
}
