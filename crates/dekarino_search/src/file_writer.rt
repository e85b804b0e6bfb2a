//! Writing files and making folders.
use std::io;

/// Writes files and makes folders.
pub trait FileWriter {
    /// Makes the bytes the content of the file at a path.
    fn write_file(&self, path: &str, bytes: &[u8]) -> io::Result<()>;

    /// Makes the folder at a path, and those that it is in, unless it is there.
    fn make_folder(&self, path: &str) -> io::Result<()>;
}
