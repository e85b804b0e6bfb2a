//! The version of the program.
use crate::start::Origin;
use std::alloc::{AllocError, Global};

/// The version, which is that of the first entry of CHANGES.md.
pub const VERSION: &str = "0.2.0";

/// The version, and as far as they are known the toolchain that proved the program and the commit that it is from, a line
/// each.
pub fn version_text(alloc: Global, origin: &Origin) -> Result<String, AllocError> {
    let mut text = format!(in alloc; "dekarino {VERSION}\n")?;
    if let Some(toolchain) = &origin.toolchain {
        writeln!(text, "proved by {toolchain}")?;
    }
    if let Some(commit) = &origin.commit {
        writeln!(text, "commit {commit}")?;
    }
    Ok(text)
}
