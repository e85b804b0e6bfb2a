//! The number of mistakes that are not listed.
use std::alloc::AllocError;

/// The maximum number of mistakes that are listed for a text.
pub const MISTAKE_LIMIT: usize = 20;

/// Adds the line with the number of further mistakes, if there are any. The only error is a failed allocation.
pub fn push_more(text: &mut String, more: usize) -> Result<(), AllocError> {
    if more == 0 {
        return Ok(());
    }
    writeln!(text, "and {more} more")
}
