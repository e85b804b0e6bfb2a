//! JSON lines.
use serde::Serialize;
use std::alloc::{AllocError, Global};

/// An object on a line of its own.
pub fn push_object<T: Serialize>(
    alloc: Global,
    text: &mut String,
    object: &T,
) -> Result<(), AllocError> {
    // The objects have only names, numbers and texts, so nothing else than memory can run out.
    let Ok(json) = serde_json::to_string(alloc, object) else {
        return Err(AllocError);
    };
    text.push_str(json.as_str())?;
    text.push('\n')
}
