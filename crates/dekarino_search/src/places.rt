//! JSON lines for the places where a text is wrong.
use crate::json::push_object;
use serde::Serialize;
use std::alloc::{AllocError, Global};

/// A place of a text's fault: the number of the fault, and the line that describes the place.
#[derive(Drop, Serialize)]
struct PlaceLine<'a> {
    fault: Option<u32>,
    place: &'a str,
}

/// The object of a place.
pub(crate) fn push_place(
    alloc: Global,
    text: &mut String,
    fault: Option<u32>,
    place: &str,
) -> Result<(), AllocError> {
    push_object(alloc, text, &PlaceLine { fault, place })
}
