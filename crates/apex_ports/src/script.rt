//! Scripts.
use apex_types::{Call, Moment};
use std::marker::Model;

/// The calls of one partition, in order, each with its moment.
#[derive(Debug, Drop)]
pub struct Script {
    pub calls: Vec<(Moment, Call)>,
}

impl Model for Script {
    ghost use Rattle.std.specs.Prelude.{List};
    ghost use Rattle.apex_types.specs.declared.call.Call.{Call};
    ghost use Rattle.apex_types.specs.declared.moment.Moment.{Moment};

    ghost Value = { List (Moment × Call) };

    ghost view = { λ script. script.calls.items };
}
