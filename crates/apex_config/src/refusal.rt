//! Why the text of a configuration is refused, and where.
use crate::place::Place;
use apex_module::ConfigFault;
use std::marker::Model;

/// Why a text is refused: the fault of the first pass that finds one, and all places that this pass finds. If memory
/// ran out, there are no places.
#[derive(Debug, Drop)]
pub struct Refusal {
    pub fault: ConfigFault,
    pub places: Vec<Place>,
}

impl Model for Refusal {
    ghost use Rattle.apex_config.specs.Meaning.{RefusalData};

    ghost Value = { RefusalData };

    ghost view = { λ refusal. record {
      fault = refusal.fault;
      places = refusal.places.items;
    } };
}
