//! The parts of scripts, with the scripts of each.
ghost use Rattle.std.specs.Prelude.{◌≡◌, length, IfOk};
ghost use Rattle.apex_groups.specs.PartSearches.{AreParts, IsPartOf};

use crate::groups::Groups;
use crate::parts::Parts;
use crate::script_parts::scripts_of;
use apex_module::Config;
use apex_ports::Script;
use std::alloc::{AllocError, Global};

/// A part of scripts.
#[derive(Drop)]
pub(crate) struct ScriptPart {
    /// The part's partitions and channels, as group 1.
    pub(crate) members: Groups,
    /// The scripts of these partitions, and an empty script for each other one.
    pub(crate) scripts: Vec<Script>,
}

impl ScriptPart {
    fn new(
        alloc: Global,
        config: &Config,
        parts: &Parts,
        part: usize,
        scripts: &[Script],
    ) -> Result<ScriptPart, AllocError>
        requires { length scripts.now ≡ length config.now.partitions }
        ensures { IfOk result (λ one. IsPartOf config.now scripts.now one) }
    {
        let members = parts.members(alloc, config, part)?;
        let scripts = scripts_of(alloc, &members, 1, scripts)?;
        Ok(ScriptPart { members, scripts })
    }
}

/// All parts, in their order.
pub(crate) fn all_parts(
    alloc: Global,
    config: &Config,
    parts: &Parts,
    scripts: &[Script],
) -> Result<Vec<ScriptPart>, AllocError>
    requires { length scripts.now ≡ length config.now.partitions }
    ensures count { IfOk result (λ all. length all.items ≡ parts.now.count) }
    ensures parts { IfOk result (λ all. AreParts config.now scripts.now all.items) }
{
    let mut all = Vec::with_capacity(alloc, parts.count)?;
    for part in 0..parts.count {
        all.push(ScriptPart::new(alloc, config, parts, part, scripts)?)?;
    }
    Ok(all)
}

/// Whether a partition has a call to make.
pub(crate) fn have_calls(scripts: &[Script]) -> bool {
    scripts.iter().any(|script| !script.calls.is_empty())
}
