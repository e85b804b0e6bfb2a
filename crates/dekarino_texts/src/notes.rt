//! What the remarks need of the calls of a trace, noted call by call.
ghost use Rattle.std.specs.Prelude.{◌≡◌, List, [], ◌∷◌, ◌++◌, ◌<◌, length, OnOk};
ghost use Rattle.dekarino_texts.specs.Prelude.{Configuration, entry_of};
ghost use Rattle.dekarino_texts.specs.Notes.{AreNoted};
ghost use Rattle.dekarino_texts.specs.Remarks.{LineEntry, earlier, not_made};

use crate::port_notes::PortNotes;
use crate::remark::Remark;
use apex_module::Config;
use apex_ports::Request;
use apex_types::{Moment, Reply};
use std::alloc::{AllocError, Global};

/// What was noted of the calls so far. It grows by the remarks on them, and by each port once.
#[derive(Drop)]
pub(crate) struct Notes {
    /// How many calls there were.
    pub(crate) calls: usize,
    /// The moment of the last call.
    last: Moment,
    /// The remarks on moments.
    pub(crate) earlier: Vec<Remark>,
    /// The remarks on calls that were not made.
    pub(crate) not_made: Vec<Remark>,
    pub(crate) ports: PortNotes,
}

impl Notes {
    /// The notes before the first call.
    pub(crate) fn new(alloc: Global) -> Notes
        ensures { (config : Configuration) → AreNoted config [] result }
    {
        Notes {
            calls: 0,
            last: Moment(0),
            earlier: Vec::new(alloc),
            not_made: Vec::new(alloc),
            ports: PortNotes::new(alloc),
        }
    }

    /// Notes the call in a line, and its reply.
    pub(crate) fn note(
        &mut self,
        config: &Config,
        line: usize,
        request: &Request,
        reply: &Reply,
    ) -> Result<(), AllocError>
        requires known { request.now.partition < length config.now.partitions }
        requires room { self.old.calls < line }
        ensures { let asked = request.now in
            let entry = entry_of asked.partition asked.at asked.call reply.now in
            OnOk result ((log : List LineEntry) → AreNoted config.now log self.old →
            AreNoted config.now (log ++ record { line = line; entry = entry } ∷ []) self.new) }
    {
        push_earlier(&mut self.earlier, line, self.last, request.at)?;
        push_not_made(&mut self.not_made, config, line, request.partition, reply)?;
        self.ports.note(request, reply)?;
        self.last = request.at;
        self.calls += 1;
        Ok(())
    }
}

/// Adds the remark on the moment of a call, if it is less than the last one.
fn push_earlier(
    remarks: &mut Vec<Remark>,
    line: usize,
    last: Moment,
    at: Moment,
) -> Result<(), AllocError>
    ensures { OnOk result (remarks.new.items ≡ remarks.old.items ++ earlier last line at) }
{
    let (Moment(now), Moment(before)) = (at, last);
    if now < before {
        remarks.push(Remark::MomentBefore { line, at, last })?;
    }
    Ok(())
}

/// Adds the remark on a call that was not made.
fn push_not_made(
    remarks: &mut Vec<Remark>,
    config: &Config,
    line: usize,
    p: usize,
    reply: &Reply,
) -> Result<(), AllocError>
    requires { p < length config.now.partitions }
    ensures { OnOk result (remarks.new.items
        ≡ remarks.old.items ++ not_made config.now line p reply.now) }
{
    if let Reply::NotMade = reply {
        let partition = config.partition_name(p).copy();
        remarks.push(Remark::CallNotMade { line, partition })?;
    }
    Ok(())
}
