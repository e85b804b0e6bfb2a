//! A writer and a reader that take turns call by call, as their gate forces them to.
use crate::tests::texts::BASE;
use crate::tests::workers::gates::{look_for, raise};
use crate::tests::workers::runs_left::{
    AIR, DSP, config_of, end, holds, lines_of, run, scripts_of,
};
use apex_workers::{Finished, Gate, Held};
use std::alloc::{AllocError, AllocGlobal, Allocator, Global};
use std::process::Abort;
use std::sync::atomic::AtomicBool;
use std::test::Fail;

/// The number of calls of the writer, and of the reader: each creates its port first.
const CALLS: usize = 201;

/// The writer's call waits until the reader's last one was answered, and the reader's until the writer's call with its
/// number was.
#[derive(Drop)]
struct Turns {
    written: Vec<AtomicBool>,
    read: Vec<AtomicBool>,
}

fn flags(alloc: Global) -> Result<Vec<AtomicBool>, AllocError> {
    let mut flags = Vec::with_capacity(alloc, CALLS)?;
    for _ in 0..CALLS {
        flags.push(AtomicBool::new(false))?;
    }
    Ok(flags)
}

impl Gate for Turns {
    ghost may_refuse = { λ _ partition n. Unit {0} };

    fn pass(&self, partition: usize, n: usize) -> Result<(), Held> {
        let before = match partition {
            AIR => self.read.get(n.wrapping_sub(2)),
            DSP => self.written.get(n.wrapping_sub(1)),
            _ => None,
        };
        match before {
            Some(answered) => look_for(answered),
            None => Ok(()),
        }
    }

    fn answered(&self, partition: usize, n: usize) {
        let list = if partition == AIR {
            &self.written
        } else {
            &self.read
        };
        raise(list.get(n.wrapping_sub(1)));
    }
}

// The number of a message in its digits.
fn digits_of(n: usize) -> usize {
    n.saturating_add(10_000_000)
}

fn writer(alloc: Global) -> Result<String, AllocError> {
    let mut text = String::new(alloc);
    text.push_str("1 create-sampling SPD_OUT 4 0 50\n")?;
    for n in 1..CALLS {
        let message = digits_of(n);
        let line = format!(in alloc; "{n} write 1 {message}\n")?;
        text.push_str(line.as_str())?;
    }
    Ok(text)
}

fn reader(alloc: Global) -> Result<String, AllocError> {
    let mut text = String::new(alloc);
    text.push_str("1 create-sampling SPD_IN 4 1 50\n")?;
    for n in 1..CALLS {
        let line = format!(in alloc; "{n} read 2\n")?;
        text.push_str(line.as_str())?;
    }
    Ok(text)
}

// Each read shows the write before it.
fn shown(alloc: Global) -> Result<String, AllocError> {
    let mut text = String::new(alloc);
    text.push_str("NO_ERROR id 2\n")?;
    for n in 1..CALLS {
        let message = digits_of(n);
        let line = format!(in alloc; "NO_ERROR message {message} VALID\n")?;
        text.push_str(line.as_str())?;
    }
    Ok(text)
}

fn shows_each_write<R: Abort + AllocGlobal, A: Allocator>(
    rt: &R,
    finished: &Finished<A>,
) -> Result<(), Fail> {
    let Some(replies) = finished.replies.get(DSP) else {
        panic!(rt; "no replies of the reader");
    };
    let lines = lines_of(rt.alloc(), replies.list())?;
    let wanted = shown(rt.alloc())?;
    holds(rt, lines.as_str() == wanted.as_str(), 0);
    Ok(())
}

fn gate_of(alloc: Global) -> Result<Turns, AllocError> {
    let written = flags(alloc)?;
    Ok(Turns {
        written,
        read: flags(alloc)?,
    })
}

#[test]
fn each_read_shows_the_write_before_it(rt: HostRuntime) -> Result<(), Fail> {
    let (reader, writer) = (reader(rt.alloc())?, writer(rt.alloc())?);
    let scripts = scripts_of(rt.alloc(), &["", reader.as_str(), writer.as_str()])?;
    let config = config_of(&rt, BASE)?;
    let gate = gate_of(rt.alloc())?;
    let finished = run(&rt, rt.alloc(), &config, &scripts, &gate)?;
    let shown = shows_each_write(&rt, &finished);
    end(&rt, finished);
    shown
}
