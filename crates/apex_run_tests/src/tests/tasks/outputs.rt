//! Standard output and standard error that take little, are interrupted or fail.
use super::program::{COUNTED, FakeFiles};
use apex_tasks::program;
use std::alloc::Global;
use std::io;
use std::io::{ErrorKind, Write};
use std::process::Abort;
use std::sync::Wait;
use std::thread::Threads;

/// Why an output fails.
#[derive(Clone, Copy, Debug, PartialEq, Eq)]
enum Failure {
    /// It doesn't.
    Never,
    /// It takes at most this many bytes.
    After(usize),
    /// It takes everything, but can't flush it.
    AtFlush,
}

/// An output that takes one byte per write, and is interrupted before each.
#[derive(Drop)]
struct Output {
    taken: Vec<u8>,
    failure: Failure,
    interrupted: bool,
}

impl Output {
    fn new(alloc: Global, failure: Failure) -> Output {
        Output {
            taken: Vec::new(alloc),
            failure,
            interrupted: false,
        }
    }
}

impl Write for Output {
    fn write(&mut self, buf: &[u8]) -> io::Result<usize> {
        let Some(byte) = buf.first() else {
            return Ok(0);
        };
        self.interrupted = !self.interrupted;
        if self.interrupted {
            return Err(io::Error::from(ErrorKind::Interrupted));
        }
        if self.failure == Failure::After(self.taken.len()) {
            return Err(io::Error::from(ErrorKind::BrokenPipe));
        }
        self.taken.push(*byte)?;
        Ok(1)
    }

    fn flush(&mut self) -> io::Result<()> {
        if self.failure == Failure::AtFlush {
            return Err(io::Error::from(ErrorKind::StorageFull));
        }
        Ok(())
    }
}

/// The program writes these bytes to an output that fails like this, exits with the status, and writes the line to
/// standard error.
fn gives<R: Abort + AllocGlobal + Threads + Wait + Sync>(
    rt: &R,
    failure: Failure,
    written: &str,
    printed: &str,
    status: u8,
) {
    let alloc: Global = rt.alloc();
    let words = ["apexports", "check", "module.toml"];
    let mut output = Output::new(alloc, failure);
    let mut errors = Output::new(alloc, Failure::Never);
    let got = program(rt, alloc, &words, &FakeFiles, &mut output, &mut errors);
    assert_eq!(rt; output.taken.as_slice(), written.as_bytes());
    assert_eq!(rt; errors.taken.as_slice(), printed.as_bytes());
    assert_eq!(rt; got, status);
}

#[test]
fn outputs_that_take_a_byte_a_write(rt: HostRuntime) {
    gives(&rt, Failure::Never, COUNTED, "", 0);
    gives(&rt, Failure::After(0), "", "cannot write\n", 3);
    gives(&rt, Failure::After(7), "ok part", "cannot write\n", 3);
    gives(&rt, Failure::AtFlush, COUNTED, "cannot write\n", 3);
}
