//! The whole program on files that replace the system's: reads that fail, are interrupted or give one byte each.
ghost use Rattle.std.specs.Prelude.{◌≤◌, length};

use apex_tasks::{Opener, program};
use std::alloc::Global;
use std::io;
use std::io::{ErrorKind, Read};
use std::process::Abort;
use std::sync::Wait;
use std::thread::Threads;

/// A configuration of one partition.
const MODULE: &str = "[[partition]]\nname = \"FMS\"\n";

/// The answer of `check` for it.
pub const COUNTED: &str = "ok partitions 1 ports 0 channels 0\n";

/// What is at a path.
#[derive(Clone, Copy, Debug, PartialEq, Eq)]
pub enum Content {
    /// A text.
    Text(&'static str),
    /// A read of it fails after this many bytes.
    FailsAfter(usize),
    /// This number of spaces, one per read.
    Slow(usize),
    /// A text in pieces of seven bytes, with an interrupted read before each and before the end.
    Interrupted(&'static str),
    /// This number of interrupted reads, and then the end.
    Interrupts(usize),
    /// A read of it runs out of memory.
    WantsMemory,
}

/// A reader of some content, which has given this many bytes in this many reads.
#[derive(Clone, Copy, Drop)]
pub struct FakeFile {
    content: Content,
    given: usize,
    reads: usize,
}

impl FakeFile {
    /// Gives the rest of a text, at most `most` bytes.
    fn give(&mut self, text: &str, most: usize, buf: &mut [u8]) -> usize
        ensures { result ≤ length buf.new }
    {
        let rest = text.as_bytes().get(self.given..).unwrap_or(b"");
        let count = rest.len().min(buf.len()).min(most);
        buf[..count].copy_from_slice(&rest[..count]);
        self.given = self.given.saturating_add(count);
        count
    }

    /// Gives `count` spaces.
    fn give_spaces(&mut self, count: usize, buf: &mut [u8]) -> usize
        ensures { result ≤ length buf.new }
    {
        let count = count.min(buf.len());
        for byte in &mut buf[..count] {
            *byte = b' ';
        }
        self.given = self.given.saturating_add(count);
        count
    }
}

impl Read for FakeFile {
    fn read(&mut self, buf: &mut [u8]) -> io::Result<usize> {
        self.reads = self.reads.saturating_add(1);
        match self.content {
            Content::Text(text) => Ok(self.give(text, text.len(), buf)),
            Content::Interrupted(_) if self.reads % 2 == 1 => {
                Err(io::Error::from(ErrorKind::Interrupted))
            }
            Content::Interrupted(text) => Ok(self.give(text, 7, buf)),
            Content::Interrupts(count) if self.reads <= count => {
                Err(io::Error::from(ErrorKind::Interrupted))
            }
            Content::Interrupts(_) => Ok(0),
            Content::WantsMemory => Err(io::Error::from(ErrorKind::OutOfMemory)),
            Content::FailsAfter(limit) if self.given >= limit => {
                Err(io::Error::from(ErrorKind::Other))
            }
            Content::FailsAfter(limit) => {
                let left = limit.saturating_sub(self.given);
                Ok(self.give_spaces(left, buf))
            }
            Content::Slow(count) => {
                let left = count.saturating_sub(self.given);
                Ok(self.give_spaces(left.min(1), buf))
            }
        }
    }
}

/// The paths of the tests.
#[derive(Clone, Copy, Drop)]
pub struct FakeFiles;

impl Opener for FakeFiles {
    type Reader = FakeFile;

    fn open(&self, path: &str) -> io::Result<FakeFile> {
        let content = match path {
            "module.toml" => Content::Text(MODULE),
            "fails" => Content::FailsAfter(0),
            "fails_later" => Content::FailsAfter(10),
            "slow" => Content::Slow(16_777_216),
            "interrupted.toml" => Content::Interrupted(MODULE),
            "interrupts" => Content::Interrupts(16_777_216),
            "interrupts_too_often" => Content::Interrupts(16_777_217),
            "wants_memory" => Content::WantsMemory,
            "opening_wants_memory" => return Err(io::Error::from(ErrorKind::OutOfMemory)),
            _ => return Err(io::Error::from(ErrorKind::NotFound)),
        };
        Ok(FakeFile {
            content,
            given: 0,
            reads: 0,
        })
    }
}

/// The words give the status, and these texts on standard output and standard error.
fn answers<R: Abort + AllocGlobal + Threads + Wait + Sync>(
    rt: &R,
    words: &[&str],
    status: u8,
    output: &str,
    errors: &str,
) {
    let alloc: Global = rt.alloc();
    let mut written = Vec::new(alloc);
    let mut printed = Vec::new(alloc);
    let got = program(rt, alloc, words, &FakeFiles, &mut written, &mut printed);
    assert_eq!(rt; written.as_slice(), output.as_bytes(), "{words:?}");
    assert_eq!(rt; printed.as_slice(), errors.as_bytes(), "{words:?}");
    assert_eq!(rt; got, status, "{words:?}");
}

#[test]
fn files_that_cannot_be_read(rt: HostRuntime) {
    for (path, line) in [
        ("fails", "cannot read fails\n"),
        ("fails_later", "cannot read fails_later\n"),
        ("interrupts_too_often", "cannot read interrupts_too_often\n"),
        ("wants_memory", "out of memory\n"),
        ("opening_wants_memory", "out of memory\n"),
    ] {
        answers(&rt, &["apexports", "check", path], 3, "", line);
        let words = ["apexports", "replay", "module.toml", path];
        answers(&rt, &words, 3, "", line);
    }
}

#[test]
fn want_of_memory_in_a_script_comes_before_a_wrong_argument(rt: HostRuntime) {
    let words = ["apexports", "run", "module.toml", "FMS=wants_memory", "X"];
    answers(&rt, &words, 3, "", "out of memory\n");
}

#[test]
fn the_longest_file_is_read(rt: HostRuntime) {
    let report = "partition FMS mode COLD_START calls 0\n";
    for path in ["slow", "interrupts"] {
        let words = ["apexports", "replay", "module.toml", path];
        answers(&rt, &words, 0, report, "");
    }
}

#[test]
fn an_interrupted_read_is_no_end(rt: HostRuntime) {
    let words = ["apexports", "check", "interrupted.toml"];
    answers(&rt, &words, 0, COUNTED, "");
}
