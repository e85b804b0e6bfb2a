//! The files that the program opens.
use crate::file_writer::FileWriter;
use apex_files::{Opener, file_bytes};
use std::fs::File;
use std::rt::Files;
use std::{fs, io};

/// The files of the system, and standard input at the path `-`.
#[derive(Clone, Copy, Drop)]
pub struct InputFiles<'a, R> {
    pub rt: &'a R,
}

impl<R: Files> Opener for InputFiles<'_, R> {
    type Reader = R::File;

    fn open(&self, path: &str) -> io::Result<R::File> {
        File::open(self.rt, if path == "-" { "/dev/stdin" } else { path })
    }

    fn expected_bytes(&self, reader: &R::File) -> usize {
        file_bytes(reader)
    }
}

impl<R: Files> FileWriter for InputFiles<'_, R> {
    fn write_file(&self, path: &str, bytes: &[u8]) -> io::Result<()> {
        fs::write(self.rt, path, bytes)
    }

    fn make_folder(&self, path: &str) -> io::Result<()> {
        fs::create_dir_all(self.rt, path)
    }
}
