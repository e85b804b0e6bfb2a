//! Reading a file whole, up to a limit.
ghost use Rattle.std.specs.Prelude.{◌≡◌, ◌≤◌, List, ℕ, Option, None, IfErr, IfOk, IfSome, OnOk, length};
ghost use Rattle.std.specs.Io.KnownBytes.{IsAtEnd};
ghost use Rattle.std.specs.IoError.{error_kind, raw_os_error};
ghost use Rattle.apex_files.specs.Files.{file_fault, IsFaultOf, IsReadUpTo};
ghost use Rattle.apex_files.specs.declared.files.FileFault.TheVariants.{OutOfMemory};

use std::alloc::{AllocError, Global};
use std::fs::{File, OpenFile};
use std::io;
use std::io::{ErrorKind, Read};
use std::rt::Files;

/// The maximum number of bytes of a file.
pub const FILE_LIMIT: usize = 16_777_216;

/// The maximum number of reads of a file. A file of the maximum length that gives one byte per read takes this number.
pub const READ_LIMIT: usize = 16_777_217;

/// The number of bytes that one read asks for.
const PIECE_BYTES: usize = 65_536;

/// Opens a path as a reader.
pub trait Opener {
    type Reader: Read + Drop;

    // The bytes of what is at a path, if they are known.
    ghost bytes_at: { Self → List ℕ → Option (List ℕ) } = { λ _ _. None };

    /// The reader of what is at a path.
    fn open(&self, path: &str) -> io::Result<Self::Reader>
        ensures { IfOk result
            (λ reader. IfSome (bytes_at self.now path.now)
            (λ bytes. Self.Reader.remaining reader ≡ Some bytes)) };

    /// About how many bytes the reader gives, so that their memory is taken at once; 0 if that is not known.
    fn expected_bytes(&self, _reader: &Self::Reader) -> usize {
        0
    }
}

/// The files of the system.
#[derive(Clone, Copy, Drop)]
pub struct SystemFiles<'a, R> {
    pub rt: &'a R,
}

impl<R: Files> Opener for SystemFiles<'_, R> {
    type Reader = R::File;

    fn open(&self, path: &str) -> io::Result<R::File> {
        File::open(self.rt, path)
    }

    fn expected_bytes(&self, reader: &R::File) -> usize {
        file_bytes(reader)
    }
}

/// The number of bytes of a file by the system's account, which is 0 for a pipe.
pub fn file_bytes<F: OpenFile>(file: &F) -> usize {
    file.metadata().map_or(0, |known| known.len() as usize)
}

/// What kept a file from being read.
#[derive(Clone, Copy, Debug, PartialEq, Eq)]
pub enum Obstacle {
    /// There is no such file.
    NotFound,
    /// There is no permission to read it.
    PermissionDenied,
    /// It is a folder.
    IsFolder,
    /// It has more bytes than `FILE_LIMIT`.
    TooLarge,
    /// Its end was not reached after `READ_LIMIT` reads.
    NotEnded,
    /// The system refused for another reason, with this error number if there is one.
    System(Option<i32>),
}

/// Why a file was not read.
#[derive(Clone, Copy, Debug, PartialEq, Eq)]
pub enum FileFault {
    /// It can't be opened, a read of it failed, or its bytes or reads exceed the limits.
    Unreadable(Obstacle),
    /// An allocation failed.
    OutOfMemory,
}

impl From<io::Error> for FileFault {
    ghost from_gives = { λ error given.
        given ≡ file_fault (error_kind error) (raw_os_error error) };

    fn from(error: io::Error) -> FileFault {
        FileFault::Unreadable(match error.kind() {
            ErrorKind::OutOfMemory => return FileFault::OutOfMemory,
            ErrorKind::NotFound => Obstacle::NotFound,
            ErrorKind::PermissionDenied => Obstacle::PermissionDenied,
            ErrorKind::IsADirectory => Obstacle::IsFolder,
            _ => Obstacle::System(error.raw_os_error()),
        })
    }
}

impl From<AllocError> for FileFault {
    ghost from_gives = { λ _ given. given ≡ OutOfMemory };

    fn from(_error: AllocError) -> FileFault {
        FileFault::OutOfMemory
    }
}

/// The bytes of the file at a path.
pub fn read_path<O: Opener>(alloc: Global, opener: &O, path: &str) -> Result<Vec<u8>, FileFault>
    ensures whole { IfOk result
        (λ read. IfSome (O.bytes_at opener.now path.now) (λ bytes. read.items ≡ bytes)) }
    ensures within { IfOk result (λ read. length read.items ≤ FILE_LIMIT) }
    ensures fault { IfErr result
        (λ fault. IfSome (O.bytes_at opener.now path.now) (IsFaultOf fault)) }
{
    let mut reader = opener.open(path)?;
    let expected = opener.expected_bytes(&reader);
    read_all(alloc, expected, &mut reader)
}

/// All bytes of a reader up to its end, if they are within the limits of bytes and reads. The memory for as many as are
/// expected is taken before the first read.
pub fn read_all<R: Read>(
    alloc: Global,
    expected: usize,
    reader: &mut R,
) -> Result<Vec<u8>, FileFault>
    ensures whole { IfOk result
        (λ read. IfSome (R.remaining reader.old) (λ bytes. read.items ≡ bytes)) }
    ensures end { OnOk result (IsAtEnd (R.remaining reader.new)) }
    ensures within { IfOk result (λ read. length read.items ≤ FILE_LIMIT) }
    ensures fault { IfErr result
        (λ fault. IsReadUpTo fault (R.remaining reader.old) (R.remaining reader.new)) }
{
    let mut bytes = Vec::with_capacity(alloc, expected.min(FILE_LIMIT))?;
    let mut piece = [0; PIECE_BYTES];
    for _ in 0..READ_LIMIT {
        let count = match reader.read(&mut piece) {
            Ok(count) => count,
            Err(error) if error.kind() == ErrorKind::Interrupted => continue,
            Err(error) => return Err(FileFault::from(error)),
        };
        if count == 0 {
            return Ok(bytes);
        }
        if bytes.len() + count > FILE_LIMIT {
            return Err(FileFault::Unreadable(Obstacle::TooLarge));
        }
        bytes.extend_from_slice(&piece[..count])?;
    }
    Err(FileFault::Unreadable(Obstacle::NotEnded))
}
