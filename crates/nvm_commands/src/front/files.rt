//! How files and standard streams are read and written, and which paths are of one file.
ghost use Rattle.std.specs.Prelude.{◌≡◌};
ghost use Rattle.nvm_commands.specs.Standard.{names_input};

use crate::front::output::Output;
use crate::front::progress::Progress;
use nvm_audit::Record;
use nvm_file::write_record;
use std::alloc::{AllocError, Global};
use std::fs::{Metadata, OpenFile};
use std::io::{ErrorKind, Read, Write};
use std::os::unix::fs::MetadataExt;
use std::path::Path;
use std::rt::Files;
use std::{fs, io};

/// The path that means standard input, or standard output. A file of that name is `./-`.
pub const STANDARD: &str = "-";

/// Another path of standard input.
const INPUT: &str = "/dev/stdin";

/// How many bytes a file is read by at a time.
const CHUNK: usize = 65_536;
/// How many of its first bytes tell what it is, and by how many they are read.
const FRONT: usize = 4;

const PAGE: usize = 4_096;

/// Why a file or a standard stream wasn't read, or wasn't written.
#[derive(Clone, Copy)]
pub enum FileFault {
    /// The system refused it, for a reason of this kind.
    Refused(ErrorKind),
    /// Memory was asked for and refused.
    NoMemory,
}

impl From<io::Error> for FileFault {
    fn from(error: io::Error) -> FileFault {
        match error.kind() {
            ErrorKind::OutOfMemory => FileFault::NoMemory,
            kind => FileFault::Refused(kind),
        }
    }
}

/// What is read: a file of ours, or text.
#[derive(Clone, Copy)]
pub enum InputKind {
    File,
    Text,
}

impl InputKind {
    /// Whether what begins so can be read: a file of ours begins with `NV`, and text with a letter, a sign, or a blank.
    fn can_begin(self, front: &[u8]) -> bool {
        if front.len() < FRONT {
            return true;
        }
        match self {
            InputKind::File => front.starts_with(b"NV"),
            InputKind::Text => front[0].is_ascii_graphic() || front[0].is_ascii_whitespace(),
        }
    }
}

/// The bytes of the file at a path, or of standard input where the path is `-`. How far it is, is shown of a file. Of what can't
/// be what is expected only the front is read, so that what never ends, as `/dev/zero`, is refused by that.
pub fn read_input<R: Files + AllocGlobal + Input + Eprint>(
    rt: &R,
    kind: InputKind,
    path: &str,
    progress: &Progress<'_, R>,
) -> Result<Vec<u8>, FileFault> {
    if path != STANDARD {
        return Ok(bytes_of(rt, kind, path, progress)?);
    }
    let mut bytes = Vec::new(rt.alloc());
    let mut input = rt.reader();
    push_front(rt.alloc(), &mut input, &mut bytes)?;
    if kind.can_begin(&bytes) {
        input.read_to_end(&mut bytes)?;
    }
    Ok(bytes)
}

/// The bytes of a file. Their room is reserved once, from the file's length, with one byte more for the
/// read that meets the end.
fn bytes_of<R: Files + AllocGlobal + Eprint>(
    rt: &R,
    kind: InputKind,
    path: &str,
    progress: &Progress<'_, R>,
) -> io::Result<Vec<u8>> {
    let mut file = fs::open(rt, path)?;
    let length = file.metadata()?.len() as usize;
    let mut bytes = Vec::new(rt.alloc());
    push_front(rt.alloc(), &mut file, &mut bytes)?;
    if !kind.can_begin(&bytes) {
        return Ok(bytes);
    }
    bytes.reserve_exact(length.saturating_add(1).saturating_sub(bytes.len()))?;
    push_chunks(rt, &mut file, length, &mut bytes, progress)?;
    file.read_to_end(&mut bytes)?;
    Ok(bytes)
}

/// Appends what comes first, up to a page: at least as much as tells what it is, unless it ends before.
fn push_front<F: Read>(alloc: Global, file: &mut F, bytes: &mut Vec<u8>) -> io::Result<()> {
    let mut page = Vec::new(alloc);
    page.resize(PAGE, 0)?;
    for _ in 0..FRONT {
        match file.read(&mut page) {
            Ok(0) => return Ok(()),
            Ok(count) => bytes.extend_from_slice(&page[..count])?,
            Err(error) if error.kind() == ErrorKind::Interrupted => return Ok(()),
            Err(error) => return Err(error),
        }
        if bytes.len() >= FRONT {
            return Ok(());
        }
    }
    Ok(())
}

/// Appends what the file gives in as many reads as its length calls for. Each goes through one chunk, since
/// a read into the room of `bytes` would have it filled with zeroes first. What is left, if the file gives
/// less in a read or has grown, is left to the caller.
fn push_chunks<R: AllocGlobal + Eprint, F: Read>(
    rt: &R,
    file: &mut F,
    length: usize,
    bytes: &mut Vec<u8>,
    progress: &Progress<'_, R>,
) -> io::Result<()> {
    let mut chunk = Vec::new(rt.alloc());
    chunk.resize(length.min(CHUNK), 0)?;
    for _ in 0..length.saturating_sub(bytes.len()).div_ceil(CHUNK) {
        match file.read(&mut chunk) {
            Ok(0) => return Ok(()),
            Ok(count) => {
                progress.read(bytes.len(), count, length);
                bytes.extend_from_slice(&chunk[..count])?;
            }
            Err(error) if error.kind() == ErrorKind::Interrupted => return Ok(()),
            Err(error) => return Err(error),
        }
    }
    Ok(())
}

/// Writes bytes to the file at a path, as an [`Output`] does, or to standard output where the path is `-`, which
/// takes no memory.
pub fn write<R: Files + AllocGlobal + Print + Eprint>(
    rt: &R,
    path: &str,
    bytes: &[u8],
    progress: &Progress<'_, R>,
) -> Result<(), FileFault> {
    if path == STANDARD {
        progress.clear();
        io::writer(rt).write_all(bytes)?;
        return Ok(());
    }
    let mut output = Output::file(rt, path, progress)?;
    output.write_all(bytes)?;
    output.finish()
}

/// Writes the file of a record. It appears whole or not at all, as an [`Output`] does.
pub fn write_run<R: Files + AllocGlobal + Print + Eprint>(
    rt: &R,
    path: &str,
    run: &Record,
    progress: &Progress<'_, R>,
) -> Result<(), FileFault> {
    let mut output = Output::file(rt, path, progress)?;
    write_record(&mut output, run)?;
    output.finish()
}

/// Whether a path names standard input, which a run reads at most once.
pub fn is_input(path: &str) -> bool
    ensures { result ≡ names_input path.now }
{
    path == STANDARD || path == INPUT
}

/// Whether a file that would be written is one that is read, under that path or another. `-` is standard input here.
/// What isn't there, and what is no regular file, is none that is read.
pub fn is_read<R: Files>(rt: &R, out: &str, read: &str) -> Result<bool, AllocError> {
    is_one_file(rt, out, if read == STANDARD { INPUT } else { read })
}

/// Whether a file that would be written is the one that standard output goes to. What isn't there, and what is no regular
/// file, isn't.
pub fn is_output<R: Files>(rt: &R, out: &str) -> Result<bool, AllocError> {
    is_one_file(rt, out, "/dev/stdout")
}

/// Whether what would be written to two paths goes to one place: to one path, to one regular file, or to one name in one folder
/// where nothing is yet. `-` is standard output here. A link that leads to nothing isn't one place with what it leads to.
pub fn is_one_output<R: Files>(rt: &R, out: &str, other: &str) -> Result<bool, AllocError> {
    if out == other {
        Ok(true)
    } else if out == STANDARD {
        is_output(rt, other)
    } else if other == STANDARD {
        is_output(rt, out)
    } else {
        Ok(is_one_file(rt, out, other)? || is_one_name(rt, out, other)?)
    }
}

/// Whether one regular file is at both paths.
fn is_one_file<R: Files>(rt: &R, out: &str, other: &str) -> Result<bool, AllocError> {
    let (Some(out), Some(other)) = (standing(rt, out)?, standing(rt, other)?) else {
        return Ok(false);
    };
    Ok(out.is_file() && is_same(&out, &other))
}

/// Whether both paths are of one name in one folder, and nothing is there.
fn is_one_name<R: Files>(rt: &R, out: &str, other: &str) -> Result<bool, AllocError> {
    let out = Path::new(out);
    let other = Path::new(other);
    if out.file_name() != other.file_name() || standing(rt, out.as_str())?.is_some() {
        return Ok(false);
    }
    match (
        standing(rt, folder_of(out))?,
        standing(rt, folder_of(other))?,
    ) {
        (Some(out), Some(other)) => Ok(is_same(&out, &other)),
        _ => Ok(false),
    }
}

/// The folder in which a path has its last name.
fn folder_of<'a>(path: Path<'a>) -> &'a str {
    match path.parent() {
        Some(folder) if !folder.as_str().is_empty() => folder.as_str(),
        _ => ".",
    }
}

fn is_same(one: &Metadata, other: &Metadata) -> bool {
    one.dev() == other.dev() && one.ino() == other.ino()
}

/// What is at a path, or where its links lead.
fn standing<R: Files>(rt: &R, path: &str) -> Result<Option<Metadata>, AllocError> {
    match fs::metadata(rt, path) {
        Ok(standing) => Ok(Some(standing)),
        Err(error) if error.kind() == ErrorKind::OutOfMemory => Err(AllocError),
        Err(_) => Ok(None),
    }
}
