//! What helps whoever reads a fault. It is on the line below it, after two spaces.
use crate::content::Content;
use crate::front::STANDARD;
use nvm_geometry::GeometryFault;
use nvm_record::{BlockSize, HostFault, Payload, read_host};
use std::alloc::{AllocError, Global};
use std::io::ErrorKind;

/// What helps where a record is of a version that isn't known.
pub const VERSIONS: &str = "the fourth byte of a record is 1 or 2";

/// Why the system refused to read or write something. `None` where it doesn't say, or says nothing that helps.
pub fn refusal(kind: ErrorKind) -> Option<&'static str> {
    match kind {
        ErrorKind::NotFound => Some("there is no such file or folder"),
        ErrorKind::PermissionDenied => Some("its permissions forbid that"),
        ErrorKind::IsADirectory => Some("it is a folder"),
        ErrorKind::NotADirectory => Some("a part of its path is no folder"),
        ErrorKind::StorageFull | ErrorKind::QuotaExceeded => Some("no space is left"),
        ErrorKind::FileTooLarge => Some("it would be larger than a file may be"),
        ErrorKind::ReadOnlyFilesystem => Some("nothing can be written there"),
        ErrorKind::FilesystemLoop => Some("its links lead to themselves"),
        ErrorKind::InvalidFilename => Some("its name is too long"),
        ErrorKind::BrokenPipe => Some("its reader has ended"),
        _ => None,
    }
}

/// What a file should have been.
#[derive(Clone, Copy)]
pub enum Wanted {
    /// A host file, whose blocks have this size.
    HostFile(BlockSize),
    Record,
    Trace,
    Order,
    List,
    TraceText,
}

/// What a file is instead of what was wanted, where something is said of that.
pub fn instead(
    alloc: Global,
    path: &str,
    bytes: &[u8],
    wanted: Wanted,
) -> Result<Option<String>, AllocError> {
    match said_of(Content::of(bytes), wanted) {
        Some(said) => Ok(Some(about(alloc, path, said)?)),
        None => Ok(None),
    }
}

/// What is said of a file where another kind was wanted. The path stands for each `@`.
fn said_of(content: Content, wanted: Wanted) -> Option<&'static str> {
    match (content, wanted) {
        (Content::Contradiction, _) => Some(
            "is a contradiction: nvmu refute TRACE @ judges it, nvq explain TRACE @ shows it",
        ),
        (_, Wanted::Order) => None,
        (Content::Order, _) => Some(
            "is an order: nvmu witness TRACE @ judges a trace by it, nvq explain TRACE @ shows it",
        ),
        (Content::TraceText, Wanted::TraceText) => None,
        (Content::TraceText, _) => Some(
            "is a trace's text: nvq certify @ judges it, nvq trace @ TRACE makes its file",
        ),
        (Content::List, Wanted::TraceText) => Some(
            "is a command list: nvq run @ does its commands",
        ),
        (Content::HostFile, Wanted::List | Wanted::TraceText) => Some(
            "is a host file: nvq list @ makes a list of it",
        ),
        (Content::Record, Wanted::List | Wanted::TraceText) => Some(
            "is a record: nvq list @ shows it",
        ),
        (Content::Trace, Wanted::List | Wanted::TraceText) => Some(
            "is a trace: nvq list @ shows it",
        ),
        (_, Wanted::List | Wanted::TraceText) => None,
        (Content::HostFile, Wanted::Record | Wanted::Trace) => Some(
            "is a host file: nvmu run does its commands and writes a record",
        ),
        (Content::Record, Wanted::HostFile(_)) => Some(
            "is a record: nvmu audit @ judges it, nvq list @ shows it",
        ),
        (Content::Record, Wanted::Trace) => Some(
            "is a record: nvq audit @ judges it; the trace comes first, and then the record",
        ),
        (_, Wanted::Trace) => Some("is no trace, which begins with NVT1"),
        (Content::Trace, _) => Some(
            "is a trace: nvmu witness @ REC judges it by a record, nvq certify @ without one",
        ),
        (Content::Empty, Wanted::HostFile(_)) => Some("is empty, and a host file begins with NVQ1"),
        (Content::List | Content::Text, Wanted::HostFile(_)) => Some(
            "is text: nvq run @ does the commands of a list, nvq assemble @ HOSTFILE makes a host file of it",
        ),
        (_, Wanted::HostFile(_)) => Some("is no host file, which begins with NVQ1"),
        (Content::Empty, Wanted::Record) => Some("is empty, and a record begins with NVR1 or NVR2"),
        (Content::List | Content::Text, Wanted::Record) => Some(
            "is text, which no record is: nvmu run and nvq run write records",
        ),
        (_, Wanted::Record) => Some("is no record, which begins with NVR1 or NVR2"),
    }
}

/// What is said of the file at a path, which stands for each `@`.
pub fn about(alloc: Global, path: &str, said: &str) -> Result<String, AllocError> {
    let name = if path == STANDARD {
        "standard input"
    } else {
        path
    };
    let said = said.replace(alloc, "@", path)?;
    format!(in alloc; "{name} {said}")
}

/// With which other block size a file is a host file, where one was wanted. `None` where there is no such size.
pub fn other_block(
    alloc: Global,
    file: &Payload,
    wanted: Wanted,
) -> Result<Option<String>, AllocError> {
    let Wanted::HostFile(wanted) = wanted else {
        return Ok(None);
    };
    let other = if wanted.bytes() == 512 { 4096 } else { 512 };
    let Some(size) = BlockSize::new(other) else {
        return Ok(None);
    };
    match read_host(alloc, file, size) {
        Ok(_) => Ok(Some(format!(in alloc;
            "it is a host file of blocks of {other} bytes: --block {other}"
        )?)),
        Err(HostFault::NoMemory) => Err(AllocError),
        Err(_) => Ok(None),
    }
}

/// What the options must be that describe no namespace.
pub fn no_namespace(fault: GeometryFault) -> &'static str {
    match fault {
        GeometryFault::Size => "--nsze is 1 to 65536",
        GeometryFault::BlockSize => "--block is 512 or 4096",
        GeometryFault::OffsetWithoutBoundary => "--nabo is 0 where --nabsn is 0",
        GeometryFault::OffsetAboveBoundary => "--nabo is at most --nabsn",
        GeometryFault::WriteUnitAboveBoundary => "--nawun is at most --nabsn where that isn't 0",
        GeometryFault::PairUnitAboveBoundary => "--nacwu is at most --nabsn where that isn't 0",
        GeometryFault::TooManyUnits => {
            "--nabsn cuts --nsze blocks into more than 4096 units: a larger --nabsn makes fewer"
        }
    }
}
