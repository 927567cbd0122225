//! Files that appear whole or not at all, and standard output.
use crate::front::files::{FileFault, STANDARD};
use crate::front::progress::Progress;
use crate::front::unfinished::Unfinished;
use std::fs::{OpenFile, OpenOptions};
use std::io::{BufWriter, ErrorKind, Printer, Write};
use std::rt::Files;
use std::{fs, io};

/// How many bytes are gathered before the system is asked to write them.
const GATHERED: usize = 65_536;

/// What a program writes, piece by piece: a file or standard output. It takes the same memory however much is
/// written.
///
/// A file appears whole or not at all. It is written beside its path and takes its place in
/// [`finish`](Output::finish), so whoever opens the path before that, or after the program was killed, finds what
/// was there before. An output that is dropped unfinished is removed. A program that is killed leaves it there, as
/// `.nvm-unfinished-` and a number.
///
/// What is at the path as anything but a regular file (a device, a pipe, a socket, a link) is written as it
/// is and never replaced. So is a regular file that can be written but not replaced: its folder takes no other
/// file, its owner can't be given one, or it is a mount point. After a fault such a file, and standard output, may
/// have a part of what was written.
#[derive(Drop)]
pub struct Output<'a, R: Files + Print + Eprint> {
    writer: BufWriter<Target<'a, R>>,
    unfinished: Option<Unfinished<'a, R>>,
}

impl<'a, R: Files + AllocGlobal + Print + Eprint> Output<'a, R> {
    /// The file at a path, or standard output where the path is `-`.
    pub fn new(
        rt: &'a R,
        path: &'a str,
        progress: &'a Progress<'a, R>,
    ) -> Result<Output<'a, R>, FileFault> {
        if path == STANDARD {
            Output::standard(rt)
        } else {
            Output::file(rt, path, progress)
        }
    }

    /// The file at a path, whatever its name is. How much of a file is written beside its path is shown.
    pub fn file(
        rt: &'a R,
        path: &'a str,
        progress: &'a Progress<'a, R>,
    ) -> Result<Output<'a, R>, FileFault> {
        let (file, unfinished) = opened(rt, path)?;
        progress.clear();
        let told = match &unfinished {
            Some(_) => Some(progress),
            None => None,
        };
        let target = Target::new(To::File(file), told);
        let writer = BufWriter::with_capacity(rt.alloc(), GATHERED, target)?;
        Ok(Output { writer, unfinished })
    }

    /// Standard output.
    pub fn standard(rt: &'a R) -> Result<Output<'a, R>, FileFault> {
        let target = Target::new(To::Standard(io::writer(rt)), None);
        let writer = BufWriter::with_capacity(rt.alloc(), GATHERED, target)?;
        Ok(Output {
            writer,
            unfinished: None,
        })
    }
}

impl<R: Files + Print + Eprint> Output<'_, R> {
    /// Writes what is still gathered. Then a file that was written beside its path takes its place, once it is
    /// on the disk. After a fault nothing is left of it, and what was at the path stays as it was.
    pub fn finish(self) -> Result<(), FileFault> {
        let Output {
            mut writer,
            unfinished,
        } = self;
        writer.flush()?;
        if let Some(unfinished) = unfinished {
            writer.get_ref().sync()?;
            unfinished.take_place()?;
        }
        Ok(())
    }
}

impl<R: Files + Print + Eprint> Write for Output<'_, R> {
    // A piece that the buffer has room for costs a copy.
    #[inline(always)]
    fn write(&mut self, bytes: &[u8]) -> io::Result<usize> {
        self.writer.write(bytes)
    }

    fn flush(&mut self) -> io::Result<()> {
        self.writer.flush()
    }

    fn write_all(&mut self, bytes: &[u8]) -> io::Result<()> {
        self.writer.write_all(bytes)
    }
}

/// Where the bytes go, and what shows how many there were.
#[derive(Drop)]
struct Target<'a, R: Files + Print + Eprint> {
    to: To<'a, R>,
    written: usize,
    told: Option<&'a Progress<'a, R>>,
}

/// Where the bytes go.
#[derive(Drop)]
enum To<'a, R: Files + Print> {
    File(R::File),
    Standard(Printer<'a, R>),
}

impl<'a, R: Files + Print + Eprint> Target<'a, R> {
    fn new(to: To<'a, R>, told: Option<&'a Progress<'a, R>>) -> Target<'a, R> {
        Target {
            to,
            written: 0,
            told,
        }
    }

    /// Waits until the disk has what was written. Some faults of a disk show only then.
    fn sync(&self) -> io::Result<()> {
        match &self.to {
            To::File(file) => file.sync_all(),
            To::Standard(_) => Ok(()),
        }
    }
}

impl<R: Files + Print + Eprint> Write for Target<'_, R> {
    fn write(&mut self, bytes: &[u8]) -> io::Result<usize> {
        let count = match &mut self.to {
            To::File(file) => file.write(bytes)?,
            To::Standard(printer) => printer.write(bytes)?,
        };
        if let Some(progress) = self.told {
            progress.written(self.written, count);
        }
        self.written = self.written.saturating_add(count);
        Ok(count)
    }

    fn flush(&mut self) -> io::Result<()> {
        match &mut self.to {
            To::File(file) => file.flush(),
            To::Standard(printer) => printer.flush(),
        }
    }
}

/// A file to write, beside its path where it can be. A regular file that is there must be one that can be
/// written.
fn opened<'a, R: Files + AllocGlobal>(
    rt: &'a R,
    path: &'a str,
) -> io::Result<(R::File, Option<Unfinished<'a, R>>)> {
    let standing = match fs::symlink_metadata(rt, path) {
        Ok(standing) if standing.is_file() => {
            OpenOptions::new().write(true).open(rt, path)?;
            Some(standing)
        }
        Err(error) if error.kind() == ErrorKind::NotFound => None,
        _ => return Ok((fs::create(rt, path)?, None)),
    };
    match Unfinished::new(rt, path, standing) {
        Ok((file, unfinished)) => Ok((file, Some(unfinished))),
        Err(error) if is_refused_there(error.kind()) => Ok((fs::create(rt, path)?, None)),
        Err(error) => Err(error),
    }
}

/// Whether no new file can be made in a folder, whatever room the disk has.
fn is_refused_there(kind: ErrorKind) -> bool {
    matches!(
        kind,
        ErrorKind::PermissionDenied
            | ErrorKind::ReadOnlyFilesystem
            | ErrorKind::NotFound
            | ErrorKind::InvalidFilename
    )
}
