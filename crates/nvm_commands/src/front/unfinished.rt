use std::fs::{Metadata, OpenFile, OpenOptions};
use std::io::ErrorKind;
use std::os::unix::fs::{MetadataExt, lchown};
use std::path::{Path, PathBuf};
use std::rt::Files;
use std::{fs, io};

/// How many names are tried for a file beside a path. Each tool that was killed may have left one there.
const NAMES: u32 = 65_536;

/// A file that is beside its path, in the same folder, until it is whole. Dropped before it has taken its
/// place, it is removed, and what is at the path stays as it was.
pub struct Unfinished<'a, R: Files> {
    rt: &'a R,
    path: &'a str,
    beside: PathBuf,
}

impl<'a, R: Files + AllocGlobal> Unfinished<'a, R> {
    /// Makes the file, which nobody else has made, and opens it for writing. It gets the owner and the
    /// permissions of the file at the path, if there is one.
    pub fn new(
        rt: &'a R,
        path: &'a str,
        standing: Option<Metadata>,
    ) -> io::Result<(R::File, Unfinished<'a, R>)> {
        let (file, unfinished) = Unfinished::under_new_name(rt, path)?;
        if let Some(standing) = standing {
            unfinished.take_owner(&file, &standing)?;
            file.set_permissions(standing.permissions())?;
        }
        Ok((file, unfinished))
    }

    /// Makes the file under the first name that nothing has.
    fn under_new_name(rt: &'a R, path: &'a str) -> io::Result<(R::File, Unfinished<'a, R>)> {
        for number in 0..NAMES {
            let name = format!(in rt.alloc(); ".nvm-unfinished-{number}")?;
            let beside = Path::new(path).with_file_name(rt.alloc(), name.as_str())?;
            match OpenOptions::new()
                .write(true)
                .create_new(true)
                .open(rt, &beside)
            {
                Ok(file) => return Ok((file, Unfinished { rt, path, beside })),
                Err(error) if error.kind() == ErrorKind::AlreadyExists => {}
                Err(error) => return Err(error),
            }
        }
        Err(io::Error::from(ErrorKind::AlreadyExists))
    }
}

impl<R: Files> Unfinished<'_, R> {
    /// Gives the file to the owner and the group of another, where it isn't theirs yet.
    fn take_owner(&self, file: &R::File, of: &Metadata) -> io::Result<()> {
        let made = file.metadata()?;
        if made.uid() == of.uid() && made.gid() == of.gid() {
            return Ok(());
        }
        lchown(self.rt, &self.beside, Some(of.uid()), Some(of.gid()))
    }

    /// Gives the whole file its path, in one step: whoever opens the path finds what was there before, or this.
    /// Nothing can take the place of a file that is a mount point, so that is written as it is. After
    /// an error the file beside it is gone.
    pub fn take_place(self) -> io::Result<()> {
        match fs::rename(self.rt, &self.beside, self.path) {
            Ok(()) => {
                let Unfinished {
                    rt: _,
                    path: _,
                    beside: _,
                } = self;
                Ok(())
            }
            Err(error) if error.kind() == ErrorKind::ResourceBusy => {
                fs::copy(self.rt, &self.beside, self.path)?;
                Ok(())
            }
            Err(error) => Err(error),
        }
    }
}

impl<R: Files> Drop for Unfinished<'_, R> {
    fn drop(self) {
        let Unfinished {
            rt,
            path: _,
            beside,
        } = self;
        let _ = fs::remove_file(rt, &beside);
    }
}
