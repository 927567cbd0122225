use nvm_text::hand;
use std::io;
use std::io::{Error, ErrorKind, Write};
use std::test::Fail;

/// A writer that takes so many bytes, a few at a time, is interrupted before each, and then fails.
#[derive(Drop)]
struct SmallWriter {
    room: usize,
    was_interrupted: bool,
    taken: Vec<u8>,
}

impl Write for SmallWriter {
    fn write(&mut self, buf: &[u8]) -> io::Result<usize> {
        self.was_interrupted = !self.was_interrupted;
        if self.was_interrupted {
            return Err(Error::new(ErrorKind::Interrupted, "once more"));
        }
        if self.room == 0 {
            return Err(Error::new(ErrorKind::Other, "full"));
        }
        let count = buf.len().min(self.room).min(3);
        self.taken.extend_from_slice(&buf[..count])?;
        self.room -= count;
        Ok(count)
    }

    fn flush(&mut self) -> io::Result<()> {
        Ok(())
    }
}

/// What a writer of so much room answers, and what it takes.
fn handed(rt: HostRuntime, room: usize) -> Result<(io::Result<()>, Vec<u8>), Fail> {
    // What it takes has its room before, so that no call of it wants memory.
    let taken = Vec::with_capacity(rt.alloc(), 16)?;
    let mut writer = SmallWriter {
        room,
        was_interrupted: false,
        taken,
    };
    let answer = hand(&mut writer, b"1 1 write 0/00\n");
    Ok((answer, writer.taken))
}

#[test]
fn all_is_taken(rt: HostRuntime) -> Result<(), Fail> {
    let (answer, taken) = handed(rt, 15)?;
    assert!(rt; answer.is_ok());
    assert_eq!(rt; taken.as_slice(), b"1 1 write 0/00\n".as_slice());
    Ok(())
}

#[test]
fn a_full_writer_has_a_front(rt: HostRuntime) -> Result<(), Fail> {
    let (answer, taken) = handed(rt, 8)?;
    assert!(rt; answer.is_err());
    assert_eq!(rt; taken.as_slice(), b"1 1 writ".as_slice());
    Ok(())
}
