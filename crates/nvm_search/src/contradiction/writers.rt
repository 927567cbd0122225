//! Lists of who can have put what in which blocks, and of who surely put something there, in which those are found fast that matter at a
//! time.
use crate::contradiction::contents::Sought;
use nvm_record::NoMemory;

/// That a point can have put something in a block.
#[derive(Clone, Copy)]
pub struct Writer {
    pub block: u32,
    /// By what the runs of a block are told apart: the value, or that it is of all values.
    pub key: u32,
    /// The number of what it can have put.
    pub value: u32,
    pub point: u32,
    pub from: u64,
    /// When it was over.
    pub until: u64,
    /// Of this one and those before it in its run, once they are settled, when the last of them was over.
    pub reach: u64,
}

/// Which writers of a run are asked for.
#[derive(Clone, Copy)]
pub struct Asked {
    /// Not those of this point.
    pub reader: u32,
    /// Those that can have put this.
    pub sought: Sought,
    /// Those that began by this time,
    pub by: u64,
    /// and weren't over before this one.
    pub least: u64,
    /// How many, at most,
    pub most: usize,
    /// and among how many they are looked for.
    pub looked: usize,
}

/// Sorts the writers into runs of the same block and key, and in these by when they began.
pub fn settle(writers: &mut Vec<Writer>) {
    writers.sort_unstable_by_key(|it| (it.block, it.key, it.from, it.point));
    let mut before: Option<Writer> = None;
    for writer in writers.iter_mut() {
        if let Some(last) = before {
            if last.block == writer.block && last.key == writer.key {
                writer.reach = writer.reach.max(last.reach);
            }
        }
        before = Some(*writer);
    }
}

/// The run of the block and key.
pub fn run(writers: &Vec<Writer>, block: u32, key: u32) -> &[Writer] {
    let run = (block, key);
    let from = writers.partition_point(|it| (it.block, it.key) < run);
    let to = writers.partition_point(|it| (it.block, it.key) <= run);
    match writers.get(from..to) {
        Some(run) => run,
        None => &[],
    }
}

/// Puts the points of the run that are asked for at the end. It says no where they are too many, or hard to find, and puts some of them
/// then.
pub fn put_asked(out: &mut Vec<u32>, run: &[Writer], asked: Asked) -> Result<bool, NoMemory> {
    let begun = run.partition_point(|it| it.from <= asked.by);
    let Some(begun) = run.get(0..begun) else {
        return Ok(true);
    };
    let mut looked = 0usize;
    for writer in begun.iter().rev() {
        if writer.reach < asked.least {
            break;
        }
        if looked >= asked.looked {
            return Ok(false);
        }
        looked = looked.saturating_add(1);
        if writer.until < asked.least
            || writer.point == asked.reader
            || !asked.sought.may_be(writer.value)
        {
            continue;
        }
        if out.len() >= asked.most {
            return Ok(false);
        }
        out.push(writer.point)?;
    }
    Ok(true)
}

/// That a point surely put something in a block. They are ordered by block and by when they were over.
#[derive(Clone, Copy, PartialEq, Eq, PartialOrd, Ord)]
pub struct SureWriter {
    pub block: u32,
    pub until: u64,
    pub from: u64,
    pub point: u32,
}

/// Sorts the writers, and has each name, of those that were over by then in its block, the one that began last.
pub fn settle_sure(writers: &mut Vec<SureWriter>) {
    writers.sort_unstable();
    let mut before: Option<SureWriter> = None;
    for writer in writers.iter_mut() {
        if let Some(last) = before {
            if last.block == writer.block && last.from > writer.from {
                writer.from = last.from;
                writer.point = last.point;
            }
        }
        before = Some(*writer);
    }
}

/// Of those that were over in the block before the time, the one that began last.
pub fn last_sure(writers: &Vec<SureWriter>, block: u32, time: u64) -> Option<u32> {
    let key = (block, time);
    let to = writers.partition_point(|it| (it.block, it.until) < key);
    let last = writers.get(to.checked_sub(1)?)?;
    if last.block == block {
        Some(last.point)
    } else {
        None
    }
}
