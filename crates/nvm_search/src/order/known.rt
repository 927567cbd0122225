//! What is known of all points before any part is searched, and what is noted of them since.
use crate::numbers::{Numbers, ONES, Values, block_at, to_u32};
use crate::order::acts::NONE;
use crate::order::together::done_together;
use nvm_record::NoMemory;
use nvm_standard::{Point, Points};
use std::alloc::Global;

/// What is known of all points.
#[derive(Drop)]
pub struct Known<'a, 't> {
    pub alloc: Global,
    pub points: &'a Points<'t>,
    pub values: Values<'t>,
    /// All times at which a point may begin or has to be over, rising.
    pub times: Vec<u64>,
    /// Which points that are done together are to be done.
    pub together: Numbers,
    /// The first part of each point, and the last.
    pub first_part: Numbers,
    pub last_part: Numbers,
    /// Of each point of which one block is done, the part in which it has to be, and whether it is there already.
    pub holder: Numbers,
    pub met: Numbers,
    /// The value of a block of FFh.
    pub ones: u32,
    /// The value of a block that nobody is expected to find or put.
    pub fresh: u32,
    /// How many acts may be looked at yet.
    pub left: u64,
}

impl<'a, 't> Known<'a, 't> {
    /// The rank of a time among all, and that of none: the highest.
    pub fn rank(&self, time: Option<u64>) -> u32 {
        match time {
            Some(time) => to_u32(self.times.partition_point(|known| *known < time)),
            None => NONE,
        }
    }

    /// Whether the point has blocks in several parts.
    pub fn is_split(&self, point: u32) -> bool {
        self.first_part.at(point) != self.last_part.at(point)
    }
}

/// All times at which a point may begin or has to be over, rising.
fn times_of(alloc: Global, points: &Vec<Point<'_>>) -> Result<Vec<u64>, NoMemory> {
    let mut times = Vec::with_capacity(alloc, points.len())?;
    for point in points {
        times.push(point.from)?;
        for time in [point.until, point.over] {
            if let Some(time) = time {
                times.push(time)?;
            }
        }
    }
    times.sort()?;
    times.dedup();
    Ok(times)
}

/// What is known of the points before any search.
pub fn known_of<'a, 't>(
    alloc: Global,
    points: &'a Points<'t>,
    left: u64,
) -> Result<Known<'a, 't>, NoMemory> {
    let count = points.points.len();
    let mut values = Values::new(alloc)?;
    let ones = values.value_of(block_at(ONES, points.block_size, 0))?;
    let fresh = values.fresh(points.block_size)?;
    Ok(Known {
        alloc,
        points,
        values,
        times: times_of(alloc, &points.points)?,
        together: done_together(alloc, points)?,
        first_part: Numbers::new(alloc, count, NONE)?,
        last_part: Numbers::new(alloc, count, 0)?,
        holder: Numbers::new(alloc, count, 0)?,
        met: Numbers::new(alloc, count, 0)?,
        ones,
        fresh,
        left,
    })
}
