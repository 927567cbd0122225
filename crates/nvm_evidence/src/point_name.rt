//! How a point of a trace's table is named: by its command.
use nvm_standard::Points;
use std::fmt;
use std::fmt::{Display, Formatter};

/// A point's command, and, behind that, which of a pair's two the point is, if it is one.
#[derive(Clone, Copy)]
pub(crate) struct PointName {
    job: u32,
    half: &'static str,
}

impl Display for PointName {
    fn fmt<W: fmt::Write>(&self, f: &mut Formatter<W>) -> fmt::Result {
        let PointName { job, half } = *self;
        write!(f, "job {job}{half}")
    }
}

/// Whether the point at this place of the table is a pair's Write, of which the point before is the Compare.
fn is_write(points: &Points<'_>, place: usize) -> bool {
    match points.points.get(place) {
        Some(point) => point.after,
        None => false,
    }
}

/// The number of the command of the point of this number. Where the table hasn't the point, its own number stands for a command's.
pub(crate) fn command_of(points: &Points<'_>, number: u32) -> u32 {
    match points.points.get(number as usize) {
        Some(point) => point.command,
        None => number,
    }
}

/// The name of the point of this number.
pub(crate) fn name_of(points: &Points<'_>, number: u32) -> PointName {
    let place = number as usize;
    let half = if is_write(points, place) {
        "'s Write"
    } else if is_write(points, place + 1) {
        "'s Compare"
    } else {
        ""
    };
    PointName {
        job: command_of(points, number),
        half,
    }
}
