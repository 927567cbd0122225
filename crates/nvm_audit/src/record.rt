use crate::done_job::DoneJob;
use crate::version::Version;
use nvm_geometry::Geometry;
use nvm_plan::Job;
use nvm_store::{History, Limit};
use std::marker::Model;

/// The most jobs of a record, and of each of its workers.
pub const MOST_JOBS: u32 = 4_194_304;

/// A finished run: its jobs, the changes of each unit, and what each worker did.
///
/// It holds what a record file of its version can hold, which whoever makes one has to prove: 1 to 64 workers; at most
/// 4,194,304 jobs, which fit the geometry; a history for each unit, within the limit, of entries that change only blocks of
/// this unit; and for each worker at most 4,194,304 done jobs. A done job has parts in units of the namespace, no more than
/// there are units, a status for each of its commands, and data of a Read alone, as long as its blocks. The points and
/// results of parts, and the statuses, may be any: that the record is lawful isn't said.
///
/// Contracts see it as plain data.
#[derive(Debug, Drop)]
pub struct Record {
    /// The version of the file in which it was read. A new one is of the second.
    pub version: Version,
    /// The namespace on which the jobs were done.
    pub geometry: Geometry,
    /// The most entries that a unit's history may have.
    pub limit: Limit,
    /// How many workers there were.
    pub workers: u16,
    /// The jobs, each at the place of its number.
    pub jobs: Vec<Job>,
    /// The history of each unit, in the order of the units.
    pub units: Vec<History>,
    /// What each worker did, in its order. The entries of a history name the worker by its place here.
    pub done: Vec<Vec<DoneJob>>,
}

impl Model for Record {
    ghost use Rattle.nvm_audit.specs.RecordView.{RecordView};

    ghost Value = { RecordView };

    ghost use Rattle.nvm_audit.specs.Shown.{shown_by, IsRecordableAs};

    ghost view = { shown_by };

    ghost invariant = { IsRecordableAs };
}
