ghost use Rattle.std.specs.Prelude.{◌≡◌, ◌<◌, true};
ghost use Rattle.nvm_space.specs.Ports.{IsPortOf};
ghost use Rattle.nvm_space.specs.ReadNow.{ReadsNow};

use crate::port::Port;
use crate::space::Space;
use nvm_geometry::laws;
use nvm_record::{ReadData, Status};
use nvm_store::{Answer, Look};
use nvm_unit::{Kept, LookFault, Observed};
use std::alloc::Global;

/// The answer of a Read by [`Space::read_now`](crate::Space::read_now).
#[derive(Debug, PartialEq, Eq, Drop)]
pub struct ReadAnswer {
    /// How many entries the region's history had: the answer rests on their replay.
    pub point: u64,
    /// 0/00, or 2/81 (NVM Command Set Specification, "Unrecovered Read Error") if the range has a block that was marked by
    /// Write Uncorrectable.
    pub status: Status,
    /// With 0/00 the data of the range's blocks, in the order of their LBAs. With 2/81 nothing.
    pub payload: Option<ReadData>,
}

/// Why a Read has no answer by [`Space::read_now`](crate::Space::read_now).
#[derive(Clone, Copy, Debug, PartialEq, Eq)]
pub enum ReadNow {
    /// The range ends above NSZE. The port is as it was.
    OutOfRange,
    /// The range lies in more than one unit. The port is as it was.
    Crosses,
    /// The region has been changed since the port has seen it: its history has `count` entries now.
    Newer { count: u64 },
    /// The port has seen all of the region's `point` entries, but memory for the data was refused, or its pass keeps no
    /// version.
    NoMemory { point: u64 },
}

impl ReadAnswer {
    ghost use Rattle.std.specs.Prelude.{◌≡◌};
    ghost use Rattle.nvm_space.specs.ReadNow.{read_answer};

    /// What a look saw, as it is reported to a host.
    pub(crate) fn of(observed: Observed) -> ReadAnswer
        ensures { result ≡ read_answer observed }
    {
        let Observed { point, answer } = observed;
        match answer {
            Answer::Payload(data) => ReadAnswer {
                point,
                status: Status::SUCCESSFUL_COMPLETION,
                payload: Some(data),
            },
            Answer::Status(status) => ReadAnswer {
                point,
                status,
                payload: None,
            },
        }
    }
}

impl<K: Kept> Space<K> {
    /// Answers a Read from the version that the port keeps of its region, without taking the region: with one load it finds how
    /// many entries the region's history has, and the answer is only given if the port has seen them all. It doesn't matter
    /// whether another port holds the region. The port keeps what it kept. It waits for nothing.
    pub fn read_now(
        &self,
        alloc: Global,
        port: &mut Port<K>,
        slba: u64,
        blocks: u32,
    ) -> Result<ReadAnswer, ReadNow>
        requires of { IsPortOf self.now port.old }
        requires some { 0 < blocks }
        requires versions { self.now.versions ≡ true }
        ensures of { IsPortOf self.now port.new }
        ensures number { port.new.number ≡ port.old.number }
        ensures read { ReadsNow self.now.namespace slba blocks result port.old port.new }
    {
        laws::sharing_is_one_number();
        laws::regions_have_whole_units();
        // For the proof alone: it is a large geometry.
        let _nsze = self.geometry.nsze();
        if !self.geometry.in_range(slba, blocks) {
            return Err(ReadNow::OutOfRange);
        }
        if !self.geometry.lies_in_unit(slba, blocks) {
            return Err(ReadNow::Crosses);
        }
        let place = usize::from(self.regions.region_of(slba));
        let look = Look::Read {
            first: slba,
            blocks,
        };
        match self.units[place].look(alloc, &mut port.passes[place], look) {
            Ok(observed) => Ok(ReadAnswer::of(observed)),
            Err(LookFault::Newer { count }) => Err(ReadNow::Newer { count }),
            Err(LookFault::NoMemory { point }) => Err(ReadNow::NoMemory { point }),
        }
    }
}
