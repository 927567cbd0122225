//! Reads that are answered without a wait, from what a port keeps.
ghost use Rattle.std.specs.Prelude.{◌≡◌};
ghost use Rattle.nvm_c.specs.Engines.{IsSound};
ghost use Rattle.nvm_c.specs.ReadNow.{Reads};

use crate::code::Code;
use crate::engine::Engine;
use crate::telling::overwrite;
use nvm_space::ReadNow;
use std::alloc::Global;

/// The status of a Read, as C reads it.
#[repr(C)]
#[derive(Clone, Copy)]
pub struct ReadStatus {
    pub sct: u8,
    pub sc: u8,
}

impl Engine {
    /// Answers a Read of `nlb + 1` blocks by `Space::read_now`. It waits for nothing.
    pub(crate) fn read_now(
        &mut self,
        alloc: Global,
        slba: u64,
        nlb: u16,
        buffer: &mut [u8],
        status: &mut ReadStatus,
    ) -> Code
        requires { IsSound self.old }
        ensures sound { IsSound self.new }
        ensures reads { Reads result self.old self.new slba nlb
            (record { bytes = buffer.old; status = status.old }) (record { bytes = buffer.new; status = status.new }) }
    {
        match &self.pending {
            Some(_) => return Code::Busy,
            None => {}
        }
        if !self.space.versions() {
            return Code::NoVersions;
        }
        let blocks = u32::from(nlb) + 1;
        let size = self.space.geometry().block_size().bytes();
        if buffer.len() != blocks as usize * size as usize {
            return Code::BadLength;
        }
        match self.space.read_now(alloc, &mut self.port, slba, blocks) {
            Ok(read) => {
                *status = ReadStatus {
                    sct: read.status.sct,
                    sc: read.status.sc,
                };
                if let Some(bytes) = &read.payload {
                    overwrite(buffer, bytes.as_slice());
                }
                Code::Done
            }
            Err(ReadNow::Newer { count: _ }) => Code::Newer,
            Err(ReadNow::NoMemory { point: _ }) => Code::NoMemory,
            Err(ReadNow::OutOfRange) => Code::OutOfRange,
            Err(ReadNow::Crosses) => Code::Crosses,
        }
    }
}
