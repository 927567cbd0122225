ghost use Rattle.std.specs.Prelude.{◌≡◌, ◌≤◌};
ghost use Rattle.nvm_record.specs.Completion.{posted};

use crate::read_data::ReadData;
use crate::status::Status;
use byteorder::{ByteOrder, LittleEndian};
use std::alloc::AllocError;

/// What is reported to a host about one of its commands.
#[derive(Debug, PartialEq, Eq, Drop)]
pub struct Completion {
    /// The number of the host, from 1.
    pub host: u16,
    /// The command's identifier.
    pub cid: u16,
    /// How the command ended.
    pub status: Status,
    /// The data of a Read of status 0/00.
    pub payload: Option<ReadData>,
}

/// A copy of the completion and of its data, which takes memory.
impl Clone for Completion {
    ghost is_clone = { λ completion copy. copy ≡ completion };

    fn clone(&self) -> Result<Completion, AllocError> {
        let payload = match &self.payload {
            Some(payload) => {
                let payload = payload.clone()?;
                Some(payload)
            }
            None => None,
        };
        Ok(Completion {
            host: self.host,
            cid: self.cid,
            status: self.status,
            payload,
        })
    }
}

/// The status code begins at this bit of dword 3.
const CODE_AT: u32 = 1 << 17;
/// The status code type begins at this bit of dword 3.
const TYPE_AT: u32 = 1 << 25;

/// The entry of 16 bytes that a controller posts to the completion queue (Base Specification,
/// "Common Completion Queue Entry Layout"): the host's number is the SQ identifier, and every bit that
/// no field of `Completion` names is 0. It takes no memory.
///
/// The status code type has three bits there, so it is at most 7.
pub fn completion_bytes(completion: &Completion) -> [u8; 16]
    requires { completion.now.status.sct ≤ 7 }
    ensures { result ≡ posted completion.now }
{
    let host = completion.host;
    let cid = completion.cid;
    let sct = completion.status.sct;
    let sc = completion.status.sc;
    let dword_3 = u32::from(cid) + u32::from(sc) * CODE_AT + u32::from(sct) * TYPE_AT;
    let mut entry = [0; 16];
    LittleEndian::write_u16(&mut entry[10..], host);
    LittleEndian::write_u32(&mut entry[12..], dword_3);
    entry
}
