ghost use Rattle.std.specs.Prelude.{◌≡◌};

use nvm_record::{ReadData, Status};
use std::alloc::AllocError;

/// What a [`Look`](crate::Look) is answered.
#[derive(Debug, PartialEq, Eq, Drop)]
pub enum Answer {
    /// The data of a Read whose status is 0/00.
    Payload(ReadData),
    /// The status of a Compare: 2/81, Unrecovered Read Error, where a block is marked, else 2/85, Compare
    /// Failure, where a byte differs, else 0/00. Or the status of a Read that failed: 2/81.
    Status(Status),
}

/// A copy of the answer and of its data, which takes memory.
impl Clone for Answer {
    ghost is_clone = { λ answer copy. copy ≡ answer };

    fn clone(&self) -> Result<Answer, AllocError> {
        match self {
            Answer::Payload(payload) => {
                let payload = payload.clone()?;
                Ok(Answer::Payload(payload))
            }
            Answer::Status(status) => Ok(Answer::Status(*status)),
        }
    }
}
