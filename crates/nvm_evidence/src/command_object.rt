//! A command or a fused pair of a trace as an object of JSON.

use nvm_listing::{DataValue, SentObjects, StatusStrings};
use nvm_record::NoMemory;
use nvm_trace::TracedJob;

/// Appends the object of the job of this number.
pub(crate) fn push_command_object(
    text: &mut String,
    number: usize,
    job: &TracedJob,
) -> Result<(), NoMemory> {
    let began = job.began;
    let host = job.job.host;
    let sent = SentObjects(&job.job.body);
    match &job.ended {
        Some(ending) => {
            let ended = ending.time;
            let statuses = StatusStrings(ending.statuses);
            let data = DataValue(ending.payload.as_ref());
            write!(
                text,
                "{{\"job\":{number},\"began\":{began},\"ended\":{ended},\"host\":{host},\"sent\":[{sent}],\"statuses\":[{statuses}],\"data\":{data}}}"
            )
        }
        None => write!(
            text,
            "{{\"job\":{number},\"began\":{began},\"ended\":null,\"host\":{host},\"sent\":[{sent}],\"statuses\":[],\"data\":null}}"
        ),
    }
}
