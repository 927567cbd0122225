use nvm_trace::WitnessFault;

/// The line that says what a fault of this name means.
pub(crate) fn meaning(fault: WitnessFault) -> &'static str {
    match fault {
        WitnessFault::NamespaceDiffers => {
            "NamespaceDiffers: the record is of another namespace than the trace.\n"
        }
        WitnessFault::JobDiffers { .. } => {
            "JobDiffers: as the job of this number the record has something else than the trace, or nothing.\n"
        }
        WitnessFault::NoPreparation { .. } => {
            "NoPreparation: the job isn't the trace's, and it is no Write of one block by itself, or the trace starts from zeroes.\n"
        }
        WitnessFault::Unlawful { .. } => {
            "Unlawful: the record has a fault of its own, whatever the trace is.\n"
        }
        WitnessFault::ReplyDiffers { .. } => {
            "ReplyDiffers: what the record shows of the job isn't what its host saw.\n"
        }
        WitnessFault::TimeBack { .. } => {
            "TimeBack: the job had ended before one began that stands before it in the unit.\n"
        }
        WitnessFault::NoMemory => "",
    }
}
