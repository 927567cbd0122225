use nvm_record::Statuses;

/// What is decided of a job before anything is done.
#[derive(Clone, Copy, Debug, PartialEq, Eq)]
pub enum Plan {
    /// The job is done by nobody, and these statuses are reported to its host.
    Refused(Statuses),
    /// The job can be done.
    Ready,
}
