use crate::cut::Cut;
use crate::traced_job::TracedJob;

/// The traced command that one of the record's jobs is of, and what of it that job is.
#[derive(Clone, Copy, Debug)]
pub struct Owner<'a> {
    pub whole: &'a TracedJob,
    pub cut: Cut,
}
