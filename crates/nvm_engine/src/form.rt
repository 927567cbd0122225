/// How a record's commands are printed.
#[derive(Clone, Copy, Debug)]
pub(crate) enum Form {
    /// A line for each command.
    Short,
    /// Under the line of each command one more, with what its host's list says of it and the name of its status.
    Long,
}
