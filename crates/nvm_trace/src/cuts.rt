/// Into which pieces a traced job is cut.
#[derive(Clone, Copy, Debug)]
pub enum Cuts {
    /// It stays whole.
    Whole,
    /// Into its blocks, of which there is this number.
    Blocks(u32),
    /// Into its parts in the units that it meets.
    Units,
}
