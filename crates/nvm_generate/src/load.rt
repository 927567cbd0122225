use nvm_geometry::Geometry;

/// What hosts are to ask for. Each host's commands come from it and the host's number.
#[derive(Clone, Copy, Debug, PartialEq, Eq)]
pub struct Load {
    /// Another number gives other commands.
    pub seed: u64,
    /// How many commands each host asks for.
    pub commands: u16,
    /// The namespace; commands may be on any of its blocks. No command has more than NAWUN + 1 blocks, nor more than 256.
    pub geometry: Geometry,
    /// How often each kind of command is asked for.
    pub mix: Mix,
}

/// How often each kind is asked for, relative to the others: 20 is twice as often as 10, and 0 is never. If all are 0, every command
/// is a Read, and so is a pair for which only one command is left.
#[derive(Clone, Copy, Debug, PartialEq, Eq)]
pub struct Mix {
    pub write: u16,
    pub read: u16,
    pub compare: u16,
    /// Fused Compare and Write, which is one here.
    pub pair: u16,
    pub zeroes: u16,
    pub uncorrectable: u16,
    /// Dataset Management with the Deallocate bit.
    pub deallocate: u16,
}
