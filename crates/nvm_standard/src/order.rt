/// An order of points, by which a trace is explained or not.
///
/// Blocks are those of the trace's namespace. Bytes are lent, and are those of one block.
#[derive(Debug, Drop)]
pub struct Order<'t> {
    /// What blocks held at first. The rest held zeroes. None is named where the trace starts from zeroes. Of one that is named more
    /// than once the last counts.
    pub first: Vec<FirstContent<'t>>,
    /// The points, in their order.
    pub placed: Vec<Placed<'t>>,
}

/// What a block held at first.
#[derive(Clone, Copy, Debug)]
pub struct FirstContent<'t> {
    pub block: u32,
    pub content: Content<'t>,
}

/// A place in an order: a point, done in some of its blocks or in all.
#[derive(Clone, Copy, Debug)]
pub struct Placed<'t> {
    /// Its number in the table of points.
    pub point: u32,
    /// The first of the blocks.
    pub first: u32,
    /// How many blocks. They are exactly the point's, or where it is done block by block any of them that follow one another.
    pub blocks: u32,
    /// What is put.
    pub value: Value<'t>,
}

/// What a point puts where it is placed.
#[derive(Clone, Copy, Debug)]
pub enum Value<'t> {
    /// What the table says, or nothing.
    AsIs,
    /// This, in each of its blocks: of a deallocated block, or where anything may be put.
    Put(Content<'t>),
}

/// What a block holds.
#[derive(Clone, Copy, Debug)]
pub enum Content<'t> {
    Zeroes,
    /// FFh in each byte.
    Ones,
    /// These bytes, of one block.
    Bytes(&'t [u8]),
    /// The mark that Write Uncorrectable leaves.
    Mark,
}
