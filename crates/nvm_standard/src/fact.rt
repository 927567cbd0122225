use crate::node::Node;

/// What is so in each explanation of a table, by a rule: that a point comes at a block before another, or what was there at first.
///
/// Points are named by their numbers in the table. The rules use these words:
///
/// - *There* is what is sure, a point that is done in one of its blocks and has no other, the source of what is there, and what something
///   that is there comes only after.
/// - One point *comes before* another at a block if its time was over before the other's began, if it is a Deallocate that may not be done
///   after the other, or by the facts before. These are followed along a chain where its inner links are there: a fact that leads on from
///   a source is given after it, or once more.
/// - A point *surely puts* a block if it has it, is there, and puts something.
/// - It *can serve* a reader if something that it may put in the block is what the reader may find there.
/// - It *divides* a reader from what was before if it surely puts the block, or is there and found bytes there that the reader can't find.
/// - It is *excused* if it comes after the reader, or before something that divides and comes before the reader.
/// - What the reader found *was put* if it can't have been there at first: where the trace starts from zeroes, which the reader
///   doesn't find, or another reader found what was there at first, which isn't what this one found, or something that divides comes
///   before the reader.
#[derive(Clone, Copy, Debug, PartialEq, Eq)]
pub enum Fact {
    /// The time of the earlier, which is another point, was over before the later one's began.
    Time {
        earlier: Node,
        later: Node,
    },
    /// The Deallocate was over before the writer began, which is sure and puts the block.
    Deallocate {
        deallocate: u32,
        writer: u32,
        block: u32,
    },
    /// The point comes at the block only after the one before it in the table, which is there if it is. If that one is done in all of its
    /// blocks or none, it is there at the block if the point is there at any.
    Own {
        later: u32,
        block: u32,
    },
    /// What the reader found in the block was put, and of all points but the two each that can serve it is excused: so the writer comes
    /// before the reader. Its blocks aren't done any number of times.
    Source {
        writer: u32,
        reader: u32,
        block: u32,
    },
    /// The source is the reader's, and comes before the writer, which surely puts the block: so the reader comes before the writer.
    Over {
        reader: u32,
        writer: u32,
        block: u32,
        source: u32,
    },
    /// The source is the reader's, which is there, and the writer, which surely puts the block, comes before the reader: so the writer
    /// comes before the source, of which the block isn't done any number of times.
    Under {
        writer: u32,
        source: u32,
        block: u32,
        reader: u32,
    },
    /// Of all other points each that can serve the reader is excused: so it found what was there at first. The writer, which surely puts
    /// the block, comes after it.
    First {
        reader: u32,
        writer: u32,
        block: u32,
    },
    /// So it is of the reader, which is there: at first the block held what it found. That is no order.
    AtFirst {
        reader: u32,
        block: u32,
    },
    /// The tied reader is there at the block `by`, and comes there before the entry, which puts both blocks at one moment: so it does
    /// at this block, too.
    TiedBefore {
        reader: u32,
        block: u32,
        entry: u32,
        by: u32,
    },
    /// The entry, which puts both blocks at one moment, comes before the tied reader at the block `by`, where that is there: so it does
    /// at this block, too.
    TiedAfter {
        entry: u32,
        reader: u32,
        block: u32,
        by: u32,
    },
}
