//! Which point a fact puts before which.
use nvm_standard::Fact;

/// The numbers of two points of which the one comes before the other, in a block if one is named.
#[derive(Clone, Copy)]
pub(crate) struct PointOrder {
    pub(crate) before: u32,
    pub(crate) after: u32,
    pub(crate) lba: Option<u32>,
}

/// The order of two points that the fact says, if it says one.
pub(crate) fn order_of(fact: Fact) -> Option<PointOrder> {
    let (before, after, lba) = match fact {
        Fact::Time { earlier, later } => (earlier.point, later.point, None),
        Fact::Deallocate {
            deallocate,
            writer,
            block,
        } => (deallocate, writer, Some(block)),
        Fact::Own { later, block } => (later.saturating_sub(1), later, Some(block)),
        Fact::Source {
            writer,
            reader,
            block,
        } => (writer, reader, Some(block)),
        Fact::Over {
            reader,
            writer,
            block,
            ..
        }
        | Fact::First {
            reader,
            writer,
            block,
        } => (reader, writer, Some(block)),
        Fact::Under {
            writer,
            source,
            block,
            ..
        } => (writer, source, Some(block)),
        Fact::AtFirst { .. } => return None,
        Fact::TiedBefore {
            reader,
            block,
            entry,
            ..
        } => (reader, entry, Some(block)),
        Fact::TiedAfter {
            entry,
            reader,
            block,
            ..
        } => (entry, reader, Some(block)),
    };
    Some(PointOrder { before, after, lba })
}
