use nvm_record::Payload;

/// What a stored block keeps: zero bytes, of which only their number, or its data, or its mark.
#[derive(Drop)]
pub enum Content {
    Zero { size: usize },
    Data(Payload),
    Marked,
}
