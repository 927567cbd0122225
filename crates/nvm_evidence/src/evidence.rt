use nvm_standard::{Contradiction, Order, Profile};

/// An order, and what the device was held to where it was found. Bytes are lent.
#[derive(Debug, Drop)]
pub struct HeldOrder<'f> {
    pub profile: Profile,
    pub order: Order<'f>,
}

/// A contradiction, and what the device was held to where it was found.
#[derive(Debug, Drop)]
pub struct HeldContradiction {
    pub profile: Profile,
    pub contradiction: Contradiction,
}

/// What a file of evidence holds.
#[derive(Debug, Drop)]
pub enum Evidence<'f> {
    Order(HeldOrder<'f>),
    Contradiction(HeldContradiction),
}
