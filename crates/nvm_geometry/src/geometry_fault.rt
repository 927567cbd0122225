use thiserror::Error;

/// Why six numbers are no geometry. Of several faults the first of this list is answered.
#[derive(Clone, Copy, Debug, PartialEq, Eq, Error)]
pub enum GeometryFault {
    /// NSZE, the number of LBAs, is 0 or above 65,536.
    #[error("Size")]
    Size,
    /// The block size is neither 512 nor 4,096 bytes.
    #[error("BlockSize")]
    BlockSize,
    /// NABSN is 0, so that there is no boundary, and NABO isn't 0.
    #[error("OffsetWithoutBoundary")]
    OffsetWithoutBoundary,
    /// NABSN isn't 0, and NABO is above it.
    #[error("OffsetAboveBoundary")]
    OffsetAboveBoundary,
    /// NABSN isn't 0, and NAWUN is above it.
    #[error("WriteUnitAboveBoundary")]
    WriteUnitAboveBoundary,
    /// NABSN isn't 0, and NACWU is above it.
    #[error("PairUnitAboveBoundary")]
    PairUnitAboveBoundary,
    /// The boundaries cut the namespace into more than 4,096 units.
    #[error("TooManyUnits")]
    TooManyUnits,
}
