ghost use Rattle.std.specs.Prelude.{◌≡◌, SomeIff};
ghost use Rattle.nvm_record.specs.BlockSize.{IsBlockSize};

use std::marker::Model;

/// How many bytes of data a logical block has: 512 or 4,096.
#[derive(Clone, Copy, Debug, PartialEq, Eq, Hash)]
pub struct BlockSize {
    bytes: u32,
}

impl Model for BlockSize {
    ghost use Rattle.std.specs.Prelude.{ℕ};
    ghost use Rattle.nvm_record.specs.BlockSize.{IsBlockSize};

    ghost Value = { ℕ };

    ghost view = { λ s. s.bytes };

    ghost invariant = { λ s. IsBlockSize s.bytes };

    ghost inverse = { λ n. record { bytes = n } };
}

impl BlockSize {
    /// 512 bytes.
    pub const BYTES_512: BlockSize = BlockSize { bytes: 512 };
    /// 4,096 bytes.
    pub const BYTES_4096: BlockSize = BlockSize { bytes: 4096 };

    /// The size of `bytes` bytes, or `None` where no block has that size.
    pub fn new(bytes: u32) -> Option<BlockSize>
        ensures { SomeIff result (IsBlockSize bytes) bytes }
    {
        if bytes == 512 || bytes == 4096 {
            Some(BlockSize { bytes })
        } else {
            None
        }
    }

    /// The size in bytes.
    pub fn bytes(self) -> u32
        ensures value { result ≡ self }
        ensures valid { IsBlockSize result }
    {
        self.bytes
    }
}
