//! Bytes compared in groups.
ghost use Rattle.std.specs.Prelude.{◌≡◌, length};
ghost use Rattle.std.specs.Str.{bytes_eq};

/// The number of bytes that are compared before it is asked whether all of them were equal.
const GROUP: usize = 256;

/// Whether both are the same bytes. Of long data that is mostly equal it takes about three quarters of the instructions of `==`, which
/// asks after each 32 bytes.
pub fn are_equal(one: &[u8], other: &[u8]) -> bool
    ensures { result ≡ bytes_eq one.now other.now }
{
    if one.len() != other.len() {
        return false;
    }
    let mut from = 0;
    while one.len() - from >= GROUP {
        if !is_group_equal(&one[from..from + GROUP], &other[from..from + GROUP]) {
            return false;
        }
        from += GROUP;
    }
    one[from..] == other[from..]
}

/// Whether the two groups are the same bytes.
fn is_group_equal(one: &[u8], other: &[u8]) -> bool
    requires one { length one.now ≡ 256 }
    requires other { length other.now ≡ 256 }
    ensures { result ≡ bytes_eq one.now other.now }
{
    let mut same = true;
    for place in 0..GROUP {
        same &= one[place] == other[place];
    }
    same
}
