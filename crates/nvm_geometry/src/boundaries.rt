ghost use Rattle.std.specs.Prelude.{◌≡◌, ◌≢◌, ◌↔◌, ℕ, ◌+◌, ◌*◌, ◌<◌, ◌≤◌, ◌^◌};
ghost use Rattle.nvm_geometry.specs.Boundaries.{boundary_count};

/// How many LBAs the LBA 0 is past the boundary before it, or past where that would be.
fn shift(nabsn: u64, nabo: u64) -> u64
    requires offset { nabo ≤ nabsn }
    requires small { nabsn < 2 ^ 48 }
    ensures none { nabo ≡ 0 → result ≡ 0 }
    ensures rest { 0 < nabo → nabo + result ≡ nabsn + 1 }
{
    if nabo == 0 { 0 } else { nabsn + 1 - nabo }
}

/// How many boundaries are at most the LBA, where they are as far apart as `nabsn` says, zeroes-based.
pub(crate) fn count_at(nabsn: u64, nabo: u64, lba: u64) -> u64
    requires offset { nabo ≤ nabsn }
    requires apart { nabsn < 2 ^ 48 }
    requires small { lba < 2 ^ 48 }
    ensures value { result ≡ boundary_count nabsn nabo lba }
    ensures few { result ≤ lba }
{
    if nabsn == 0 {
        return 0;
    }
    (lba + shift(nabsn, nabo)) / (nabsn + 1)
}

/// The first LBA up to which there are at least so many boundaries.
pub(crate) fn lba_of_count(nabsn: u64, nabo: u64, count: u64) -> u64
    requires boundary { nabsn ≢ 0 }
    requires offset { nabo ≤ nabsn }
    requires apart { nabsn < 2 ^ 48 }
    requires small { count * (nabsn + 1) < 2 ^ 63 }
    ensures { (lba : ℕ) → (result ≤ lba) ↔ (count ≤ boundary_count nabsn nabo lba) }
{
    (count * (nabsn + 1)).saturating_sub(shift(nabsn, nabo))
}

/// The number of the LBA's unit.
pub(crate) fn unit_at(nabsn: u16, nabo: u16, lba: u64) -> u64
    requires offset { nabo ≤ nabsn }
    requires small { lba < 2 ^ 48 }
    ensures value { result ≡ boundary_count nabsn nabo lba }
    ensures few { result ≤ lba }
{
    count_at(u64::from(nabsn), u64::from(nabo), lba)
}

/// The first LBA whose unit has at least this number.
pub(crate) fn unit_start(nabsn: u16, nabo: u16, unit: u64) -> u64
    requires boundary { nabsn ≢ 0 }
    requires offset { nabo ≤ nabsn }
    requires small { unit < 2 ^ 47 }
    ensures { (lba : ℕ) → (result ≤ lba) ↔ (unit ≤ boundary_count nabsn nabo lba) }
{
    lba_of_count(u64::from(nabsn), u64::from(nabo), unit)
}
