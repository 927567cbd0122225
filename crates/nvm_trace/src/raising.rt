ghost use Rattle.std.specs.Prelude.{◌≡◌, ℕ, ◌+◌, ◌<◌, length, take, slice_index};
ghost use Rattle.nvm_trace.specs.Inside.Latest.{greatest};

/// Makes each number the greatest of those up to it.
pub(crate) fn raise(row: &mut Vec<u64>)
    ensures long { length row.new.items ≡ length row.old.items }
    ensures greatest { (k : ℕ) → k < length row.old.items
        → slice_index row.new.items k ≡ greatest (take (k + 1) row.old.items) }
{
    let mut latest = 0;
    for level in 0..row.len() {
        if row[level] < latest {
            row[level] = latest;
        } else {
            latest = row[level];
        }
    }
}
