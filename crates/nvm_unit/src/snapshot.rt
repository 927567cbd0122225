ghost use Rattle.std.specs.Prelude.{◌≡◌, Bool, IfOk, IfSome, MatchOption, None, Some, is_some, true};

use nvm_record::NoMemory;
use nvm_store::UnitBlocks;

/// A point of the history, by its number of entries, and perhaps the unit's blocks as they were there: the version. It costs no
/// copy, since both are trees that share what hasn't changed between them.
#[derive(Drop)]
pub struct Snapshot {
    entries: u64,
    version: Option<UnitBlocks>,
}

impl Snapshot {
    /// Of the opening point, before any entry. With `versions` it fails where the blocks can't be shared.
    pub fn opening(blocks: &UnitBlocks, versions: bool) -> Result<Snapshot, NoMemory>
        ensures entries { IfOk result (λ s. s.entries ≡ 0) }
        ensures version { IfOk result (λ s. IfSome s.version (λ u. u ≡ blocks.now)) }
        ensures kept { IfOk result (λ s. is_some s.version ≡ versions) }
    {
        let version = if versions {
            Some(blocks.share()?)
        } else {
            None
        };
        Ok(Snapshot {
            entries: 0,
            version,
        })
    }

    /// Of the point with this many entries, where the blocks are these. It has a version if `versions` asks for one and the blocks
    /// can be shared once more.
    pub fn of(entries: u64, blocks: &UnitBlocks, versions: bool) -> Snapshot
        ensures entries { result.entries ≡ entries }
        ensures version { IfSome result.version (λ u. u ≡ blocks.now) }
        ensures kept { is_some result.version ≡ true → versions ≡ true }
    {
        let version = if versions { blocks.share().ok() } else { None };
        Snapshot { entries, version }
    }

    /// The number of entries.
    pub fn entries(&self) -> u64
        ensures { result ≡ self.now.entries }
    {
        self.entries
    }

    /// The version, if it keeps one.
    pub fn version(&self) -> Option<&UnitBlocks>
        ensures { MatchOption result (self.now.version ≡ None) (λ u. self.now.version ≡ Some u.now) }
    {
        self.version.as_ref()
    }

    /// Moves a snapshot without a version to the point with this many entries.
    pub fn set_entries(&mut self, entries: u64)
        requires { self.old.version ≡ None }
        ensures entries { self.new.entries ≡ entries }
        ensures version { self.new.version ≡ None }
    {
        self.entries = entries;
    }

    /// Whether it keeps a version.
    pub fn keeps(&self) -> bool
        ensures { result ≡ is_some self.now.version }
    {
        self.version.is_some()
    }

    /// Lets the blocks go. Unless somebody else still shares them, the next change is made in place.
    pub fn drop_version(&mut self) {
        // Without a test the place of a version that isn't there would be moved, to be dropped.
        if self.version.is_some() {
            self.version = None;
        }
    }
}
