ghost use Rattle.std.specs.Prelude.{◌≡◌};
ghost use Rattle.nvm_file.specs.Reading.{scope_of};

use crate::scope::Scope;
use nvm_audit::Version;
use nvm_geometry::Geometry;
use nvm_store::Limit;

/// What the front of a file says of all that follows.
#[derive(Drop)]
pub struct Frame {
    /// The length of the whole file, in bytes.
    pub total: usize,
    /// The file's version.
    pub version: Version,
    /// The namespace.
    pub geometry: Geometry,
    /// The most entries that a unit's history may have.
    pub limit: Limit,
    /// How many workers there were.
    pub workers: u16,
    /// How many jobs there are.
    pub jobs: u32,
}

impl Frame {
    /// What its commands are read by.
    pub fn scope(&self) -> Scope
        ensures { result ≡ scope_of self.now }
    {
        Scope {
            total: self.total,
            version: self.version,
            geometry: self.geometry,
        }
    }
}
