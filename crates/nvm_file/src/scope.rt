use nvm_audit::Version;
use nvm_geometry::Geometry;

/// What the reading of a command has to know of its file.
#[derive(Drop)]
pub struct Scope {
    /// The length of the whole file, in bytes.
    pub total: usize,
    /// The version whose commands the file has.
    pub version: Version,
    /// The namespace.
    pub geometry: Geometry,
}
