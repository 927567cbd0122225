ghost use Rattle.std.specs.Prelude.{◌≡◌};
ghost use Rattle.nvm_listing.specs.AllFaults as spec;

use nvm_audit::{AuditFault, Verdict};

/// What is found in a record: that it is lawful, or what is wrong in it.
#[derive(Debug, Drop)]
pub enum Faults {
    /// Nothing is wrong, and this is the record's verdict.
    Lawful(Verdict),
    /// The first fault of each unit that has one, in the order of the units; or the one fault of a job by itself.
    Unlawful(Vec<AuditFault>),
}

impl Faults {
    /// The exit status: 0, or 2 where the record isn't lawful.
    pub fn status(&self) -> u8
        ensures { result ≡ spec.faults_status self.now }
    {
        match self {
            Faults::Lawful(_) => 0,
            Faults::Unlawful(_) => 2,
        }
    }
}
