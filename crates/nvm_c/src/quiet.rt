use nvm_unit::{Gate, Kept, Unit};

/// A gate that does nothing. Nobody waits for a unit of this library, so nobody has to be woken.
pub(crate) struct Quiet;

impl Gate for Quiet {
    fn before_put(&self, _unit: u16, _job: u32) {}

    fn after_put<K: Kept>(&self, _unit: &Unit<K>) {}

    fn after_job(&self, _job: u32) {}
}
