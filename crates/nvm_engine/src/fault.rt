ghost use Rattle.std.specs.Prelude.{◌≡◌};
ghost use Rattle.nvm_engine.specs.declared.fault.Fault.TheVariants.{NoMemory};
ghost use Rattle.nvm_engine.specs.Fault.{fault_of_host, fault_of_record, fault_of_trace};

use nvm_file::{RecordFault, TraceFileFault};
use nvm_geometry::GeometryFault;
use nvm_record::HostFault;
use std::alloc::{AllocError, AllocFailed};
use thiserror::Error;

/// Why there is nothing to show. Each prints its one line, without the name of a program.
#[derive(Debug, Drop, Error)]
pub enum Fault {
    /// The settings describe no namespace: their first fault.
    #[error("geometry: {0}")]
    Geometry(GeometryFault),
    /// There are more than 64 host files.
    #[error("too many hosts")]
    TooManyHosts,
    /// A host's file isn't one: the number of the host, which counts from 1, and the file's first fault from the front.
    #[error("host {host}: {fault}")]
    Host { host: u16, fault: HostFault },
    /// The bytes aren't a record's file: their first fault from the front.
    #[error("record: {0}")]
    Record(RecordFault),
    /// The bytes aren't a trace's file: their first fault from the front.
    #[error("trace: {0}")]
    Trace(TraceFileFault),
    /// Memory was asked for and refused, outside a command.
    #[error("no memory")]
    NoMemory,
}

impl Fault {
    /// The fault of a host's file. Hosts count from 1.
    pub fn of_host(host: u16, fault: HostFault) -> Fault
        ensures { result ≡ fault_of_host host fault }
    {
        match fault {
            HostFault::NoMemory => Fault::NoMemory,
            _ => Fault::Host { host, fault },
        }
    }

    /// The fault of a record's file.
    pub fn of_record(fault: RecordFault) -> Fault
        ensures { result ≡ fault_of_record fault }
    {
        match fault {
            RecordFault::NoMemory => Fault::NoMemory,
            _ => Fault::Record(fault),
        }
    }

    /// The fault of a trace's file.
    pub fn of_trace(fault: TraceFileFault) -> Fault
        ensures { result ≡ fault_of_trace fault }
    {
        match fault {
            TraceFileFault::NoMemory => Fault::NoMemory,
            _ => Fault::Trace(fault),
        }
    }
}

impl From<AllocError> for Fault {
    ghost from_gives = { λ _ e. e ≡ NoMemory };

    fn from(_e: AllocError) -> Fault {
        Fault::NoMemory
    }
}

impl<T: Drop> From<AllocFailed<T>> for Fault {
    ghost from_gives = { λ _ e. e ≡ NoMemory };

    fn from(_e: AllocFailed<T>) -> Fault {
        Fault::NoMemory
    }
}
