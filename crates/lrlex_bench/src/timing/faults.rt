//! Why the program gives up.
use crate::timing::words::USAGE;
use std::alloc::{AllocError, AllocFailed};
use std::{fmt, io};

/// Why the program can't do what it is asked.
#[derive(Clone, Copy)]
pub enum Fault {
    /// The words are refused.
    Usage,
    /// The rule file can't be opened or read, or isn't UTF-8.
    CannotReadRules,
    /// The input can't be opened or read, or isn't UTF-8.
    CannotReadInput,
    /// The rule text has faults.
    Refused,
    /// A key doesn't fit the text.
    DoesNotFit,
    /// Out of memory.
    Memory,
    /// The clock, standard input or standard output failed.
    System,
}

impl Fault {
    /// Tells it on standard error. There is nowhere to tell of a fault of standard error itself.
    pub fn tell(self, rt: &HostRuntime) {
        let _ = eprintln!(rt; "{self}");
    }
}

impl fmt::Display for Fault {
    fn fmt<W: fmt::Write>(&self, f: &mut fmt::Formatter<W>) -> fmt::Result {
        let text = match self {
            Fault::Usage => USAGE,
            Fault::CannotReadRules => "Can't read the rule file",
            Fault::CannotReadInput => "Can't read the input",
            Fault::Refused => "The rule file has faults",
            Fault::DoesNotFit => "A key doesn't fit the text",
            Fault::Memory => "Out of memory",
            Fault::System => "The clock, standard input or standard output failed",
        };
        write!(f, "{text}")
    }
}

impl From<AllocError> for Fault {
    fn from(_fault: AllocError) -> Fault {
        Fault::Memory
    }
}

impl<T: Drop> From<AllocFailed<T>> for Fault {
    fn from(_fault: AllocFailed<T>) -> Fault {
        Fault::Memory
    }
}

impl From<io::Error> for Fault {
    fn from(fault: io::Error) -> Fault {
        if fault.kind() == io::ErrorKind::OutOfMemory {
            Fault::Memory
        } else {
            Fault::System
        }
    }
}
