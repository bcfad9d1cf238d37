//! Why reading and answering lines ended early.
ghost use Rattle.std.specs.Prelude.{◌≡◌};

use thiserror::Error;

/// Why reading and answering lines ended early.
#[derive(Clone, Copy, Debug, PartialEq, Eq, Error)]
pub enum Fault {
    /// There was no memory to begin with.
    #[error("fault 6")]
    NoMemory,
    /// A read failed.
    #[error("fault 13")]
    ReadFault,
    /// The input has more than 2^30 bytes. Its number is that of a failed read.
    #[error("fault 13")]
    TooLong,
    /// A write failed, or took no byte.
    #[error("fault 14")]
    WriteFault,
}

impl Fault {
    ghost use Rattle.lv_lines.specs.Faults.{fault_number};

    /// The number by which the program shows it.
    pub fn number(self) -> u32
        ensures { result ≡ fault_number self }
    {
        match self {
            Fault::NoMemory => 6,
            Fault::ReadFault | Fault::TooLong => 13,
            Fault::WriteFault => 14,
        }
    }
}
