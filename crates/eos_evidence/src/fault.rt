//! Why a manifest or a segment is refused. A fault's text is its name.

ghost use Rattle.std.specs.Prelude.{◌≡◌, Some};
ghost use Rattle.eos_evidence.specs.declared.fault.SpecFault.TheVariants.{OutOfMemory};
ghost use Rattle.eos_evidence.specs.declared.fault.AddFault.TheVariants as add;
ghost use Rattle.eos_evidence.specs.declared.fault.ReadFault.TheVariants as read;
ghost use Rattle.eos_evidence.specs.Names.{spec_fault_name, add_fault_name, read_fault_name};

use std::alloc::{AllocError, AllocFailed};
use std::fmt::{Display, Formatter, Write};
use thiserror::Error;

/// Why a manifest is refused: the first of its tests that fails.
#[derive(Clone, Copy, Debug, Error)]
pub enum SpecFault {
    /// The bytes are no JSON text.
    Json,
    /// A part is absent, of the wrong type, or has a value that it may not have.
    Field,
    /// The version is another number than 1 and 2.
    Version,
    /// There are more applications or partitions than evidence may have.
    Limit,
    /// A growth of memory was refused.
    OutOfMemory,
}

impl SpecFault {
    /// The fault's name, as the program prints it.
    pub fn name(self) -> &'static str
        ensures { result.now ≡ spec_fault_name self }
    {
        match self {
            SpecFault::Json => "Json",
            SpecFault::Field => "Field",
            SpecFault::Version => "Version",
            SpecFault::Limit => "Limit",
            SpecFault::OutOfMemory => "OutOfMemory",
        }
    }
}

impl Display for SpecFault {
    ghost output = { λ fault. Some (spec_fault_name fault) };

    fn fmt<W: Write>(&self, f: &mut Formatter<W>) -> std::fmt::Result {
        f.write_str(self.name())
    }
}

impl From<AllocError> for SpecFault {
    ghost from_gives = { λ _ e. e ≡ OutOfMemory };

    fn from(_e: AllocError) -> SpecFault {
        SpecFault::OutOfMemory
    }
}

impl<T: Drop> From<AllocFailed<T>> for SpecFault {
    ghost from_gives = { λ _ e. e ≡ OutOfMemory };

    fn from(_e: AllocFailed<T>) -> SpecFault {
        SpecFault::OutOfMemory
    }
}

/// Why a segment is refused: the first of its tests that fails.
#[derive(Clone, Copy, Debug, Error)]
pub enum AddFault {
    /// The manifest has no such partition, or the base is below 0.
    Name,
    /// The segment is too long, or there are as many segments as evidence may have.
    Limit,
    /// There is a segment of this partition and base.
    Duplicate,
    /// A growth of memory was refused.
    OutOfMemory,
}

impl AddFault {
    /// The fault's name.
    pub fn name(self) -> &'static str
        ensures { result.now ≡ add_fault_name self }
    {
        match self {
            AddFault::Name => "Name",
            AddFault::Limit => "Limit",
            AddFault::Duplicate => "Duplicate",
            AddFault::OutOfMemory => "OutOfMemory",
        }
    }
}

impl Display for AddFault {
    ghost output = { λ fault. Some (add_fault_name fault) };

    fn fmt<W: Write>(&self, f: &mut Formatter<W>) -> std::fmt::Result {
        f.write_str(self.name())
    }
}

impl From<AllocError> for AddFault {
    ghost from_gives = { λ _ e. e ≡ add.OutOfMemory };

    fn from(_e: AllocError) -> AddFault {
        AddFault::OutOfMemory
    }
}

impl<T: Drop> From<AllocFailed<T>> for AddFault {
    ghost from_gives = { λ _ e. e ≡ add.OutOfMemory };

    fn from(_e: AllocFailed<T>) -> AddFault {
        AddFault::OutOfMemory
    }
}

/// Why a segment was not read.
#[derive(Clone, Copy, Debug, Error)]
pub enum ReadFault {
    /// The reader failed.
    Read,
    /// There are more bytes than a segment may have.
    Limit,
    /// A growth of memory was refused.
    OutOfMemory,
}

impl ReadFault {
    /// The fault's name.
    pub fn name(self) -> &'static str
        ensures { result.now ≡ read_fault_name self }
    {
        match self {
            ReadFault::Read => "Read",
            ReadFault::Limit => "Limit",
            ReadFault::OutOfMemory => "OutOfMemory",
        }
    }
}

impl Display for ReadFault {
    ghost output = { λ fault. Some (read_fault_name fault) };

    fn fmt<W: Write>(&self, f: &mut Formatter<W>) -> std::fmt::Result {
        f.write_str(self.name())
    }
}

impl From<AllocError> for ReadFault {
    ghost from_gives = { λ _ e. e ≡ read.OutOfMemory };

    fn from(_e: AllocError) -> ReadFault {
        ReadFault::OutOfMemory
    }
}

impl<T: Drop> From<AllocFailed<T>> for ReadFault {
    ghost from_gives = { λ _ e. e ≡ read.OutOfMemory };

    fn from(_e: AllocFailed<T>) -> ReadFault {
        ReadFault::OutOfMemory
    }
}
