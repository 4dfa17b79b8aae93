//! Why a file of deviations has no margin, and what is told of it.
ghost use Rattle.std.specs.Prelude.{◌≡◌, Some as Known};
ghost use Rattle.margin_file.specs.declared.fault.SampleFault.TheVariants.{Refused as OutOfBounds, Memory as NoMemory};
ghost use Rattle.margin_file.specs.Faults.{fault_told};
ghost use Rattle.margin_file.specs.Texts.{refusal_text, fault_text};

use equations::{FigureFault, Told};
use std::alloc::{AllocError, AllocFailed};
use std::fmt;

/// Why there is no margin.
#[derive(Clone, Copy)]
pub enum SampleFault {
    /// Ground 1: the first line that writes no number, counted from 1, and whether it has too many bytes.
    Unreadable { line: u32, long: bool },
    /// Ground 7: the deviations are out of their bounds.
    Refused(FigureFault),
    /// There was no memory for the deviations, which tells nothing of the file.
    Memory,
}

/// What is told of a refused file: the line, counted from 1 (0 where none is named), and the ground.
#[derive(Clone, Copy)]
pub struct Refusal {
    pub line: u32,
    pub told: Told,
}

impl From<FigureFault> for SampleFault {
    ghost from_gives = { λ e r. r ≡ OutOfBounds e };

    fn from(fault: FigureFault) -> SampleFault {
        SampleFault::Refused(fault)
    }
}

impl From<AllocError> for SampleFault {
    ghost from_gives = { λ _ r. r ≡ NoMemory };

    fn from(_fault: AllocError) -> SampleFault {
        SampleFault::Memory
    }
}

impl<T: Drop> From<AllocFailed<T>> for SampleFault {
    ghost from_gives = { λ _ r. r ≡ NoMemory };

    fn from(_fault: AllocFailed<T>) -> SampleFault {
        SampleFault::Memory
    }
}

impl SampleFault {
    /// What the fault tells of the file; nothing where memory was wanting.
    pub fn told(&self) -> Option<Refusal>
        ensures { result ≡ fault_told self.now }
    {
        match *self {
            SampleFault::Unreadable { line, long } => Some(Refusal {
                line,
                told: Told {
                    number: 1,
                    place: if long { 0 } else { 1 },
                    period: 0,
                },
            }),
            SampleFault::Refused(fault) => {
                let told = fault.told();
                Some(Refusal {
                    line: told.place as u32,
                    told,
                })
            }
            SampleFault::Memory => None,
        }
    }
}

impl fmt::Display for Refusal {
    ghost output = { λ r. Known (refusal_text r) };

    fn fmt<W: fmt::Write>(&self, f: &mut fmt::Formatter<W>) -> fmt::Result {
        let line = self.line;
        let Told {
            number,
            place,
            period,
        } = self.told;
        write!(f, "no,{line},{number},{place},{period}")
    }
}

impl fmt::Display for SampleFault {
    ghost output = { λ e. Known (fault_text e) };

    fn fmt<W: fmt::Write>(&self, f: &mut fmt::Formatter<W>) -> fmt::Result {
        match self.told() {
            Some(refusal) => write!(f, "{refusal}"),
            None => f.write_str("out of memory"),
        }
    }
}
