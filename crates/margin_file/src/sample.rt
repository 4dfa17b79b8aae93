//! Reads the deviations of a file and judges them.
ghost use Rattle.std.specs.Prelude.{Some as Known, MatchResult};
ghost use Rattle.margin_file.specs.Samples.{read_lines, Written, Added, LineFault, Answer, FaultOf};
ghost use Rattle.margin_file.specs.Texts.{sample_text};

use crate::SampleFault;
use equations::margin;
use std::alloc::Global;
use std::fmt;
use text::{Lines, number, too_long};

/// The most lines that are read of a file.
const MOST_LINES: u32 = 100_000;

/// How many deviations a file has, and their margin.
#[derive(Clone, Copy)]
pub struct Sample {
    pub count: u32,
    pub margin: i32,
}

impl fmt::Display for Sample {
    ghost output = { λ s. Known (sample_text s) };

    fn fmt<W: fmt::Write>(&self, f: &mut fmt::Formatter<W>) -> fmt::Result {
        let Sample { count, margin } = *self;
        write!(f, "ok,{count},{margin}")
    }
}

// Adds the deviation that a line writes; a line that writes none is refused.
fn add_line(deviations: &mut Vec<i32>, line: u32, bytes: &[u8]) -> Result<(), SampleFault>
    ensures { MatchResult result (λ _. Added deviations.old.items bytes.now deviations.new.items) (λ e. LineFault line bytes.now e) }
{
    let long = too_long(bytes);
    let deviation = number(bytes).ok_or(SampleFault::Unreadable { line, long })?;
    deviations.push(deviation)?;
    Ok(())
}

// The deviations that the lines write; the first line that writes none is refused.
fn read_deviations(heap: Global, file: &[u8]) -> Result<Vec<i32>, SampleFault>
    ensures { MatchResult result (λ v. Written (read_lines file.now) v.items) (λ e. FaultOf (read_lines file.now) e) }
{
    let mut deviations = Vec::new(heap);
    for (line, bytes) in (1..=MOST_LINES).zip(Lines::new(file)) {
        add_line(&mut deviations, line, bytes)?;
    }
    Ok(deviations)
}

/// The margin of the deviations of `file`: the first 100,000 lines are read, and each must write a number before any is judged.
pub fn judge(heap: Global, file: &[u8]) -> Result<Sample, SampleFault>
    ensures { Answer (read_lines file.now) result }
{
    let deviations = read_deviations(heap, file)?;
    let margin = margin(&deviations)?;
    Ok(Sample {
        count: deviations.len() as u32,
        margin,
    })
}
