//! The line of text that answers a file.
ghost use Rattle.std.specs.Prelude.{IfOk, string_bytes};
ghost use Rattle.margin_file.specs.Texts.{AnswerLine};

use crate::{SampleFault, judge};
use std::alloc::{AllocError, Global};

/// The line that answers `file`, with the byte that ends it.
pub fn answer(heap: Global, file: &[u8]) -> Result<String, AllocError>
    ensures { IfOk result (λ text. AnswerLine file.now (string_bytes text)) }
{
    match judge(heap, file) {
        Ok(sample) => format!(in heap; "{sample}\n"),
        Err(SampleFault::Memory) => Err(AllocError),
        Err(fault) => format!(in heap; "{fault}\n"),
    }
}
