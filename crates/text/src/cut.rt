//! Cuts a file into its lines. Each line is a part of the file, so nothing is copied.
ghost use Rattle.std.specs.Prelude.{◌≡◌, ℕ, List};
ghost use Rattle.std.specs.Iterator.{item_count};
ghost use Rattle.text.specs.Lines.{lines, HandsOut, LineCut, too_long};

use std::marker::Model;

// The most bytes that a line may have.
const LONGEST: usize = 200;

/// The lines of a file that are still to be handed out, seen as the bytes that are left.
#[derive(Drop)]
pub struct Lines<'a> {
    rest: &'a [u8],
}

impl<'a> Model for Lines<'a> {
    ghost Value = { List ℕ };

    ghost view = { λ it. it.rest.now };
}

impl<'a> Lines<'a> {
    /// All lines of `file`.
    pub fn new(file: &'a [u8]) -> Lines<'a>
        ensures { result ≡ file.now }
    {
        Lines { rest: file }
    }
}

impl<'a> Iterator for Lines<'a> {
    type Item = &'a [u8];

    ghost next_gives = { HandsOut };

    ghost remaining = { item_count lines };

    /// The next line, without the byte that ends it; none at the end of the file.
    #[tactic(auto, using(crate::proofs::LineLaws::lines_cut, crate::proofs::LineLaws::lines_empty))]
    fn next(&mut self) -> Option<&'a [u8]> {
        if self.rest.is_empty() {
            return None;
        }
        let (line, after) = first_line(self.rest);
        self.rest = after;
        Some(line)
    }
}

// The first line of `bytes`, without the byte that ends it, and what stands behind that byte.
fn first_line(bytes: &[u8]) -> (&[u8], &[u8])
    ensures { LineCut bytes.now result.0.now result.1.now }
{
    for (end, b) in bytes.iter().enumerate() {
        if *b == b'\n' {
            return (&bytes[..end], &bytes[end + 1..]);
        }
    }
    (bytes, &[])
}

/// Whether `line` has more bytes than a line may have.
pub fn too_long(line: &[u8]) -> bool
    ensures { result ≡ too_long line.now }
{
    line.len() > LONGEST
}
