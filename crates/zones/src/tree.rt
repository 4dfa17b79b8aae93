//! The tree of zones, its making and the questions to it.
ghost use Rattle.std.specs.Prelude.{ℕ, ◌<◌, ◌≤◌, slice_index};

mod making;
mod questions;

/// The most zones that a region has.
pub const MOST_ZONES: usize = 16;

/// The zones of a region, numbered from 0. Every zone above 0 has a parent with a smaller number; border z joins zone z and its parent.
#[derive(Clone, Copy)]
pub struct Tree {
    count: usize,
    parents: [usize; MOST_ZONES],
    ghost some: { 2 ≤ count },
    ghost few: { count ≤ 16 },
    ghost ordered: { (z : ℕ) → 1 ≤ z → slice_index parents z < z },
}

/// Ground 8: zones of which no tree can be made.
#[derive(Clone, Copy, PartialEq, Eq, Debug)]
pub enum TreeFault {
    /// There are not 2 to 16 of them.
    Count,
    /// The lowest zone whose parent has no smaller number.
    Parent(u8),
}
