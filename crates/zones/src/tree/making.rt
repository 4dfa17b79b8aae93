//! Making a tree, after a check that may refuse.
ghost use Rattle.std.specs.Prelude.{◌≡◌, ◌+◌, length, MatchResult};
ghost use Rattle.zones.specs.Trees.{Made, RefusedAs, CountAllowed, AllowedBelow, told as told_of};

use super::{MOST_ZONES, Tree, TreeFault};
use equations::Told;

impl TreeFault {
    /// The number of the ground, the place and the period.
    pub fn told(&self) -> Told
        ensures { result ≡ told_of self.now }
    {
        let place = match self {
            TreeFault::Count => 0,
            TreeFault::Parent(zone) => i32::from(*zone),
        };
        Told {
            number: 8,
            place,
            period: 0,
        }
    }
}

// Whether a tree can be made of the parents of zones 1, 2 and so on.
fn check(parents: &[usize]) -> Result<(), TreeFault>
    ensures { MatchResult result
        (λ _. CountAllowed parents.now × AllowedBelow parents.now (length parents.now + 1))
        (RefusedAs parents.now) }
{
    if !(1..MOST_ZONES).contains(&parents.len()) {
        return Err(TreeFault::Count);
    }
    for (i, parent) in parents.iter().enumerate() {
        let zone = i + 1;
        if *parent >= zone {
            return Err(TreeFault::Parent(zone as u8));
        }
    }
    Ok(())
}

impl Tree {
    /// The tree of zones 0, 1 and so on, with the parents of all but zone 0 in order. Refused with ground 8 unless there are 2 to 16 zones
    /// and every parent has a smaller number than its zone.
    pub fn new(parents: &[usize]) -> Result<Tree, TreeFault>
        ensures { Made parents.now result }
    {
        check(parents)?;
        let count = parents.len() + 1;
        let mut table = [0; MOST_ZONES];
        table[1..count].copy_from_slice(parents);
        Ok(Tree {
            count,
            parents: table,
        })
    }
}
