//! Making a region.
ghost use Rattle.std.specs.Prelude.{◌≡◌, ℕ, ◌+◌, length, MatchResult};
ghost use Rattle.logs.specs.declared.Log.{Log as LogOf};
ghost use Rattle.book.specs.declared.Deal.{Deal as DealOf};
ghost use Rattle.book.specs.declared.AcceptedSheet.{AcceptedSheet as SheetOf};
ghost use Rattle.zones.specs.Trees.{zones, up, parent_in};
ghost use Rattle.borders.specs.Bank.{border_at};
ghost use Rattle.book.specs.Making.{Fit, UnfitAs, FlowTold, as_made};
ghost use Rattle.region.specs.Seen.{seen, logged};

use super::Region;
use crate::ZoneTable;
use crate::kept::KeptZones;
use book::{MakingFault, PERIODS, State};
use borders::Bank;
use zones::Tree;

/// The refusal of a region, with the bank that it was to be made of.
#[derive(Drop)]
pub struct Unmade<B> {
    pub bank: B,
    pub fault: MakingFault,
}

// Whether a border has a flow in some period.
fn has_flow<B: Bank>(bank: &B, border: usize) -> bool
    ensures { FlowTold result (border_at (B.Bank.borders bank.now) border) }
{
    (1..=PERIODS).any(|period| bank.flow(border, period) != 0)
}

// The tree of the zones with these parents, if they and the bank fit together.
fn fit<B: Bank>(parents: &[usize], bank: &B) -> Result<Tree, MakingFault>
    ensures { MatchResult result
        (λ t. Fit parents.now (B.Bank.borders bank.now) × (zones t ≡ length parents.now + 1) × ((z : ℕ) → up t z ≡ parent_in parents.now z))
        (UnfitAs parents.now (B.Bank.borders bank.now)) }
{
    if parents.len() != bank.count() {
        return Err(MakingFault::Count);
    }
    let tree = Tree::new(parents)?;
    match (1..tree.count()).find(|border| has_flow(bank, *border)) {
        None => Ok(tree),
        Some(border) => Err(MakingFault::Flow(border as u8)),
    }
}

impl<B: Bank> Region<B> {
    /// A region of the zones 0, 1 and so on, with the parents of all but zone 0 in order and a border for each of them, none with a flow.
    /// It begins in `Drafting`, without limits and with all staged positions 0. Refused with ground 8; the bank then comes back.
    pub fn new(parents: &[usize], bank: B) -> Result<Region<B>, Unmade<B>>
        ensures { MatchResult result
            (λ x. Fit parents.now (B.Bank.borders bank) × ((deals : LogOf DealOf) (sheets : LogOf SheetOf) → seen B.Bank.borders x deals sheets ≡ as_made parents.now (B.Bank.borders bank) (logged deals) (logged sheets)))
            (λ e. UnfitAs parents.now (B.Bank.borders bank) e.fault × (e.bank ≡ bank)) }
    {
        let tree = match fit(parents, &bank) {
            Ok(tree) => tree,
            Err(fault) => return Err(Unmade { bank, fault }),
        };
        Ok(Region {
            kept: KeptZones {
                tree,
                table: ZoneTable::new(),
            },
            bank,
            state: State::Drafting,
        })
    }
}
