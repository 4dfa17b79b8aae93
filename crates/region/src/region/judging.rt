//! What is judged before a call is made.
ghost use Rattle.std.specs.Prelude.{◌≡◌, ◌<◌, [], ◌∷◌, Some, None, MatchOption, MatchResult, unsigned_abs};
ghost use Rattle.zones.specs.Trees.{zones};
ghost use Rattle.book.specs.Limits.{LimitAllowed, PositionAllowed};
ghost use Rattle.book.specs.States.{state_after};
ghost use Rattle.book.specs.Views.{Period, Zone, Border};
ghost use Rattle.book.specs.Grounds.{FirstHolds, no_period, no_zone, no_border, bad_amount};
ghost use Rattle.book.specs.Faults.{of_state};
ghost use Rattle.region.specs.Seen.{limit_with};

use super::Region;
use crate::table::Slot;
use book::{Call, PERIODS, RegionFault, State, ZoneLimit};
use borders::Bank;

// Whether a period is one of the day's; else its refusal.
fn judge_period(period: i32) -> Result<(), RegionFault>
    ensures { MatchResult result (λ _. Period period) (no_period period) }
{
    if (1..=PERIODS).contains(&period) {
        Ok(())
    } else {
        Err(RegionFault::Period(period))
    }
}

// The number as an index, if it is one below the count.
fn index(number: i32, count: usize) -> Option<usize>
    ensures { MatchOption result (Zone count number → ⊥) (λ k. Zone count number × (k ≡ unsigned_abs number) × (k < count)) }
{
    usize::try_from(number).ok().filter(|k| *k < count)
}

// The limit of an import and an export, if both are allowed; else its refusal.
pub(crate) fn judged_limit(import: i32, export: i32, period: i32) -> Result<ZoneLimit, RegionFault>
    ensures { MatchResult result
        (λ l. (LimitAllowed import × LimitAllowed export) × (l ≡ limit_with import export))
        (bad_amount (LimitAllowed import × LimitAllowed export) period) }
{
    let allowed = 0..=30_000;
    if allowed.contains(&import) && allowed.contains(&export) {
        Ok(ZoneLimit { import, export })
    } else {
        Err(RegionFault::Amount(period))
    }
}

// A position as it is staged, if it is allowed; else its refusal.
pub(crate) fn judged_position(mw: i32, period: i32) -> Result<i16, RegionFault>
    ensures { MatchResult result (λ x. PositionAllowed mw × (x ≡ mw)) (bad_amount (PositionAllowed mw) period) }
{
    i16::try_from(mw)
        .ok()
        .filter(|mw| (-30_000..=30_000).contains(mw))
        .ok_or(RegionFault::Amount(period))
}

impl<B: Bank> Region<B> {
    // The zone with a number, in a period of the day.
    pub(crate) fn zone(&self, zone: i32, period: i32) -> Result<Slot, RegionFault>
        ensures { MatchResult result
            (λ k. Period period × Zone (zones self.now.kept.tree) zone × (k.zone ≡ unsigned_abs zone) × (k.zone < zones self.now.kept.tree) × (k.period ≡ period))
            (FirstHolds (no_period period ∷ no_zone (zones self.now.kept.tree) zone period ∷ [])) }
    {
        judge_period(period)?;
        let missing = RegionFault::Missing {
            number: zone,
            period,
        };
        let zone = index(zone, self.kept.tree.count()).ok_or(missing)?;
        Ok(Slot { zone, period })
    }

    // The border with a number, in a period of the day.
    pub(crate) fn border(&self, border: i32, period: i32) -> Result<usize, RegionFault>
        ensures { MatchResult result
            (λ k. Period period × Border (zones self.now.kept.tree) border × (k ≡ unsigned_abs border) × (k < zones self.now.kept.tree))
            (FirstHolds (no_period period ∷ no_border (zones self.now.kept.tree) border period ∷ [])) }
    {
        judge_period(period)?;
        let missing = RegionFault::Missing {
            number: border,
            period,
        };
        index(border, self.kept.tree.count())
            .filter(|k| *k > 0)
            .ok_or(missing)
    }

    // The state after a call, if this one allows it.
    pub(crate) fn allows(&self, call: &Call, period: i32) -> Result<State, RegionFault>
        ensures { MatchResult result
            (λ s. state_after self.now.state call.now ≡ Some s)
            (λ f. (state_after self.now.state call.now ≡ None) × (f ≡ of_state period)) }
    {
        self.state.after(call).ok_or(RegionFault::State(period))
    }
}
