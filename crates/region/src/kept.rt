//! The zones of a region with what is kept of each, and what is staged there.
ghost use Rattle.std.specs.Prelude.{◌≡◌, ◌<◌, ◌≤◌, ◌+◌, pos, neg_ℤ, ◌+ℤ◌, ◌≤ℤ◌, MatchResult};
ghost use Rattle.book.specs.Limits.{within_limit};
ghost use Rattle.book.specs.Views.{Period};
ghost use Rattle.book.specs.Grounds.{Clear};
ghost use Rattle.region.specs.Staging.{HasBorder, sum_in_all, sum_behind_border, schedule_of, uneven_in, passed_in};

use crate::ZoneTable;
use crate::table::Slot;
use book::{PERIOD_COUNT, PERIODS, RegionFault, ZoneRecord};
use zones::Tree;

/// The tree of zones, and the record of each zone and period.
#[derive(Clone, Copy)]
pub(crate) struct KeptZones {
    pub(crate) tree: Tree,
    pub(crate) table: ZoneTable,
}

// Whether the staged position lies within the limit.
fn inside(kept: &ZoneRecord) -> bool
    ensures { result ≡ within_limit kept.now.limit kept.now.staged }
{
    let staged = i64::from(kept.staged);
    match kept.limit {
        None => true,
        Some(limit) => -i64::from(limit.import) <= staged && staged <= i64::from(limit.export),
    }
}

impl KeptZones {
    // What is staged in all zones together.
    fn staged_in_all(&self, period: i32) -> i32
        requires { Period period }
        ensures { result ≡ sum_in_all self.now period }
    {
        let mut sum = 0;
        for zone in 0..self.tree.count() {
            sum += i32::from(self.table.at(Slot { zone, period }).staged);
        }
        sum
    }

    // What is staged behind a border.
    fn staged_behind(&self, border: usize, period: i32) -> i32
        requires there { HasBorder self.now border }
        requires in_day { Period period }
        ensures value { result ≡ sum_behind_border self.now border period }
        ensures range { (pos 0 ≤ℤ (result +ℤ pos 524288)) × (result ≤ℤ pos 524288) }
    {
        let mut sum = 0;
        for zone in 0..self.tree.count() {
            if self.tree.lies_behind(border, zone) {
                sum += i32::from(self.table.at(Slot { zone, period }).staged);
            }
        }
        sum
    }

    // The flow that adoption gives a border in the period after k others: minus what is staged behind it. (Proved apart from the closure
    // that calls it.)
    fn flow_for(&self, border: usize, k: usize) -> i32
        requires there { HasBorder self.now border }
        requires in_day { k < 24 }
        ensures { result ≡ neg_ℤ (sum_behind_border self.now border (pos (k + 1))) }
    {
        -self.staged_behind(border, k as i32 + 1)
    }

    // The schedule that adoption gives a border.
    pub(crate) fn schedule_for(&self, border: usize) -> [i32; PERIOD_COUNT]
        requires { HasBorder self.now border }
        ensures { result ≡ schedule_of self.now border }
    {
        std::array::from_fn(|k| self.flow_for(border, k))
    }

    // Whether the staged positions sum to 0 in every period; else the first in which they do not.
    pub(crate) fn even(&self) -> Result<(), RegionFault>
        ensures { MatchResult result (λ _. Clear (uneven_in self.now)) (uneven_in self.now) }
    {
        for period in 1..=PERIODS {
            if self.staged_in_all(period) != 0 {
                return Err(RegionFault::Uneven(period));
            }
        }
        Ok(())
    }

    // Whether every staged position lies within its zone's limit; else the first by period, then by zone, that does not.
    pub(crate) fn within_limits(&self) -> Result<(), RegionFault>
        ensures { MatchResult result (λ _. Clear (passed_in self.now)) (passed_in self.now) }
    {
        for period in 1..=PERIODS {
            for zone in 0..self.tree.count() {
                if !inside(&self.table.at(Slot { zone, period })) {
                    return Err(RegionFault::Limit {
                        zone: zone as i32,
                        period,
                    });
                }
            }
        }
        Ok(())
    }
}
