//! The one make of our kinds: a border whose limits follow the last sheet accepted for each period.
ghost use Rattle.std.specs.Prelude.{◌≡◌, true, length, MatchOption};
ghost use Rattle.equations.specs.Ranges.{Near};
ghost use Rattle.borders.specs.Day.{Period, place, Within};
ghost use Rattle.kinds.specs.Sheets.{lowers, uppers, stated_by, sheeted, idle};

use crate::Kind;
use crate::limits::Limits;
pub use borders::PERIODS;
use borders::{Border, BorderFault, Sheet};
use equations::Direction;

/// A border of a kind: its schedule, and the limits of each period.
#[derive(Drop)]
pub struct Sheeted<K> {
    kind: K,
    flows: [i32; PERIODS],
    limits: [Limits; PERIODS],
    ghost long: { length flows ≡ 24 },
    ghost rows: { length limits ≡ 24 },
    ghost within: { Within flows },
}

// Where the figures of a period stand.
fn slot(period: i32) -> Option<usize>
    ensures { MatchOption result (Period 24 period → ⊥) (λ k. Period 24 period × (k ≡ place period)) }
{
    let k = usize::try_from(period).ok()?.checked_sub(1)?;
    (k < PERIODS).then_some(k)
}

impl<K: Kind> Sheeted<K> {
    /// A border of a kind with flows and limits 0.
    pub fn new(kind: K) -> Self
        ensures { sheeted (stated_by K.Kind.test K.Kind.lowest K.Kind.highest) result.flows (lowers result.limits) (uppers result.limits) ≡ sheeted (stated_by K.Kind.test K.Kind.lowest K.Kind.highest) idle idle idle }
    {
        let none = Limits { lower: 0, upper: 0 };
        Sheeted {
            kind,
            flows: [0; PERIODS],
            limits: [none; PERIODS],
        }
    }

    // The limits that a sheet gives which passes at a flow.
    fn limits_by(&self, sheet: &Sheet, flow: i32) -> Limits
        requires near { Near 30000 flow }
        requires passes { K.Kind.test sheet.now flow ≡ true }
        ensures lower { result.lower ≡ K.Kind.lowest sheet.now flow }
        ensures upper { result.upper ≡ K.Kind.highest sheet.now flow }
    {
        Limits {
            lower: self.kind.limit(Direction::Backward, sheet, flow) as i32,
            upper: self.kind.limit(Direction::Forward, sheet, flow) as i32,
        }
    }
}

impl<K: Kind> Border for Sheeted<K> {
    ghost use Rattle.kinds.specs.SheetedLaws.{kept_of, sheeted_known};

    ghost meaning = { λ b. sheeted (stated_by K.Kind.test K.Kind.lowest K.Kind.highest) b.flows (lowers b.limits) (uppers b.limits) };

    ghost known = { λ b. sheeted_known (stated_by K.Kind.test K.Kind.lowest K.Kind.highest) b.flows (lowers b.limits) (uppers b.limits) (kept_of b) };

    fn periods(&self) -> i32 {
        PERIODS as i32
    }

    fn flow(&self, period: i32) -> i32 {
        match slot(period) {
            Some(k) => self.flows[k],
            None => 0,
        }
    }

    fn margin(&self, direction: Direction, period: i32) -> i32 {
        match slot(period) {
            Some(k) => self.limits[k].margin(direction, self.flows[k]),
            None => 0,
        }
    }

    fn passes(&self, sheet: &Sheet, period: i32) -> bool {
        match slot(period) {
            Some(k) => self.kind.accepts(sheet, self.flows[k]),
            None => false,
        }
    }

    fn admits(&self, schedule: &[i32]) -> bool {
        schedule.len() == PERIODS
            && schedule
                .iter()
                .zip(&self.limits)
                .all(|(flow, limits)| limits.admit(*flow))
    }

    fn take(&mut self, period: i32, m: i32) -> Result<(), BorderFault> {
        // a move that can be taken is one of a period of the day
        self.may_take(period, m)?;
        let k = slot(period).unwrap();
        self.flows[k] += m;
        Ok(())
    }

    fn adopt(&mut self, schedule: &[i32]) -> Result<(), BorderFault> {
        if !self.admits(schedule) {
            return Err(BorderFault::Adopt);
        }
        self.flows.copy_from_slice(schedule);
        Ok(())
    }

    fn reassess(&mut self, sheet: &Sheet, period: i32) -> Result<(), BorderFault> {
        let Some(k) = slot(period) else {
            return Err(BorderFault::Reassess);
        };
        let flow = self.flows[k];
        if !self.kind.accepts(sheet, flow) {
            return Err(BorderFault::Reassess);
        }
        self.limits[k] = self.limits_by(sheet, flow);
        Ok(())
    }
}
