//! The calls that touch neither borders nor logs.
ghost use Rattle.region.specs.Seen.{DidWithoutLogs, MovedWithoutLogs, limit_call, position_call};

use super::Region;
use super::judging::{judged_limit, judged_position};
use book::{Answer, Call, RegionFault};
use borders::Bank;

impl<B: Bank> Region<B> {
    // Sets a zone's limit for a period.
    pub(crate) fn limit(
        &mut self,
        zone: i32,
        period: i32,
        import: i32,
        export: i32,
    ) -> Result<Answer, RegionFault>
        ensures { DidWithoutLogs B.Bank.borders self.old (limit_call zone period import export) result self.new }
    {
        let slot = self.zone(zone, period)?;
        let limit = judged_limit(import, export, period)?;
        let call = Call::Limit {
            zone,
            period,
            import,
            export,
        };
        self.allows(&call, period)?;
        self.kept
            .table
            .change(slot, |record| record.give_limit(limit));
        Ok(Answer::Done)
    }

    // Stages a zone's day-ahead net position for a period.
    pub(crate) fn position(
        &mut self,
        zone: i32,
        period: i32,
        mw: i32,
    ) -> Result<Answer, RegionFault>
        ensures { DidWithoutLogs B.Bank.borders self.old (position_call zone period mw) result self.new }
    {
        let slot = self.zone(zone, period)?;
        let staged = judged_position(mw, period)?;
        let call = Call::Position { zone, period, mw };
        self.allows(&call, period)?;
        self.kept.table.change(slot, |record| record.stage(staged));
        Ok(Answer::Done)
    }

    // Moves on to the state after a call that does nothing else.
    pub(crate) fn move_on(&mut self, call: Call) -> Result<Answer, RegionFault>
        ensures { MovedWithoutLogs B.Bank.borders self.old call result self.new }
    {
        self.state = self.allows(&call, 0)?;
        Ok(Answer::Done)
    }
}
