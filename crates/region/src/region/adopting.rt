//! The adoption of the staged positions.
ghost use Rattle.std.specs.Prelude.{◌≡◌, MatchResult};
ghost use Rattle.zones.specs.Trees.{zones, up};
ghost use Rattle.book.specs.Calls.{Adopted};
ghost use Rattle.region.specs.Staging.{AllAdmit, not_admitting_in};
ghost use Rattle.region.specs.Seen.{DidWithoutLogs, adopt_call};

use super::Region;
use book::{Answer, Call, RegionFault};
use borders::Bank;

impl<B: Bank> Region<B> {
    // Whether every border admits its schedule; else the refusal of the lowest that does not.
    fn admitted(&self) -> Result<(), RegionFault>
        ensures { MatchResult result
            (λ _. AllAdmit self.now.kept (B.Bank.borders self.now.bank))
            (not_admitting_in self.now.kept (B.Bank.borders self.now.bank)) }
    {
        for border in 1..self.kept.tree.count() {
            self.bank
                .may_adopt(border, &self.kept.schedule_for(border))?;
        }
        Ok(())
    }

    // Has every border adopt its schedule.
    fn settle(&mut self)
        requires { AllAdmit self.old.kept (B.Bank.borders self.old.bank) }
        ensures borders { Adopted (zones self.old.kept.tree) (up self.old.kept.tree) self.old.kept.table.records (B.Bank.borders self.old.bank) (B.Bank.borders self.new.bank) }
        ensures rest { (self.new.kept ≡ self.old.kept) × (self.new.state ≡ self.old.state) }
    {
        for border in 1..self.kept.tree.count() {
            let schedule = self.kept.schedule_for(border);
            self.bank.adopt(border, &schedule).unwrap();
        }
    }

    // Makes the staged positions the adopted ones.
    pub(crate) fn adopt(&mut self) -> Result<Answer, RegionFault>
        ensures { DidWithoutLogs B.Bank.borders self.old adopt_call result self.new }
    {
        let next = self.allows(&Call::Adopt, 0)?;
        self.kept.even()?;
        self.admitted()?;
        self.kept.within_limits()?;
        self.settle();
        self.state = next;
        Ok(Answer::Done)
    }
}
