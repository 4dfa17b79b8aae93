//! A new sheet for a border and period.
ghost use Rattle.std.specs.Prelude.{◌≡◌, IsTrue, ◌↔◌};
ghost use Rattle.logs.specs.declared.Log.{Log as LogOf};
ghost use Rattle.logs.specs.Logs.{SameMemory};
ghost use Rattle.book.specs.declared.Deal.{Deal as DealOf};
ghost use Rattle.book.specs.Grounds.{FlowsEarly};
ghost use Rattle.book.specs.Calls.{CallDid};
ghost use Rattle.region.specs.Seen.{seen, sheet_call};

use super::Region;
use book::{AcceptedSheet, Answer, Call, RegionFault, State};
use borders::{Bank, Sheet};
use logs::Log;

// Whether a sheet has a power flow though no result has been adopted.
fn flows_early(sheet: &Sheet, state: State) -> bool
    ensures { IsTrue result ↔ FlowsEarly sheet.now state }
{
    sheet.power_flow != 0 && !state.has_result()
}

impl<B: Bank> Region<B> {
    // Has a border reassess, and enters the sheet in the log with the flow then.
    pub(crate) fn sheet(
        &mut self,
        sheets: &mut Log<AcceptedSheet>,
        border: i32,
        period: i32,
        sheet: Sheet,
    ) -> Result<Answer, RegionFault>
        ensures did { (deals : LogOf DealOf) → CallDid (seen B.Bank.borders self.old deals sheets.old) (sheet_call border period sheet) result (seen B.Bank.borders self.new deals sheets.new) }
        ensures lent { SameMemory sheets.old sheets.new }
    {
        let at = self.border(border, period)?;
        self.bank.may_reassess(at, &sheet, period)?;
        let call = Call::Sheet {
            border,
            period,
            sheet,
        };
        self.allows(&call, period)?;
        if flows_early(&sheet, self.state) {
            return Err(RegionFault::PowerFlow { border, period });
        }
        let flow = self.bank.flow(at, period);
        let accepted = AcceptedSheet {
            border,
            period,
            flow,
            sheet,
        };
        sheets
            .enter(accepted)
            .map_err(|_| RegionFault::Full(period))?;
        // the border said that it would accept the sheet, so it does
        self.bank.reassess(at, &sheet, period).unwrap();
        Ok(Answer::Done)
    }
}
