//! A call on a region, with both logs.
ghost use Rattle.logs.specs.Logs.{SameMemory};
ghost use Rattle.book.specs.Calls.{CallDid};
ghost use Rattle.region.specs.Seen.{seen};

use super::Region;
use book::{AcceptedSheet, Answer, Call, Deal, RegionFault};
use borders::Bank;
use logs::Log;

impl<B: Bank> Region<B> {
    /// Makes a call. It is refused exactly if one of its grounds holds, with the first of them, and then nothing is altered.
    pub fn call(
        &mut self,
        deals: &mut Log<Deal>,
        sheets: &mut Log<AcceptedSheet>,
        call: Call,
    ) -> Result<Answer, RegionFault>
        ensures did { CallDid (seen B.Bank.borders self.old deals.old sheets.old) call result (seen B.Bank.borders self.new deals.new sheets.new) }
        ensures deals { SameMemory deals.old deals.new }
        ensures sheets { SameMemory sheets.old sheets.new }
    {
        match call {
            Call::Sheet {
                border,
                period,
                sheet,
            } => self.sheet(sheets, border, period, sheet),
            Call::Limit {
                zone,
                period,
                import,
                export,
            } => self.limit(zone, period, import, export),
            Call::Position { zone, period, mw } => self.position(zone, period, mw),
            Call::Adopt => self.adopt(),
            Call::Offer | Call::Gate | Call::End => self.move_on(call),
            Call::AskBorder { border, period } => self.ask_border(border, period),
            Call::AskZone { zone, period } => self.ask_zone(zone, period),
        }
    }
}
