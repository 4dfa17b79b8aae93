//! What a region's day is told in: states, calls, answers, records of the logs, and faults.
#![tactic(auto)]

ghost use Rattle.std.specs.Prelude.{◌≡◌};
ghost use Rattle.book.specs.Limits.{staged_anew, limited_anew};

pub mod fault;
pub mod state;

use borders::Sheet;
pub use fault::{MakingFault, RegionFault};
pub use state::State;

/// How many periods a delivery day has.
pub const PERIOD_COUNT: usize = borders::PERIODS;

/// The same as a number of a period: the last one's.
pub const PERIODS: i32 = PERIOD_COUNT as i32;

/// How much a zone may import and export in a period, in MW: its net position lies between −import and export.
#[derive(Clone, Copy, PartialEq, Eq, Debug)]
pub struct ZoneLimit {
    pub import: i32,
    pub export: i32,
}

/// What a region keeps of a zone in a period: the staged day-ahead net position (export positive), and the limit if one was given.
/// A position lies within ±30,000, which an `i16` holds.
#[derive(Clone, Copy)]
pub struct ZoneRecord {
    pub staged: i16,
    pub limit: Option<ZoneLimit>,
}

impl ZoneRecord {
    /// Stages a position; the limit stays.
    pub fn stage(&mut self, mw: i16)
        ensures { self.new ≡ staged_anew self.old mw }
    {
        self.staged = mw;
    }

    /// Gives a limit; the staged position stays.
    pub fn give_limit(&mut self, limit: ZoneLimit)
        ensures { self.new ≡ limited_anew self.old limit }
    {
        self.limit = Some(limit);
    }
}

/// A deal in the deal log, standing or cancelled.
#[derive(Clone, Copy)]
pub struct Deal {
    pub seller: i32,
    pub buyer: i32,
    pub period: i32,
    pub mw: i32,
    pub standing: bool,
}

/// An accepted sheet in the sheet log, with the border's flow when it was accepted.
#[derive(Clone, Copy, PartialEq, Eq, Debug)]
pub struct AcceptedSheet {
    pub border: i32,
    pub period: i32,
    pub flow: i32,
    pub sheet: Sheet,
}

/// A call on a region, with any numbers.
#[derive(Clone, Copy)]
pub enum Call {
    /// A new sheet for a border and period.
    Sheet {
        border: i32,
        period: i32,
        sheet: Sheet,
    },
    /// A zone's limit for a period.
    Limit {
        zone: i32,
        period: i32,
        import: i32,
        export: i32,
    },
    /// Capacities are offered to the day-ahead market.
    Offer,
    /// Stages a zone's day-ahead net position for a period.
    Position {
        zone: i32,
        period: i32,
        mw: i32,
    },
    /// The staged positions become the adopted ones.
    Adopt,
    /// The gate to intraday trade opens.
    Gate,
    /// The day ends.
    End,
    /// What may still be traded over a border in a period, and its flow.
    AskBorder {
        border: i32,
        period: i32,
    },
    /// A zone's net position and overrun in a period.
    AskZone {
        zone: i32,
        period: i32,
    },
}

/// The answer to an accepted call.
#[derive(Clone, Copy, PartialEq, Eq, Debug)]
pub enum Answer {
    Done,
    /// Available capacity forward and backward, and the flow.
    Border {
        forward: i32,
        backward: i32,
        flow: i32,
    },
    /// Net position and overrun of a zone.
    Zone {
        net: i64,
        overrun: i64,
    },
}
