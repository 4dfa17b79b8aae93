// A small region to try calls on: zones 0, 1 and 2 in a row, a cable between 0 and 1, a line between 1 and 2.
use book::{AcceptedSheet, Answer, Call, Deal, RegionFault, State};
use borders::{NoBorders, Pair, Sheet};
use equations::{Side, Told};
use kinds::{Cable, Line, Made, Sheeted};
use logs::Log;
use region::Region;
use std::process::Abort;
use std::test::Fail;

pub type Small = Region<Pair<Sheeted<Cable>, Pair<Sheeted<Line>, NoBorders>>>;

pub const STATES: [State; 6] = [
    State::Drafting,
    State::Offered,
    State::Matched,
    State::Waiting,
    State::Trading,
    State::Closed,
];

pub(crate) fn small() -> Result<Small, Fail> {
    let line = Pair {
        first: Sheeted::<Line>::make(),
        rest: NoBorders,
    };
    let bank = Pair {
        first: Sheeted::<Cable>::make(),
        rest: line,
    };
    Region::new(&[0, 1], bank).map_err(|_| Fail::new("region refused"))
}

// A sheet with these figures both ways.
pub(crate) fn sheet(first: i32, second: i32, power_flow: i32) -> Sheet {
    let side = Side {
        first,
        second,
        margin: 0,
        reserve: 0,
    };
    Sheet {
        forward: side,
        backward: side,
        power_flow,
        circuits: 0,
    }
}

pub(crate) fn blank_deal() -> Deal {
    Deal {
        seller: 0,
        buyer: 0,
        period: 0,
        mw: 0,
        standing: false,
    }
}

pub(crate) fn blank_sheet() -> AcceptedSheet {
    AcceptedSheet {
        border: 0,
        period: 0,
        flow: 0,
        sheet: sheet(0, 0, 0),
    }
}

// What a refusal tells: the number of its ground, the place and the period.
pub(crate) fn tells(number: u8, place: i32, period: i32) -> Option<Told> {
    Some(Told {
        number,
        place,
        period,
    })
}

// The small region and both its logs.
#[derive(Drop)]
pub(crate) struct Day<'a> {
    region: Small,
    deals: Log<'a, Deal>,
    pub(crate) sheets: Log<'a, AcceptedSheet>,
}

impl<'a> Day<'a> {
    // A new day of a region, with logs in the memory given.
    pub(crate) fn new(
        region: Small,
        deals: &'a mut [Deal],
        sheets: &'a mut [AcceptedSheet],
    ) -> Day<'a> {
        Day {
            region,
            deals: Log::new(deals),
            sheets: Log::new(sheets),
        }
    }

    // Makes a call, and gives what its refusal tells; none if it is accepted.
    pub(crate) fn told(&mut self, call: Call) -> Option<Told> {
        let answer = self.region.call(&mut self.deals, &mut self.sheets, call);
        answer.err().map(|fault| fault.told())
    }

    // Makes calls that are all accepted.
    pub(crate) fn accepted(&mut self, rt: &impl Abort, calls: &[Call]) {
        for call in calls {
            assert_eq!(rt; self.told(*call), None);
        }
    }

    // Brings a new day to a state.
    pub(crate) fn bring(&mut self, rt: &impl Abort, state: State) {
        let calls: &[Call] = match state {
            State::Drafting => &[],
            State::Offered => &[Call::Offer],
            State::Matched => &[Call::Offer, Call::Adopt],
            State::Waiting => &[Call::Offer, Call::Gate],
            State::Trading => &[Call::Offer, Call::Gate, Call::Adopt],
            State::Closed => &[Call::Offer, Call::Gate, Call::End],
        };
        self.accepted(rt, calls);
    }

    // What is told of a border in period 5.
    pub(crate) fn of_border(&self, border: i32) -> Result<Answer, RegionFault> {
        self.region.ask_border(border, 5)
    }

    // What is told of a zone in period 5.
    pub(crate) fn of_zone(&self, zone: i32) -> Result<Answer, RegionFault> {
        self.region.ask_zone(zone, 5)
    }

    // How many deals and sheets the logs hold.
    pub(crate) fn counts(&self) -> (usize, usize) {
        (self.deals.count(), self.sheets.count())
    }
}

// What a call tells that is made on a new region in a state.
pub(crate) fn in_state(rt: &impl Abort, state: State, call: Call) -> Result<Option<Told>, Fail> {
    let mut deals = [blank_deal(); 1];
    let mut sheets = [blank_sheet(); 1];
    let mut day = Day::new(small()?, &mut deals, &mut sheets);
    day.bring(rt, state);
    Ok(day.told(call))
}
