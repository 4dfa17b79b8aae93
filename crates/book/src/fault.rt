//! The grounds on which a region refuses a call.
ghost use Rattle.std.specs.Prelude.{◌≡◌};
ghost use Rattle.book.specs.Faults.{told as told_of, ground_of_lem, of_border, of_tree, unmade_told};

use borders::{BankFault, BorderFault};
use equations::Told;
use zones::TreeFault;

/// Ground 8: why no region can be made.
#[derive(Clone, Copy, PartialEq, Eq, Debug)]
pub enum MakingFault {
    /// There are not 2 to 16 zones, or not one more than borders.
    Count,
    /// The lowest zone whose parent has no smaller number.
    Parent(u8),
    /// The lowest border that has a flow.
    Flow(u8),
}

impl From<TreeFault> for MakingFault {
    ghost from_gives = { λ f r. r ≡ of_tree f };

    fn from(fault: TreeFault) -> MakingFault {
        match fault {
            TreeFault::Count => MakingFault::Count,
            TreeFault::Parent(zone) => MakingFault::Parent(zone),
        }
    }
}

impl MakingFault {
    /// The number of the ground, the place and the period.
    pub fn told(&self) -> Told
        ensures { result ≡ unmade_told self.now }
    {
        let place = match self {
            MakingFault::Count => 0,
            MakingFault::Parent(zone) => i32::from(*zone),
            MakingFault::Flow(border) => i32::from(*border),
        };
        Told {
            number: 8,
            place,
            period: 0,
        }
    }
}

/// Why a region refused a call.
#[derive(Clone, Copy, PartialEq, Eq, Debug)]
pub enum RegionFault {
    /// 2: the period, as given, is not one of the day's.
    Period(i32),
    /// 3: there is no zone or border with this number.
    Missing { number: i32, period: i32 },
    /// 4: seller and buyer are the same zone.
    SameZone { zone: i32, period: i32 },
    /// 5: an amount of MW out of its bounds, in a call for this period.
    Amount(i32),
    /// 6 for a sheet, 24 for a take or an adoption: a border's own refusal, with its number and the period.
    Border(BankFault),
    /// 20: not in this state, with the call's own period.
    State(i32),
    /// 21: a power flow before a result was adopted.
    PowerFlow { border: i32, period: i32 },
    /// 22: no deal with this number stands.
    Deal(i32),
    /// 23: the first period whose staged positions do not sum to 0.
    Uneven(i32),
    /// 25: a zone's limit is passed.
    Limit { zone: i32, period: i32 },
    /// 26: the log that the record would join is full, with the call's own period.
    Full(i32),
}

impl From<BankFault> for RegionFault {
    ghost from_gives = { λ f r. r ≡ of_border f };

    fn from(refusal: BankFault) -> RegionFault {
        RegionFault::Border(refusal)
    }
}

// The ground of a border's own refusal.
fn ground_of(cause: &BorderFault) -> u8
    ensures { result ≡ ground_of_lem cause.now }
{
    match cause {
        BorderFault::Reassess => 6,
        BorderFault::Take(_) | BorderFault::Adopt => 24,
    }
}

impl RegionFault {
    /// The number of the ground, the place and the period.
    pub fn told(&self) -> Told
        ensures { result ≡ told_of self.now }
    {
        let (number, place, period) = match self {
            RegionFault::Period(period) => (2, 0, *period),
            RegionFault::Missing { number, period } => (3, *number, *period),
            RegionFault::SameZone { zone, period } => (4, *zone, *period),
            RegionFault::Amount(period) => (5, 0, *period),
            RegionFault::Border(fault) => (
                ground_of(&fault.cause),
                i32::try_from(fault.border).unwrap_or(i32::MAX),
                fault.period,
            ),
            RegionFault::State(period) => (20, 0, *period),
            RegionFault::PowerFlow { border, period } => (21, *border, *period),
            RegionFault::Deal(number) => (22, *number, 0),
            RegionFault::Uneven(period) => (23, 0, *period),
            RegionFault::Limit { zone, period } => (25, *zone, *period),
            RegionFault::Full(period) => (26, 0, *period),
        };
        Told {
            number,
            place,
            period,
        }
    }
}
