// Borders at the edges of their ranges and of their day.
use crate::shut::Shut;
use borders::{Bank, BankFault, Border, BorderFault, NoBorders, Over, Pair, Ramp, Sheet};
use equations::Direction::{Backward, Forward};
use equations::Side;
use kinds::{Cable, Given, Line, Made, Settlement, Sheeted};
use std::test::Fail;

// One side's figures, the power flow and the circuits of a sheet with equal sides, and whether it passes for a cable, a settlement border, a line and a given one.
#[derive(Drop)]
struct Row(i32, i32, i32, i32, i32, i32, [bool; 4]);

fn sheet(first: i32, second: i32) -> Sheet {
    let side = Side {
        first,
        second,
        margin: 0,
        reserve: 0,
    };
    Sheet {
        forward: side,
        backward: side,
        power_flow: 0,
        circuits: 0,
    }
}

#[test]
fn tests_of_sheets(rt: HostRuntime) {
    let no = [false, false, false, false];
    let line_only = [false, false, true, false];
    let table = [
        Row(0, 0, 0, 0, 0, 0, [true, false, true, true]),
        Row(20_000, 20_000, 0, 0, 0, 0, [true, false, true, false]),
        Row(20_000, 0, 0, 0, 0, 0, [true, false, true, true]),
        Row(20_001, 0, 0, 0, 0, 0, no),
        Row(0, 20_001, 0, 0, 0, 0, no),
        Row(-1, 0, 0, 0, 0, 0, no),
        Row(20_000, 20_000, 0, 0, 0, 1, [false, true, false, false]),
        Row(0, 0, 0, 0, 0, 2, [false, true, false, false]),
        Row(0, 0, 0, 0, 0, 3, no),
        Row(0, 0, 2_000, 0, 0, 0, line_only),
        Row(0, 0, 2_001, 0, 0, 0, no),
        Row(0, 0, 0, 20_000, 0, 0, line_only),
        Row(0, 0, 0, 20_001, 0, 0, no),
        Row(0, 0, 0, 0, 20_000, 0, line_only),
        Row(0, 0, 0, 0, -20_001, 0, no),
        Row(20_000, 20_000, 0, 0, -10_000, 0, line_only),
        Row(20_000, 20_000, 0, 0, -10_001, 0, no),
        Row(20_000, 20_000, 0, 0, 10_000, 0, line_only),
        Row(20_000, 20_000, 0, 0, 10_001, 0, no),
    ];
    let cable = Sheeted::<Cable>::make();
    let settlement = Sheeted::<Settlement>::make();
    let wire = Sheeted::<Line>::make();
    let given = Sheeted::<Given>::make();
    for Row(first, second, margin, reserve, power_flow, circuits, passes) in table {
        let side = Side {
            first,
            second,
            margin,
            reserve,
        };
        let s = Sheet {
            forward: side,
            backward: side,
            power_flow,
            circuits,
        };
        for period in [1, 24] {
            assert_eq!(rt; cable.passes(&s, period), passes[0]);
            assert_eq!(rt; settlement.passes(&s, period), passes[1]);
            assert_eq!(rt; wire.passes(&s, period), passes[2]);
            assert_eq!(rt; given.passes(&s, period), passes[3]);
        }
        for period in [0, 25] {
            assert!(rt; !cable.passes(&s, period));
        }
    }
}

// A given border with limits of 20,000 both ways in every period.
fn wide() -> Result<Sheeted<Given>, Fail> {
    let mut border = Sheeted::<Given>::make();
    for period in 1..25 {
        border.reassess(&sheet(20_000, 0), period)?;
    }
    Ok(border)
}

#[test]
fn ramp_at_the_ends_of_the_day(rt: HostRuntime) -> Result<(), Fail> {
    let mut border = Ramp::new(100, wide()?).map_err(|_| Fail::new("rate refused"))?;
    let takes = [
        (0, 1, Err(BorderFault::Take(0))),
        (25, -1, Err(BorderFault::Take(0))),
        (1, 101, Err(BorderFault::Take(100))),
        (1, 100, Ok(())),
        (1, 1, Err(BorderFault::Take(0))),
        (24, -101, Err(BorderFault::Take(100))),
        (24, -100, Ok(())),
        (2, -1, Err(BorderFault::Take(0))),
        (23, 1, Err(BorderFault::Take(0))),
    ];
    for (period, m, answer) in takes {
        assert_eq!(rt; border.take(period, m), answer);
    }
    let margins = [
        (1, 0, 200),
        (2, 100, 0),
        (3, 100, 100),
        (23, 0, 100),
        (24, 200, 0),
    ];
    for (period, forward, backward) in margins {
        assert_eq!(rt; border.margin(Forward, period), forward);
        assert_eq!(rt; border.margin(Backward, period), backward);
    }
    Ok(())
}

#[test]
fn overrun_after_a_derating(rt: HostRuntime) -> Result<(), Fail> {
    let mut cable = Sheeted::<Cable>::make();
    let mut less = sheet(500, 500);
    cable.reassess(&less, 3)?;
    cable.take(3, 400)?;
    less.forward.first = 300;
    cable.reassess(&less, 3)?;
    let takes = [
        (1, Err(BorderFault::Take(-100))),
        (-901, Err(BorderFault::Take(900))),
        (0, Err(BorderFault::Take(-100))),
        (-50, Ok(())),
    ];
    for (m, answer) in takes {
        assert_eq!(rt; cable.take(3, m), answer);
    }
    assert_eq!(rt; cable.margin(Forward, 3), -50);
    assert_eq!(rt; cable.margin(Backward, 3), 850);
    Ok(())
}

#[test]
fn ramp_over_a_ramp(rt: HostRuntime) -> Result<(), Fail> {
    for (lower, upper) in [(50, 100), (100, 50)] {
        let ramp = Ramp::new(lower, wide()?).map_err(|_| Fail::new("rate refused"))?;
        let mut border = Ramp::new(upper, ramp).map_err(|_| Fail::new("rate refused"))?;
        assert_eq!(rt; border.take(12, 51), Err(BorderFault::Take(50)));
        border.take(12, 50)?;
        assert_eq!(rt; border.margin(Backward, 11), 0);
    }
    for rate in [0, 20_001] {
        let Err(refused) = Ramp::new(rate, Shut) else {
            return Err(Fail::new("rate taken"));
        };
        assert_eq!(rt; refused.told().number, 8);
    }
    Ok(())
}

#[test]
fn limits_follow_the_sheet(rt: HostRuntime) -> Result<(), Fail> {
    let mut settlement = Sheeted::<Settlement>::make();
    let mut s = sheet(500, 500);
    s.circuits = 1;
    settlement.reassess(&s, 24)?;
    assert_eq!(rt; settlement.margin(Forward, 24), 485);
    assert_eq!(rt; settlement.margin(Backward, 24), 492);
    let mut line = Sheeted::<Line>::make();
    let side = Side {
        first: 700,
        second: 1_000,
        margin: 60,
        reserve: 247,
    };
    let mut now = Sheet {
        forward: side,
        backward: side,
        power_flow: 0,
        circuits: 0,
    };
    line.reassess(&now, 1)?;
    line.take(1, 300)?;
    // in the direction of the flow 537 of 887 - 350 and 887 - 300 + 60, against it 887 + 350
    now.power_flow = 350;
    line.reassess(&now, 1)?;
    assert_eq!(rt; line.margin(Forward, 1), 537);
    assert_eq!(rt; line.margin(Backward, 1), 1_237);
    Ok(())
}

#[test]
fn borders_of_different_makes(rt: HostRuntime) -> Result<(), Fail> {
    let shut = Ramp::new(1, Shut).map_err(|_| Fail::new("rate refused"))?;
    let mut bank = Pair {
        first: shut,
        rest: Pair {
            first: wide()?,
            rest: NoBorders,
        },
    };
    assert_eq!(rt; bank.count(), 2);
    for (border, answer) in [(0, 0), (1, 0), (2, 20_000), (3, 0)] {
        let fault = BankFault {
            border,
            period: 7,
            cause: BorderFault::Take(answer),
        };
        assert_eq!(rt; bank.take(border, 7, 20_001), Err(fault));
    }
    assert!(rt; bank.take(2, 7, 20_000).is_ok());
    assert_eq!(rt; bank.flow(2, 7), 20_000);
    Ok(())
}
