// What asks tell.
use crate::setting::{Day, STATES, blank_deal, blank_sheet, sheet, small};
use book::{AcceptedSheet, Answer, Call, RegionFault, State};
use std::process::Abort;
use std::test::Fail;

// Both capacities and the flow of a border, as they are told.
fn border(forward: i32, backward: i32, flow: i32) -> Answer {
    Answer::Border {
        forward,
        backward,
        flow,
    }
}

// What is told of the cable in a state, after a sheet of 500 forward and 400 backward.
fn capacity(rt: &impl Abort, state: State) -> Result<Result<Answer, RegionFault>, Fail> {
    let mut deals = [blank_deal(); 1];
    let mut sheets = [blank_sheet(); 1];
    let mut day = Day::new(small()?, &mut deals, &mut sheets);
    let mut figures = sheet(500, 500, 0);
    figures.backward.second = 400;
    let call = Call::Sheet {
        border: 1,
        period: 5,
        sheet: figures,
    };
    day.accepted(rt, &[call]);
    day.bring(rt, state);
    Ok(day.of_border(1))
}

#[test]
fn capacities_in_each_state(rt: HostRuntime) -> Result<(), Fail> {
    let wide = border(500, 400, 0);
    let none = border(0, 0, 0);
    let expected = [wide, wide, wide, none, wide, none];
    for (state, expected) in STATES.iter().zip(&expected) {
        assert_eq!(rt; capacity(&rt, *state)?, Ok(*expected));
    }
    Ok(())
}

#[test]
fn a_day_with_a_derating(rt: HostRuntime) -> Result<(), Fail> {
    let mut deals = [blank_deal(); 1];
    let mut sheets = [blank_sheet(); 3];
    let mut day = Day::new(small()?, &mut deals, &mut sheets);
    let calls = [
        Call::Sheet {
            border: 1,
            period: 5,
            sheet: sheet(500, 500, 0),
        },
        Call::Sheet {
            border: 2,
            period: 5,
            sheet: sheet(500, 500, 0),
        },
        Call::Offer,
        Call::Position {
            zone: 0,
            period: 5,
            mw: 400,
        },
        Call::Position {
            zone: 2,
            period: 5,
            mw: -400,
        },
        Call::Adopt,
        Call::Sheet {
            border: 1,
            period: 5,
            sheet: sheet(300, 300, 0),
        },
        Call::Limit {
            zone: 2,
            period: 5,
            import: 350,
            export: 0,
        },
    ];
    day.accepted(&rt, &calls);
    for (number, expected) in [(1, border(0, 700, 400)), (2, border(100, 900, 400))] {
        assert_eq!(rt; day.of_border(number), Ok(expected));
    }
    for (zone, net, overrun) in [(0, 400, 0), (1, 0, 0), (2, -400, 50)] {
        assert_eq!(rt; day.of_zone(zone), Ok(Answer::Zone { net, overrun }));
    }
    let logged = [
        (1, 1, 0, sheet(500, 500, 0)),
        (2, 2, 0, sheet(500, 500, 0)),
        (3, 1, 400, sheet(300, 300, 0)),
    ];
    for (number, border, flow, sheet) in logged {
        let entry = AcceptedSheet {
            border,
            period: 5,
            flow,
            sheet,
        };
        assert_eq!(rt; day.sheets.read(number), Some(entry));
    }
    assert_eq!(rt; day.counts(), (0, 3));
    Ok(())
}
