// Every ground that these calls have, in every state.
use crate::setting::{Day, STATES, blank_deal, blank_sheet, in_state, sheet, small, tells};
use book::{Call, State};
use equations::Told;
use std::process::Abort;
use std::test::Fail;

#[test]
fn calls_by_state(rt: HostRuntime) -> Result<(), Fail> {
    let yes = true;
    let no = false;
    // whether the call is allowed in Drafting, Offered, Matched, Waiting, Trading and Closed, and the period that its refusal tells
    let table = [
        (
            Call::Sheet {
                border: 1,
                period: 5,
                sheet: sheet(500, 500, 0),
            },
            [yes, no, yes, yes, yes, no],
            5,
        ),
        (
            Call::Limit {
                zone: 2,
                period: 24,
                import: 0,
                export: 30_000,
            },
            [yes, no, yes, yes, yes, no],
            24,
        ),
        (Call::Offer, [yes, no, no, no, no, no], 0),
        (
            Call::Position {
                zone: 0,
                period: 1,
                mw: -30_000,
            },
            [no, yes, no, yes, no, no],
            1,
        ),
        (Call::Adopt, [no, yes, no, yes, no, no], 0),
        (Call::Gate, [no, yes, yes, no, no, no], 0),
        (Call::End, [no, no, no, yes, yes, no], 0),
        (
            Call::AskBorder {
                border: 2,
                period: 24,
            },
            [yes, yes, yes, yes, yes, yes],
            0,
        ),
        (
            Call::AskZone { zone: 0, period: 1 },
            [yes, yes, yes, yes, yes, yes],
            0,
        ),
    ];
    for (call, allowed, period) in table {
        for (state, allowed) in STATES.iter().zip(&allowed) {
            let expected = if *allowed { None } else { tells(20, 0, period) };
            assert_eq!(rt; in_state(&rt, *state, call)?, expected);
        }
    }
    Ok(())
}

#[test]
fn grounds_of_the_input(rt: HostRuntime) -> Result<(), Fail> {
    let table = [
        (
            Call::Sheet {
                border: 0,
                period: 25,
                sheet: sheet(-1, 0, 0),
            },
            tells(2, 0, 25),
        ),
        (
            Call::Sheet {
                border: 0,
                period: 1,
                sheet: sheet(-1, 0, 0),
            },
            tells(3, 0, 1),
        ),
        (
            Call::Sheet {
                border: 3,
                period: 24,
                sheet: sheet(0, 0, 0),
            },
            tells(3, 3, 24),
        ),
        (
            Call::Sheet {
                border: 2,
                period: 24,
                sheet: sheet(20_001, 0, 5),
            },
            tells(6, 2, 24),
        ),
        (
            Call::Limit {
                zone: 3,
                period: 0,
                import: -1,
                export: 0,
            },
            tells(2, 0, 0),
        ),
        (
            Call::Limit {
                zone: 3,
                period: 1,
                import: -1,
                export: 0,
            },
            tells(3, 3, 1),
        ),
        (
            Call::Limit {
                zone: 2,
                period: 7,
                import: -1,
                export: 0,
            },
            tells(5, 0, 7),
        ),
        (
            Call::Limit {
                zone: 2,
                period: 7,
                import: 0,
                export: 30_001,
            },
            tells(5, 0, 7),
        ),
        (
            Call::Position {
                zone: -1,
                period: -5,
                mw: 30_001,
            },
            tells(2, 0, -5),
        ),
        (
            Call::Position {
                zone: -1,
                period: 5,
                mw: 30_001,
            },
            tells(3, -1, 5),
        ),
        (
            Call::Position {
                zone: 0,
                period: 5,
                mw: 30_001,
            },
            tells(5, 0, 5),
        ),
        (
            Call::Position {
                zone: 0,
                period: 5,
                mw: -30_001,
            },
            tells(5, 0, 5),
        ),
        (
            Call::AskBorder {
                border: 0,
                period: 25,
            },
            tells(2, 0, 25),
        ),
        (
            Call::AskBorder {
                border: 0,
                period: 24,
            },
            tells(3, 0, 24),
        ),
        (
            Call::AskZone {
                zone: 3,
                period: -1,
            },
            tells(2, 0, -1),
        ),
        (Call::AskZone { zone: 3, period: 1 }, tells(3, 3, 1)),
    ];
    for state in STATES {
        for (call, expected) in table {
            assert_eq!(rt; in_state(&rt, state, call)?, expected);
        }
    }
    Ok(())
}

#[test]
fn power_flow_needs_a_result(rt: HostRuntime) -> Result<(), Fail> {
    let expected = [
        tells(21, 2, 9),
        tells(20, 0, 9),
        None,
        tells(21, 2, 9),
        None,
        tells(20, 0, 9),
    ];
    let call = Call::Sheet {
        border: 2,
        period: 9,
        sheet: sheet(700, 1_000, 350),
    };
    for (state, expected) in STATES.iter().zip(&expected) {
        assert_eq!(rt; in_state(&rt, *state, call)?, *expected);
    }
    Ok(())
}

fn stage(zone: i32, period: i32, mw: i32) -> Call {
    Call::Position { zone, period, mw }
}

// A sheet that lets a border carry 400 both ways.
fn carry(border: i32, period: i32) -> Call {
    Call::Sheet {
        border,
        period,
        sheet: sheet(400, 400, 0),
    }
}

// What the adoption of staged positions tells after these opening calls, where both borders carry 400 in periods 4 and 9 and zone 1 may import 50 in period 4.
fn adoption(rt: &impl Abort, opening: &[Call], staged: &[Call]) -> Result<Option<Told>, Fail> {
    let mut deals = [blank_deal(); 1];
    let mut sheets = [blank_sheet(); 4];
    let mut day = Day::new(small()?, &mut deals, &mut sheets);
    let limit = Call::Limit {
        zone: 1,
        period: 4,
        import: 50,
        export: 0,
    };
    let calls = [carry(1, 4), carry(2, 4), carry(1, 9), carry(2, 9), limit];
    day.accepted(rt, &calls);
    day.accepted(rt, opening);
    day.accepted(rt, staged);
    Ok(day.told(Call::Adopt))
}

#[test]
fn grounds_of_an_adoption(rt: HostRuntime) -> Result<(), Fail> {
    let nothing = stage(2, 1, 0);
    let table = [
        ([nothing, nothing, nothing, nothing], None),
        (
            [stage(0, 9, 400), stage(2, 9, -400), nothing, nothing],
            None,
        ),
        (
            [stage(0, 9, 400), stage(2, 9, -399), nothing, nothing],
            tells(23, 0, 9),
        ),
        (
            [
                stage(1, 24, 1),
                stage(0, 5, 100),
                stage(1, 5, -100),
                nothing,
            ],
            tells(23, 0, 24),
        ),
        (
            [
                stage(0, 9, 401),
                stage(2, 9, -401),
                stage(0, 4, 60),
                stage(1, 4, -60),
            ],
            tells(24, 1, 0),
        ),
        (
            [stage(1, 9, 401), stage(2, 9, -401), nothing, nothing],
            tells(24, 2, 0),
        ),
        (
            [stage(0, 4, 60), stage(1, 4, -60), nothing, nothing],
            tells(25, 1, 4),
        ),
    ];
    for (staged, expected) in table {
        assert_eq!(rt; adoption(&rt, &[Call::Offer], &staged)?, expected);
        assert_eq!(rt;
            adoption(&rt, &[Call::Offer, Call::Gate], &staged)?,
            expected
        );
    }
    Ok(())
}

// A limit of a zone's import, and a wide one of its export.
fn import_limit(zone: i32, period: i32, import: i32) -> Call {
    Call::Limit {
        zone,
        period,
        import,
        export: 500,
    }
}

// Several limits are passed at once: the first by period is told, then by zone.
#[test]
fn limits_passed_by_an_adoption(rt: HostRuntime) -> Result<(), Fail> {
    let nothing = stage(2, 1, 0);
    let limits = [import_limit(2, 4, 70), import_limit(1, 9, 20)];
    let table = [
        (
            [
                stage(0, 4, 160),
                stage(2, 4, -100),
                stage(1, 4, -60),
                nothing,
            ],
            tells(25, 1, 4),
        ),
        (
            [
                stage(0, 9, 30),
                stage(1, 9, -30),
                stage(0, 4, 100),
                stage(2, 4, -100),
            ],
            tells(25, 2, 4),
        ),
    ];
    for (staged, expected) in table {
        let opening = [limits[0], limits[1], Call::Offer];
        assert_eq!(rt; adoption(&rt, &opening, &staged)?, expected);
        let opening = [limits[0], limits[1], Call::Offer, Call::Gate];
        assert_eq!(rt; adoption(&rt, &opening, &staged)?, expected);
    }
    Ok(())
}

#[test]
fn sheet_log_that_is_full(rt: HostRuntime) -> Result<(), Fail> {
    let early = Call::Sheet {
        border: 2,
        period: 8,
        sheet: sheet(700, 1_000, 350),
    };
    let full = tells(26, 0, 8);
    let table = [
        (State::Drafting, tells(21, 2, 8)),
        (State::Matched, full),
        (State::Waiting, tells(21, 2, 8)),
        (State::Trading, full),
    ];
    for (state, with_flow) in table {
        let mut deals = [blank_deal(); 1];
        let mut sheets = [blank_sheet(); 1];
        let mut day = Day::new(small()?, &mut deals, &mut sheets);
        assert_eq!(rt; day.told(carry(1, 3)), None);
        day.bring(&rt, state);
        assert_eq!(rt; day.told(carry(1, 8)), full);
        assert_eq!(rt; day.told(early), with_flow);
        assert_eq!(rt; day.counts(), (0, 1));
    }
    Ok(())
}
