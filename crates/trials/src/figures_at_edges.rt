use equations::{
    Direction, FigureFault, Formula, OneWay, Side, Source, Sums, cut, margin, reserve,
};
use std::test::Fail;

// A sample: how many deviations, which stand at the odd places and which at the even ones, and what their margin is.
#[derive(Drop)]
struct Sample(usize, i32, i32, Result<i32, FigureFault>);

#[test]
fn margins(rt: HostRuntime) -> Result<(), Fail> {
    let table = [
        Sample(0, 0, 0, Err(FigureFault::Overall)),
        Sample(1, 0, 0, Err(FigureFault::Overall)),
        Sample(2, 2_000, 2_000, Ok(2_000)),
        Sample(2, -2_000, -2_000, Ok(-2_000)),
        Sample(2, 2_000, -2_000, Ok(2_828)),
        Sample(2, 2_001, 0, Err(FigureFault::Entry(1))),
        Sample(2, 0, -2_001, Err(FigureFault::Entry(2))),
        Sample(44_640, 2_000, 2_000, Ok(2_000)),
        Sample(44_640, -2_000, -2_000, Ok(-2_000)),
        Sample(44_640, 2_000, -2_000, Ok(2_000)),
        Sample(44_641, 2_001, 0, Err(FigureFault::Overall)),
    ];
    for Sample(count, odd, even, answer) in table {
        let mut deviations = Vec::new(rt.alloc());
        for i in 0..count {
            deviations.push(if i % 2 == 0 { odd } else { even })?;
        }
        assert_eq!(rt; margin(&deviations), answer);
    }
    Ok(())
}

#[test]
fn margins_of_sums(rt: HostRuntime) {
    let table = [
        ((3, 60, 1_400), Some(30)),
        ((2, 0, 8_000_000), Some(2_828)),
        ((44_640, -89_280_000, 178_560_000_000), Some(-2_000)),
        ((1, 0, 0), None),
        ((44_641, 0, 0), None),
        ((2, 4_001, 8_004_001), None),
        ((2, 0, 8_000_001), None),
        ((2, 3, 4), None),
        ((2, 0, -1), None),
        ((i64::MAX, i64::MIN, i64::MAX), None),
    ];
    for ((count, sum, squares), answer) in table {
        let sums = Sums {
            count,
            sum,
            squares,
        };
        assert_eq!(rt; sums.margin(), answer);
    }
}

fn source(power: i32, row100: i32, row50: i32, row0: i32) -> Source {
    Source {
        power,
        row100,
        row50,
        row0,
    }
}

// How many sources like this one there are, under which down-regulation, and what their reserve is.
#[test]
fn reserves(rt: HostRuntime) {
    let overall = FigureFault::Overall;
    let table = [
        (0, source(0, 0, 0, 0), 5_000, Ok(0)),
        (1, source(100, 10, 20, 30), 100, Ok(10)),
        (1, source(100, 10, 20, 30), 99, Ok(20)),
        (1, source(100, 10, 20, 30), 50, Ok(20)),
        (1, source(100, 10, 20, 30), 49, Ok(30)),
        (1, source(199, 100, 50, 1), 0, Ok(1)),
        (8, source(5_000, 0, 0, 100), 5_000, Ok(40_000)),
        (9, source(5_001, 0, 0, 100), 5_000, Err(overall)),
        (1, source(5_001, 0, 0, 0), -1, Err(overall)),
        (1, source(0, 0, 0, 0), 5_001, Err(overall)),
        (8, source(5_001, 0, 0, 0), 0, Err(FigureFault::Entry(1))),
        (1, source(0, -1, 0, 0), 0, Err(FigureFault::Entry(1))),
        (1, source(0, 0, 101, 0), 0, Err(FigureFault::Entry(1))),
        (1, source(0, 0, 0, 101), 0, Err(FigureFault::Entry(1))),
    ];
    for (count, one, regulation, answer) in table {
        let all = [one; 9];
        assert!(rt; count <= 9);
        assert_eq!(rt; reserve(&all[0..count], regulation), answer);
    }
    let last_bad = [
        source(5_000, 0, 0, 0),
        source(0, 100, 100, 100),
        source(-1, 0, 0, 0),
    ];
    assert_eq!(rt; reserve(&last_bad, 0), Err(FigureFault::Entry(3)));
}

// A line in one direction.
fn line(direction: Direction, side: Side) -> OneWay {
    OneWay {
        formula: Formula::Line,
        direction,
        side,
    }
}

// Capacities: uncut and cut, and what is available of a line either way at a flow and a power flow.
#[test]
fn capacities(rt: HostRuntime) {
    let narrow = Side {
        first: 100,
        second: 50,
        margin: 60,
        reserve: 0,
    };
    let wide = Side {
        first: 700,
        second: 1_000,
        margin: 60,
        reserve: 247,
    };
    assert_eq!(rt; line(Direction::Forward, narrow).uncut_ntc(), -10);
    assert_eq!(rt; cut(-10), 0);
    let table = [
        (Direction::Forward, narrow, 0, 30, -30),
        (Direction::Forward, narrow, 500, 30, -440),
        (Direction::Backward, narrow, 500, 30, 30),
        (Direction::Forward, wide, 0, 350, 537),
        (Direction::Forward, wide, -300, 350, 537),
        (Direction::Backward, wide, -300, -200, 647),
    ];
    for (direction, side, flow, power_flow, answer) in table {
        assert_eq!(rt; line(direction, side).atc(flow, power_flow), answer);
    }
    let given = OneWay {
        formula: Formula::Given,
        direction: Direction::Backward,
        side: wide,
    };
    assert_eq!(rt; given.atc(i32::MIN, 0), 700 - 2_147_483_648);
}
