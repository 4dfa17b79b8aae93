// Regions that cannot be made.
use book::MakingFault;
use borders::bank::Bank;
use borders::{Border, NoBorders, Pair, Sheet};
use equations::{Side, Told};
use kinds::{Given, Made, Sheeted};
use region::Region;
use std::test::Fail;

// A sheet of 100 both ways.
fn sheet() -> Sheet {
    let side = Side {
        first: 100,
        second: 0,
        margin: 0,
        reserve: 0,
    };
    Sheet {
        forward: side,
        backward: side,
        power_flow: 0,
        circuits: 0,
    }
}

// A given border, which has a flow in a period if one is named.
fn given(period: Option<i32>) -> Result<Sheeted<Given>, Fail> {
    let mut border = Sheeted::<Given>::make();
    if let Some(period) = period {
        border.reassess(&sheet(), period)?;
        border.take(period, -5)?;
    }
    Ok(border)
}

// The parents given, the periods in which borders 1 and 2 have a flow, and the fault with its place.
#[test]
fn faults_of_making(rt: HostRuntime) -> Result<(), Fail> {
    let table: [(
        &[usize],
        Option<i32>,
        Option<i32>,
        Option<(MakingFault, i32)>,
    ); 10] = [
        (&[0, 0], None, None, None),
        (&[0, 1], None, None, None),
        (&[], None, None, Some((MakingFault::Count, 0))),
        (&[0], None, None, Some((MakingFault::Count, 0))),
        (&[0, 1, 2], Some(1), Some(1), Some((MakingFault::Count, 0))),
        (&[5, 5, 5], Some(1), Some(1), Some((MakingFault::Count, 0))),
        (&[1, 2], Some(1), Some(1), Some((MakingFault::Parent(1), 1))),
        (&[0, 2], Some(24), None, Some((MakingFault::Parent(2), 2))),
        (&[0, 1], Some(24), Some(1), Some((MakingFault::Flow(1), 1))),
        (&[0, 1], None, Some(24), Some((MakingFault::Flow(2), 2))),
    ];
    for (parents, one, two, expected) in table {
        let bank = Pair {
            first: given(one)?,
            rest: Pair {
                first: given(two)?,
                rest: NoBorders,
            },
        };
        match Region::new(parents, bank) {
            Ok(_) => assert!(rt; expected.is_none()),
            Err(unmade) => {
                let Some((fault, place)) = expected else {
                    return Err(Fail::new("region refused"));
                };
                assert_eq!(rt; unmade.fault, fault);
                let told = Told {
                    number: 8,
                    place,
                    period: 0,
                };
                assert_eq!(rt; unmade.fault.told(), told);
                let came_back: Pair<Sheeted<Given>, Pair<Sheeted<Given>, NoBorders>> = unmade.bank;
                let (period, flow) = one.map_or((0, 0), |period| (period, -5));
                assert_eq!(rt; came_back.first.flow(period), flow);
            }
        }
    }
    Ok(())
}

#[test]
fn no_borders_at_all(rt: HostRuntime) -> Result<(), Fail> {
    match Region::new(&[], NoBorders) {
        Ok(_) => Err(Fail::new("region made")),
        Err(unmade) => {
            assert_eq!(rt; unmade.fault, MakingFault::Count);
            Ok(())
        }
    }
}

// Four given borders without flows before the others.
fn four<R>(rest: R) -> Four<R> {
    Pair {
        first: Sheeted::<Given>::make(),
        rest: Pair {
            first: Sheeted::<Given>::make(),
            rest: Pair {
                first: Sheeted::<Given>::make(),
                rest: Pair {
                    first: Sheeted::<Given>::make(),
                    rest,
                },
            },
        },
    }
}

type Two<R> = Pair<Sheeted<Given>, Pair<Sheeted<Given>, R>>;

type Four<R> = Two<Two<R>>;

#[test]
fn one_zone_too_many(rt: HostRuntime) -> Result<(), Fail> {
    let twelve = four(four(four(NoBorders)));
    let Err(unmade) = Region::new(&[0; 16], four(twelve)) else {
        return Err(Fail::new("region made"));
    };
    assert_eq!(rt; unmade.fault, MakingFault::Count);
    let fifteen = unmade.bank.rest;
    assert!(rt; Region::new(&[0; 15], fifteen).is_ok());
    Ok(())
}
