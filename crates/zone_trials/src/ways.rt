// Trees and the ways in them.
use equations::{Direction, Told};
use std::process::Abort;
use std::test::Fail;
use zones::{Step, Tree, TreeFault, Way};

// Whether the way crosses these borders backward, then these forward, and no more.
fn check_way(rt: &impl Abort, way: &Way, backward: &[usize], forward: &[usize]) {
    let up = backward.iter().map(|border| Step {
        border: *border,
        direction: Direction::Backward,
    });
    let down = forward.iter().map(|border| Step {
        border: *border,
        direction: Direction::Forward,
    });
    for (number, step) in up.chain(down).enumerate() {
        assert_eq!(rt; way.step(number), Some(step));
    }
    assert_eq!(rt; way.length(), backward.len() + forward.len());
    assert_eq!(rt; way.step(way.length()), None);
    assert_eq!(rt; way.steps().len(), way.length());
    for (number, step) in way.steps().iter().enumerate() {
        assert_eq!(rt; way.step(number), Some(*step));
    }
}

#[test]
fn ways_of_the_six_zones(rt: HostRuntime) -> Result<(), Fail> {
    let six = Tree::new(&[0, 1, 2, 3, 3])?;
    assert_eq!(rt; six.count(), 6);
    let table: [(usize, usize, &[usize], &[usize]); 37] = [
        (0, 0, &[], &[]),
        (0, 1, &[], &[1]),
        (0, 2, &[], &[1, 2]),
        (0, 3, &[], &[1, 2, 3]),
        (0, 4, &[], &[1, 2, 3, 4]),
        (0, 5, &[], &[1, 2, 3, 5]),
        (1, 0, &[1], &[]),
        (1, 1, &[], &[]),
        (1, 2, &[], &[2]),
        (1, 3, &[], &[2, 3]),
        (1, 4, &[], &[2, 3, 4]),
        (1, 5, &[], &[2, 3, 5]),
        (2, 0, &[2, 1], &[]),
        (2, 1, &[2], &[]),
        (2, 2, &[], &[]),
        (2, 3, &[], &[3]),
        (2, 4, &[], &[3, 4]),
        (2, 5, &[], &[3, 5]),
        (3, 0, &[3, 2, 1], &[]),
        (3, 1, &[3, 2], &[]),
        (3, 2, &[3], &[]),
        (3, 3, &[], &[]),
        (3, 4, &[], &[4]),
        (3, 5, &[], &[5]),
        (4, 0, &[4, 3, 2, 1], &[]),
        (4, 1, &[4, 3, 2], &[]),
        (4, 2, &[4, 3], &[]),
        (4, 3, &[4], &[]),
        (4, 4, &[], &[]),
        (4, 5, &[4], &[5]),
        (5, 0, &[5, 3, 2, 1], &[]),
        (5, 1, &[5, 3, 2], &[]),
        (5, 2, &[5, 3], &[]),
        (5, 3, &[5], &[]),
        (5, 4, &[5], &[4]),
        (5, 5, &[], &[]),
        (6, 0, &[], &[]),
    ];
    for (seller, buyer, backward, forward) in table {
        check_way(&rt, &six.way(seller, buyer), backward, forward);
    }
    Ok(())
}

#[test]
fn behind_the_borders_of_six_zones(rt: HostRuntime) -> Result<(), Fail> {
    let six = Tree::new(&[0, 1, 2, 3, 3])?;
    let table = [
        (0, None, [false, false, false, false, false, false]),
        (1, Some(0), [false, true, true, true, true, true]),
        (2, Some(1), [false, false, true, true, true, true]),
        (3, Some(2), [false, false, false, true, true, true]),
        (4, Some(3), [false, false, false, false, true, false]),
        (5, Some(3), [false, false, false, false, false, true]),
        (6, None, [false, false, false, false, false, false]),
    ];
    for (border, parent, behind) in table {
        assert_eq!(rt; six.parent(border), parent);
        for (zone, lies) in behind.iter().enumerate() {
            assert_eq!(rt; six.lies_behind(border, zone), *lies);
        }
        assert!(rt; !six.lies_behind(border, 6));
    }
    Ok(())
}

#[test]
fn chain_and_star_of_16(rt: HostRuntime) -> Result<(), Fail> {
    let chain = Tree::new(&[0, 1, 2, 3, 4, 5, 6, 7, 8, 9, 10, 11, 12, 13, 14])?;
    let all = [1, 2, 3, 4, 5, 6, 7, 8, 9, 10, 11, 12, 13, 14, 15];
    let back = [15, 14, 13, 12, 11, 10, 9, 8, 7, 6, 5, 4, 3, 2, 1];
    check_way(&rt, &chain.way(0, 15), &[], &all);
    check_way(&rt, &chain.way(15, 0), &back, &[]);
    assert!(rt; chain.lies_behind(1, 15));
    assert!(rt; !chain.lies_behind(15, 14));
    let star = Tree::new(&[0; 15])?;
    check_way(&rt, &star.way(15, 1), &[15], &[1]);
    check_way(&rt, &star.way(1, 15), &[1], &[15]);
    check_way(&rt, &star.way(0, 15), &[], &[15]);
    assert!(rt; !star.lies_behind(1, 15));
    Ok(())
}

#[test]
fn parents_not_allowed(rt: HostRuntime) {
    let table: [(&[usize], TreeFault, i32); 8] = [
        (&[], TreeFault::Count, 0),
        (&[0; 16], TreeFault::Count, 0),
        (&[9; 16], TreeFault::Count, 0),
        (&[1], TreeFault::Parent(1), 1),
        (&[0, 2], TreeFault::Parent(2), 2),
        (
            &[0, 1, 18_446_744_073_709_551_615, 9],
            TreeFault::Parent(3),
            3,
        ),
        (
            &[0, 0, 0, 0, 0, 0, 0, 0, 0, 0, 0, 0, 0, 0, 15],
            TreeFault::Parent(15),
            15,
        ),
        (&[2, 5], TreeFault::Parent(1), 1),
    ];
    for (parents, fault, place) in table {
        assert_eq!(rt; Tree::new(parents).err(), Some(fault));
        let told = Told {
            number: 8,
            place,
            period: 0,
        };
        assert_eq!(rt; fault.told(), told);
    }
}

#[test]
fn net_positions_of_flows(rt: HostRuntime) -> Result<(), Fail> {
    let six = Tree::new(&[0, 1, 2, 3, 3])?;
    let table: [(&[i32], [i64; 7]); 4] = [
        (&[10, -20, 30, 5, -7], [10, -30, 50, -32, -5, 7, 0]),
        (&[0, 0, 100, 0, 100, 55], [0, 0, 100, 0, 0, -100, 0]),
        (&[10], [10, -10, 0, 0, 0, 0, 0]),
        (
            &[0, 0, -2_147_483_648, 2_147_483_647, 2_147_483_647],
            [
                0,
                0,
                -2_147_483_648,
                6_442_450_942,
                -2_147_483_647,
                -2_147_483_647,
                0,
            ],
        ),
    ];
    for (flows, positions) in table {
        for (zone, position) in positions.iter().enumerate() {
            assert_eq!(rt; six.net_position(flows, zone), *position);
        }
    }
    Ok(())
}
