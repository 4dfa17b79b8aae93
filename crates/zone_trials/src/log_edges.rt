// Logs in memory that the caller lends.
use logs::{Log, LogFull};

#[test]
fn log_without_memory(rt: HostRuntime) {
    let mut memory = [0; 0];
    let mut log = Log::new(&mut memory);
    assert_eq!(rt; log.capacity(), 0);
    assert_eq!(rt; log.count(), 0);
    assert_eq!(rt; log.enter(7), Err(LogFull));
    assert_eq!(rt; log.read(1), None);
    assert!(rt; !log.change(1, 7));
}

#[test]
fn log_until_it_is_full(rt: HostRuntime) {
    let mut memory = [9; 3];
    let mut log = Log::new(&mut memory);
    assert_eq!(rt; log.capacity(), 3);
    assert_eq!(rt; log.read(1), None);
    assert_eq!(rt; log.enter(70), Ok(1));
    assert_eq!(rt; log.enter(80), Ok(2));
    assert!(rt; !log.change(3, 5));
    assert_eq!(rt; log.enter(90), Ok(3));
    assert_eq!(rt; log.enter(100), Err(LogFull));
    assert!(rt; log.change(2, 81));
    assert!(rt; !log.change(0, 5));
    assert_eq!(rt; log.count(), 3);
    let table = [
        (0, None),
        (1, Some(70)),
        (2, Some(81)),
        (3, Some(90)),
        (4, None),
        (usize::MAX, None),
    ];
    for (number, answer) in table {
        assert_eq!(rt; log.read(number), answer);
    }
}

#[test]
fn log_leaves_the_rest(rt: HostRuntime) {
    let mut memory = [9; 4];
    let mut log = Log::new(&mut memory);
    assert_eq!(rt; log.enter(70), Ok(1));
    assert!(rt; log.change(1, 71));
    assert_eq!(rt; memory, [71, 9, 9, 9]);
}
