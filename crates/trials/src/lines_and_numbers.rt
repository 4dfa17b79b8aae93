use text::{Lines, number, too_long};

#[test]
fn reads_numbers(rt: HostRuntime) {
    let table: [(&[u8], Option<i32>); 14] = [
        (b"0", Some(0)),
        (b"-0", None),
        (b"-1", Some(-1)),
        (b"+1", None),
        (b"01", None),
        (b"-01", None),
        (b"1000000", Some(1_000_000)),
        (b"-1000000", Some(-1_000_000)),
        (b"1000001", None),
        (b"-1000001", None),
        (b"", None),
        (b"-", None),
        (b"1a", None),
        (b"10000000", None),
    ];
    for (field, answer) in table {
        assert_eq!(rt; number(field), answer);
    }
}

#[test]
fn cuts_lines(rt: HostRuntime) {
    let table: [(&[u8], &[&[u8]]); 6] = [
        (b"", &[]),
        (b"\n", &[b""]),
        (b"a", &[b"a"]),
        (b"a\n", &[b"a"]),
        (b"a\n\nb", &[b"a", b"", b"b"]),
        (b"\xff\x80\n\xc3", &[b"\xff\x80", b"\xc3"]),
    ];
    for (file, answers) in table {
        let mut lines = Lines::new(file);
        for answer in answers {
            assert_eq!(rt; lines.next(), Some(*answer));
        }
        assert_eq!(rt; lines.next(), None);
    }
}

#[test]
fn bounds_lines(rt: HostRuntime) {
    let bytes = [b'a'; 201];
    assert!(rt; !too_long(&bytes[0..200]));
    assert!(rt; too_long(&bytes));
}
