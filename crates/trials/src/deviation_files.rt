// Files and the lines that answer them.
use margin_file::answer;
use std::test::Fail;

#[test]
fn answers_files(rt: HostRuntime) -> Result<(), Fail> {
    let table: [(&[u8], &str); 14] = [
        (b"1\n2\n", "ok,2,2\n"),
        (b"-7\n-7", "ok,2,-7\n"),
        (b"", "no,0,7,0,0\n"),
        (b"5", "no,0,7,0,0\n"),
        (b"1\n", "no,0,7,0,0\n"),
        (b"1\n2001\n", "no,2,7,2,0\n"),
        (b"\n", "no,1,1,1,0\n"),
        (b"1\n\n2", "no,2,1,1,0\n"),
        (b"1\n-0\n", "no,2,1,1,0\n"),
        (b"1\r\n2\r\n", "no,1,1,1,0\n"),
        (b"1\n\xff\x80\n", "no,2,1,1,0\n"),
        (b"3000\nx\n", "no,2,1,1,0\n"),
        (b"y\nx\n", "no,1,1,1,0\n"),
        (&[b'1'; 201], "no,1,1,0,0\n"),
    ];
    for (file, line) in table {
        assert_eq!(rt; answer(rt.alloc(), file)?.as_str(), line);
    }
    assert_eq!(rt; answer(rt.alloc(), &[b'1'; 200])?.as_str(), "no,1,1,1,0\n");
    Ok(())
}
