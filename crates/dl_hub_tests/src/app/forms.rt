// Lines that hold what a text file of scripts does not: control characters, spaces at an end, and bytes above 127.
use super::answers;
use dl_app::ScriptFault;

#[test]
fn other_bytes_make_a_line_bad(rt: HostRuntime) {
    let lines: [&[u8]; 16] = [
        b"1\tclose a",
        b"1 close a\r\n",
        b"1 close a\0",
        b"1 close \xff",
        b"1 close \xc3\xa9",
        b"\xef\xbb\xbf1 close a",
        b"\0",
        b"\r\n",
        b"\x0b# a",
        b"flush\x1a",
        b"file \xe9.log",
        b"1 open a halt base=\x80",
        b"1 open a halt size=\xb2",
        b"1 log a \xe9",
        b"1 log a 3*\x7f",
        b"1 log a 3*\xe9",
    ];
    for line in lines {
        let is = answers(&rt, line, b"", Err(ScriptFault::BadLine(1)));
        assert!(rt; is, "{line:?}");
    }
}

#[test]
fn a_space_at_an_end_makes_a_line_bad(rt: HostRuntime) {
    for line in [
        " ",
        " 1 close a",
        "1 close a ",
        "1 exit ",
        "flush ",
        "file a.log ",
        "1 log a ",
        "1 open a halt ",
        " # a",
    ] {
        let is = answers(&rt, line.as_bytes(), b"", Err(ScriptFault::BadLine(1)));
        assert!(rt; is, "{line:?}");
    }
}

#[test]
fn a_comment_may_hold_any_byte(rt: HostRuntime) {
    let script = b"#\0\r\t\x7f\xff\n\n# \xc3\xa9\r\n1 close a";
    let is = answers(&rt, script, b"E2 no_such_log\n", Ok(()));
    assert!(rt; is);
}

#[test]
fn a_script_may_be_empty(rt: HostRuntime) {
    for script in ["", "\n", "\n\n#\n", "#"] {
        let is = answers(&rt, script.as_bytes(), b"", Ok(()));
        assert!(rt; is, "{script:?}");
    }
}
