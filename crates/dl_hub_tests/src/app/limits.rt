// The longest line, and the last.
use super::{answers, filled};
use dl_app::ScriptFault;
use std::alloc::AllocError;

#[test]
fn a_line_has_a_limit(rt: HostRuntime) -> Result<(), AllocError> {
    let rows: [(&[u8], usize, &[u8], &[u8], Result<(), ScriptFault>); 7] = [
        (
            b"1 log a ",
            65_528,
            b"\n1 close a\n",
            b"E2 no_such_log\nE2 no_such_log\n",
            Ok(()),
        ),
        (b"1 log a ", 65_528, b"", b"E2 no_such_log\n", Ok(())),
        (
            b"1 log a ",
            65_529,
            b"\n1 close a\n",
            b"",
            Err(ScriptFault::BadLine(1)),
        ),
        (b"1 log a ", 65_529, b"", b"", Err(ScriptFault::BadLine(1))),
        (b"#", 65_535, b"\n1 close a\n", b"E2 no_such_log\n", Ok(())),
        (b"#", 65_535, b"", b"", Ok(())),
        (b"#", 65_536, b"", b"", Err(ScriptFault::BadLine(1))),
    ];
    for (before, count, after, text, ended) in rows {
        let script = filled(rt.alloc(), before, count, b'x', after)?;
        let is = answers(&rt, script.as_slice(), text, ended);
        assert!(rt; is, "{count} {after:?}");
    }
    Ok(())
}

#[test]
fn a_script_has_a_million_lines(rt: HostRuntime) -> Result<(), AllocError> {
    let bad = Err(ScriptFault::BadLine(1_000_001));
    let rows: [(usize, &[u8], &[u8], Result<(), ScriptFault>); 3] = [
        (999_999, b"1 close a", b"E2 no_such_log\n", Ok(())),
        (1_000_000, b"#", b"", bad),
        (1_000_001, b"", b"", bad),
    ];
    for (count, after, text, ended) in rows {
        let script = filled(rt.alloc(), b"", count, b'\n', after)?;
        let is = answers(&rt, script.as_slice(), text, ended);
        assert!(rt; is, "{count} {after:?}");
    }
    Ok(())
}
