// Readers and writers that fail.
use super::pieces::{Pieces, Room};
use super::{filled, is_answered, run_alone};
use dl_app::ScriptFault;
use std::alloc::AllocError;
use std::io;

#[test]
fn a_failing_reader_ends_the_script(rt: HostRuntime) {
    let rows = [
        (None, Ok(())),
        (Some(io::ErrorKind::Other), Err(ScriptFault::Read)),
        (
            Some(io::ErrorKind::OutOfMemory),
            Err(ScriptFault::OutOfMemory),
        ),
    ];
    for (fault, ended) in rows {
        let mut input = Pieces::of(b"1 close a\n# not yet at its end", fault);
        let is = is_answered(&rt, &mut input, b"E2 no_such_log\n", ended);
        assert!(rt; is, "{ended:?}");
    }
}

#[test]
fn an_interrupted_read_is_tried_again(rt: HostRuntime) {
    let mut input = Pieces::interrupted(b"1 close a\n\n1 log a\nbad\n");
    let text = b"E2 no_such_log\nE1 bad_arg items\n";
    let is = is_answered(&rt, &mut input, text, Err(ScriptFault::BadLine(4)));
    assert!(rt; is);
}

#[test]
fn a_long_line_is_bad_in_whatever_pieces_it_comes(rt: HostRuntime) -> Result<(), AllocError> {
    for (count, ended) in [(65_535, Ok(())), (65_536, Err(ScriptFault::BadLine(1)))] {
        let text = filled(rt.alloc(), b"#", count, b'x', b"\n\n")?;
        let mut input = Pieces::of(text.as_slice(), None);
        let is = is_answered(&rt, &mut input, b"", ended);
        assert!(rt; is, "{count}");
    }
    Ok(())
}

#[test]
fn a_failing_writer_ends_the_script(rt: HostRuntime) {
    let rows = [
        (31, true, Err(ScriptFault::BadLine(3))),
        (30, true, Err(ScriptFault::BadLine(3))),
        (29, true, Err(ScriptFault::Write)),
        (0, true, Err(ScriptFault::Write)),
        (31, false, Err(ScriptFault::Write)),
    ];
    for (left, flushes, ended) in rows {
        let mut input = b"1 close a\n1 close a\nbad\n".as_slice();
        let mut output = Room { left, flushes };
        let end = run_alone(&rt, &mut input, &mut output);
        assert_eq!(rt; end, ended, "{left} {flushes}");
    }
}
