// What the thread of a client of a script is to do.
use dl_server::Done;
use dl_types::ClientId;
use std::marker::Model;
use std::thread::Promise;

/// The part of a client of a script: the calls that it has in these lines, and whether what it does is kept. Contracts see all
/// three.
#[derive(Clone, Copy)]
pub(crate) struct Part<'a> {
    pub(crate) own: ClientId,
    pub(crate) lines: &'a [Vec<u8>],
    pub(crate) kept: bool,
}

impl<'a> Promise<Option<Done>> for Part<'a> {
    ghost use Rattle.std.specs.Prelude.{IfSome};
    ghost use Rattle.dl_threads.specs.Parts.{FillsPart};

    ghost kept_by = { λ part done. IfSome done (FillsPart part) };
}
