// What a request asks for, as its number says.

/// What is asked for.
#[derive(Clone, Copy, PartialEq, Eq)]
pub enum Op {
    Hello,
    Call(Verb),
    Exit,
    Flush,
    All,
    SyncAll,
    Reason,
    Logs,
}

/// Which call on a log.
#[derive(Clone, Copy, PartialEq, Eq)]
pub enum Verb {
    Open,
    Log,
    Alog,
    Chunk,
    ChunkStep,
    Truncate,
    Reopen,
    NextFile,
    ChangeSize,
    Sync,
    Block,
    Unblock,
    Info,
    Close,
}
