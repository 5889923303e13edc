//! The events of a run, one a line of the script.

use crate::{JobKind, Op};
use wtf_base::Bytes;
use wtf_path::Path;

/// What a client's line asks.
#[derive(Debug, Drop)]
pub enum Verb {
    Begin,
    Try,
    Step,
    Commit,
    Abort,
    Call(Op<Bytes>),
}

/// One atomic step of a run. Clients and jobs are their numbers.
#[derive(Debug, Drop)]
pub enum Event {
    Client(u8, Verb),
    Plan {
        job: u8,
        kind: JobKind,
        path: Path,
        region: u64,
    },
    Put(u8),
    DropJob(u8),
    Scan,
    Piece(u8),
    Collect(u64),
    Down(u64),
    Up(u64),
    Save,
    Dump(Path),
    Tree,
}

/// What holds a scan back: a transaction, by its client, or a job, by its label.
#[derive(Clone, Copy, Debug, PartialEq, Eq)]
pub enum Holder {
    Client(u8),
    Job(u8),
}
