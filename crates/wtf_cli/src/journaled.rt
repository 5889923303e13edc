//! Runs with a journal.

ghost use Rattle.std.specs.Prelude.{◌≡◌, drop, map, string_bytes, IfErr};
ghost use Rattle.wtf_journaled.specs.Runs.{on_devices};
ghost use Rattle.wtf_cli.specs.Program.{IsJournaledOver, IsProgramStatus, open_status};

use crate::devices::Journaled;
use crate::status::open_status;
use crate::{args_of, behind, brought_out};
use std::alloc::Global;
use wtf_dev::{Disk, Shelf, Sink, Source};
use wtf_journal::Synced;
use wtf_journaled::wtf_journaled;
use wtf_real::{OpenFault, streams};
use wtf_serve::OUT_OF_MEMORY;

/// Runs the script on standard input over the disks, where they could be opened: else no word is read.
pub(crate) fn run_journaled<S: Disk + Drop, D: Disk + Drop>(
    rt: &HostRuntime,
    opened: Result<Journaled<S, D>, OpenFault>,
) -> u8
    ensures status { IsProgramStatus result }
    ensures unopened { IfErr opened (λ fault. result ≡ open_status fault) }
{
    let mut opened = match opened {
        Ok(opened) => opened,
        Err(unopened) => return open_status(unopened),
    };
    let args = match args_of(rt) {
        Ok(args) => args,
        Err(status) => return status,
    };
    let alloc = rt.alloc();
    let Ok((mut script, mut out)) = streams(alloc, rt.stdin(), rt.stdout()) else {
        return OUT_OF_MEMORY;
    };
    let shelf = &mut opened.shelf;
    let disk = &mut opened.disk;
    let args = args.as_slice();
    let status = journaled_over(alloc, args, &mut script, &mut out, shelf, disk);
    status
}

/// Runs a script over disks, as the words behind the program's name, DIR and `--journal` ask, and answers the status. What `out`
/// holds back then is brought out; where that fails writing failed, however the run ended.
pub fn journaled_over<I: Source, O: Sink, S: Disk, D: Disk>(
    alloc: Global,
    args: &[String],
    script: &mut I,
    out: &mut O,
    shelf: &mut Shelf<Synced<S>>,
    disk: &mut D,
) -> u8
    ensures status { IsProgramStatus result }
    ensures ran { IsJournaledOver S.kind D.kind (map string_bytes (drop 3 args.now)) result
        (on_devices (I.view script.old) (O.view out.old) shelf.old disk.old)
        (on_devices (I.view script.new) (O.view out.new) shelf.new disk.new) }
{
    let words = behind(args, 3);
    let status = wtf_journaled(alloc, words, script, out, shelf, disk);
    brought_out(out, status)
}
