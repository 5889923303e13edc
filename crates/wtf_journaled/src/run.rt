//! The journaled run of a script.

ghost use Rattle.wtf_journaled.specs.Runs.{IsJournaledRun, on_devices};

use crate::ends::{finish, unopened};
use crate::lines::{pass, push_settings};
use std::alloc::Global;
use wtf_base::Settings;
use wtf_dev::{Disk, Shelf, Sink, Source};
use wtf_durable::Durable;
use wtf_journal::Synced;
use wtf_script::Lines;
use wtf_serve::{OUT_OF_MEMORY, Reader, WRITING_FAILED, either, write_all};

/// Answers a script: opens the journal, writes the settings, and one answer a line. The settings of the journal's image win over those that are
/// asked for.
pub(crate) fn run<I: Source, O: Sink, S: Disk, D: Disk>(
    alloc: Global,
    settings: Settings,
    script: &mut I,
    out: &mut O,
    shelf: &mut Shelf<Synced<S>>,
    disk: &mut D,
) -> u8
    ensures ran { IsJournaledRun S.kind D.kind settings result
        (on_devices (I.view script.old) (O.view out.old) shelf.old disk.old)
        (on_devices (I.view script.new) (O.view out.new) shelf.new disk.new) }
{
    let mut durable = match Durable::open(alloc, settings, shelf, disk) {
        Ok(durable) => durable,
        Err(why) => return unopened(out, why),
    };
    let Ok(lines) = Lines::new(alloc) else {
        return OUT_OF_MEMORY;
    };
    let mut reader = Reader { alloc, lines };
    let mut text = Vec::new(alloc);
    let Ok(()) = push_settings(&durable, &mut text) else {
        return OUT_OF_MEMORY;
    };
    let Ok(()) = write_all(out, text.as_slice()) else {
        return WRITING_FAILED;
    };
    let mut bad = false;
    loop {
        match pass(
            &mut reader,
            script,
            &mut durable,
            shelf,
            disk,
            out,
            &mut text,
        ) {
            Ok(Some(more)) => bad = either(bad, more),
            Ok(None) => return finish(out, bad),
            Err(halt) => return halt.status(),
        }
    }
}
