//! One line of a journaled run.

ghost use Rattle.std.specs.Prelude.{◌≡◌, ◌⊎◌, ◌<◌, ◌≤◌, ◌^◌, ◌++◌, [], IfOk, OnOk, OnErr, IsErrOf};
ghost use Rattle.wtf_dev.specs.Counts.{Rose};
ghost use Rattle.wtf_dev.specs.Disk.{DiskGoesOn};
ghost use Rattle.wtf_dev.specs.Each.{EachFollows};
ghost use Rattle.wtf_journal.specs.Follows.{synced_kind};
ghost use Rattle.wtf_replica.specs.Outs.{SameFrom};
ghost use Rattle.wtf_script.specs.declared.limits.TheConstants.{SCRIPT_BYTES};
ghost use Rattle.wtf_serve.specs.Answering.{IsFormLine};
ghost use Rattle.wtf_serve.specs.Engines.{IsAnswer, step};
ghost use Rattle.wtf_serve.specs.Passes.{hand, input};
ghost use Rattle.wtf_serve.specs.Scripts.{settings_line};
ghost use Rattle.wtf_serve.specs.Stocks.{stock};
ghost use Rattle.wtf_serve.specs.declared.service.Stop.TheVariants as stop;
ghost use Rattle.wtf_durable.specs.declared.fault.DurableFault.TheVariants as fault;
ghost use Rattle.wtf_durable.specs.Views.{blind, durable_scene};
ghost use Rattle.wtf_journaled.specs.declared.halt.Halt.TheVariants as halt;
ghost use Rattle.wtf_journaled.specs.Added.{LineAdds, PassAdds, TurnAdds};
ghost use Rattle.wtf_journaled.specs.Breaks.{FailsAt, PassBreaks, SurvivesLine, stopped};
ghost use Rattle.wtf_journaled.specs.Engine.{IsSoundJournaled, journaled, journaled_engine};

use crate::Halt;
use wtf_base::OutOfMemory;
use wtf_dev::{Disk, Shelf, Sink, Source};
use wtf_durable::{Durable, DurableFault};
use wtf_journal::Synced;
use wtf_model::{Answer, Event};
use wtf_print::print_settings;
use wtf_serve::{Reader, Stop, push_answer, read_line, write_all};

/// Answers a line: its event, or with the answer of one that asks nothing.
fn answer<S: Disk, D: Disk>(
    durable: &mut Durable,
    shelf: &mut Shelf<Synced<S>>,
    disk: &mut D,
    line: Result<Event, Answer>,
) -> Result<Answer, DurableFault>
    requires number { durable.old.core.tables.kv.number < 2 ^ 63 }
    requires next_tx { durable.old.core.tables.next_tx < 2 ^ 63 }
    requires form { IsFormLine line }
    requires sound { IsSoundJournaled S.kind D.kind shelf.old (journaled durable.old disk.old) }
    ensures is { IfOk result (IsAnswer (journaled_engine S.kind D.kind)
        (step (stock shelf.old (blind (D.kind.view disk.old)))
        (stock shelf.new (blind (D.kind.view disk.new)))
        (journaled durable.old disk.old) (journaled durable.new disk.new)) line) }
    ensures added { IfOk result (LineAdds D.kind (journaled durable.old disk.old)
        (journaled durable.new disk.new) line) }
    ensures survives { OnErr result (SurvivesLine S.kind D.kind
        (durable_scene shelf.old disk.old durable.old)
        (durable_scene shelf.new disk.new durable.new) line) }
    ensures follows { OnErr result (EachFollows (synced_kind S.kind) shelf.old shelf.new []) }
    ensures past { SameFrom durable.old.core.settings.servers shelf.old shelf.new }
    ensures goes_on { DiskGoesOn D.kind disk.old disk.new }
    ensures cause { IsErrOf result fault.Journal →
        Rose (D.kind.view disk.old).faults (D.kind.view disk.new).faults }
{
    match line {
        Ok(event) => {
            let answer = durable.event(shelf, disk, &event)?;
            Ok(answer)
        }
        Err(bad) => Ok(bad),
    }
}

/// Appends the line of the settings, with the number of the installs so far.
pub(crate) fn push_settings(durable: &Durable, text: &mut Vec<u8>) -> Result<(), OutOfMemory>
    ensures { OnOk result (text.new.items ≡ text.old.items ++
        settings_line durable.now.core.settings durable.now.core.tables.kv.number) }
{
    print_settings(durable.settings(), durable.number(), text)?;
    text.push(b'\n')?;
    Ok(())
}

/// Why a run ends at a line that was not answered.
fn halt_of(why: DurableFault) -> Halt
    ensures journal { result ≡ halt.Journal → why ≡ fault.Journal }
    ensures which { (result ≡ halt.Journal) ⊎ (result ≡ halt.Stopped stop.Memory) }
{
    match why {
        DurableFault::Journal => Halt::Journal,
        DurableFault::Memory => Halt::Stopped(Stop::Memory),
    }
}

/// Answers a line, and writes the answer. `text` is kept from line to line.
fn turn<O: Sink, S: Disk, D: Disk>(
    durable: &mut Durable,
    shelf: &mut Shelf<Synced<S>>,
    disk: &mut D,
    out: &mut O,
    text: &mut Vec<u8>,
    line: Result<Event, Answer>,
) -> Result<(), Halt>
    requires number { durable.old.core.tables.kv.number < 2 ^ 63 }
    requires next_tx { durable.old.core.tables.next_tx < 2 ^ 63 }
    requires form { IsFormLine line }
    requires sound { IsSoundJournaled S.kind D.kind shelf.old (journaled durable.old disk.old) }
    ensures turn { TurnAdds S.kind D.kind
        (step (stock shelf.old (blind (D.kind.view disk.old)))
        (stock shelf.new (blind (D.kind.view disk.new)))
        (journaled durable.old disk.old) (journaled durable.new disk.new))
        line (O.view out.old) (O.view out.new) (stopped result) }
    ensures survives { IsErrOf result (halt.Stopped stop.Memory) ⊎ IsErrOf result halt.Journal →
        SurvivesLine S.kind D.kind (durable_scene shelf.old disk.old durable.old)
        (durable_scene shelf.new disk.new durable.new) line }
    ensures faults { (O.view out.old).faults ≤ (O.view out.new).faults }
    ensures past { SameFrom durable.old.core.settings.servers shelf.old shelf.new }
    ensures goes_on { DiskGoesOn D.kind disk.old disk.new }
    ensures cause { IsErrOf result halt.Journal →
        Rose (D.kind.view disk.old).faults (D.kind.view disk.new).faults }
{
    let answer = match answer(durable, shelf, disk, line) {
        Ok(answer) => answer,
        Err(why) => return Err(halt_of(why)),
    };
    text.clear();
    let Ok(()) = push_answer(&answer, text) else {
        return Err(Halt::Stopped(Stop::Memory));
    };
    match write_all(out, text.as_slice()) {
        Ok(()) => Ok(()),
        Err(_) => Err(Halt::Stopped(Stop::Unwritten)),
    }
}

/// Reads a line, answers it and writes its answer, before another line is read: whether it asked nothing. `None` is the
/// end of the script.
pub(crate) fn pass<I: Source, O: Sink, S: Disk, D: Disk>(
    reader: &mut Reader,
    script: &mut I,
    durable: &mut Durable,
    shelf: &mut Shelf<Synced<S>>,
    disk: &mut D,
    out: &mut O,
    text: &mut Vec<u8>,
) -> Result<Option<bool>, Halt>
    requires count { reader.old.lines.count ≤ SCRIPT_BYTES }
    requires number { durable.old.core.tables.kv.number < 2 ^ 63 }
    requires next_tx { durable.old.core.tables.next_tx < 2 ^ 63 }
    requires sound { IsSoundJournaled S.kind D.kind shelf.old (journaled durable.old disk.old) }
    ensures pass { PassAdds S.kind D.kind
        (hand (input (I.view script.old) reader.old.lines) (O.view out.old)
        (stock shelf.old (blind (D.kind.view disk.old))) (journaled durable.old disk.old))
        (hand (input (I.view script.new) reader.new.lines) (O.view out.new)
        (stock shelf.new (blind (D.kind.view disk.new))) (journaled durable.new disk.new))
        (stopped result) }
    ensures breaks { IsErrOf result (halt.Stopped stop.Memory) ⊎ IsErrOf result halt.Journal →
        PassBreaks S.kind D.kind
        (hand (input (I.view script.old) reader.old.lines) (O.view out.old)
        (stock shelf.old (blind (D.kind.view disk.old))) (journaled durable.old disk.old))
        (hand (input (I.view script.new) reader.new.lines) (O.view out.new)
        (stock shelf.new (blind (D.kind.view disk.new))) (journaled durable.new disk.new)) }
    ensures past { SameFrom durable.old.core.settings.servers shelf.old shelf.new }
    ensures goes_on { DiskGoesOn D.kind disk.old disk.new }
    ensures cause { IsErrOf result halt.Journal →
        FailsAt D.kind (input (I.view script.old) reader.old.lines)
        (input (I.view script.new) reader.new.lines) disk.old disk.new }
{
    let line = match read_line(reader, script) {
        Ok(Some(line)) => line,
        Ok(None) => return Ok(None),
        Err(stop) => return Err(Halt::Stopped(stop)),
    };
    let bad = line.is_err();
    match turn(durable, shelf, disk, out, text, line) {
        Ok(()) => Ok(Some(bad)),
        Err(halt) => Err(halt),
    }
}
