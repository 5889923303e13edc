//! The run of a script over any source, sink, stores and keeper.

ghost use Rattle.std.specs.Prelude.{◌≡◌, ◌≢◌, ◌<◌, ◌≤◌, ◌^◌, ◌++◌, ◌||◌, ℕ, List, [], Some, Ok, Err, IfOk, IfErr, OnOk, OnErr};
ghost use Rattle.wtf_dev.specs.Counts.{Rose};
ghost use Rattle.wtf_dev.specs.Each.{EachFollows};
ghost use Rattle.wtf_replica.specs.Downs.{is_down};
ghost use Rattle.wtf_replica.specs.Spans.{span};
ghost use Rattle.wtf_model.specs.declared.event.Event.TheVariants.{Save};
ghost use Rattle.wtf_serve.specs.Endings.{devices, stop_status};
ghost use Rattle.wtf_serve.specs.Unopened.{IsRunWith};
ghost use Rattle.wtf_serve.specs.Turns.{AllTaken, TurnDoes};
ghost use Rattle.wtf_serve.specs.Passes.{Came, HasDrawn, PassDoes, IsFormRead, input, hand};
ghost use Rattle.wtf_serve.specs.Answering.{IsFormLine};
ghost use Rattle.wtf_serve.specs.Beginnings.{Closes, Ends};
ghost use Rattle.wtf_serve.specs.Engines.{IsAnswer, step};
ghost use Rattle.wtf_serve.specs.Cores.{IsSoundCore, engine};
ghost use Rattle.wtf_serve.specs.Scripts.{end_status, line_text, settings_line};
ghost use Rattle.wtf_serve.specs.Sparing.{EndSpares, LineSpares, answer_of};
ghost use Rattle.wtf_serve.specs.Stocks.{stock, KeeperGoesOn, KeeperStays, HandsOver};
ghost use Rattle.wtf_script.specs.declared.limits.TheConstants.{SCRIPT_BYTES};

use crate::opening::open;
use std::alloc::Global;
use wtf_base::{OutOfMemory, Settings};
use wtf_core::Core;
use wtf_dev::{Failed, Keeper, Shelf, Sink, SliceStore, Source};
use wtf_model::{Answer, Event, Kind};
use wtf_print::{print_answer, print_settings};
use wtf_script::{Line, LineError, Lines, ReadError, parse_line};

/// Why a run ends before the end of its script.
#[derive(Clone, Copy, Debug)]
pub enum Stop {
    /// The source failed.
    Unread,
    /// The sink failed.
    Unwritten,
    /// The script has more bytes than a script may have.
    TooMuch,
    Memory,
}

/// The statuses that a run ends with.
pub const FINISHED: u8 = 0;

/// The script was read to its end, and some line of it is bad.
pub const BAD_LINES: u8 = 1;

/// The words were refused, or there are fewer stores than servers.
pub const WORDS_REFUSED: u8 = 2;

pub const READING_FAILED: u8 = 3;

pub const WRITING_FAILED: u8 = 4;

/// The tree could not be saved at the end of the script.
pub const SAVING_FAILED: u8 = 5;

/// What the keeper holds is no image that can be loaded.
pub const IMAGE_REFUSED: u8 = 6;

pub const OUT_OF_MEMORY: u8 = 7;

/// The keeper did not give what it holds.
pub const LOADING_FAILED: u8 = 8;

pub const SCRIPT_TOO_LONG: u8 = 9;

impl Stop {
    /// The status of a run that ends so.
    fn status(self) -> u8
        ensures { result ≡ stop_status self }
    {
        match self {
            Stop::Unread => READING_FAILED,
            Stop::Unwritten => WRITING_FAILED,
            Stop::TooMuch => SCRIPT_TOO_LONG,
            Stop::Memory => OUT_OF_MEMORY,
        }
    }
}

/// Writes all of a text.
pub fn write_all<O: Sink>(out: &mut O, text: &[u8]) -> Result<(), Failed>
    ensures told { (old : List ℕ) → (O.view out.old).taken ≡ Some old →
        AllTaken old text.now (O.view out.new).taken result }
    ensures faults { (O.view out.old).faults ≤ (O.view out.new).faults }
    ensures steady { OnOk result ((O.view out.new).faults ≡ (O.view out.old).faults) }
    ensures cause { OnErr result (Rose (O.view out.old).faults (O.view out.new).faults) }
{
    let mut at = 0;
    while at < text.len() {
        let (_, part) = text.split_at(at);
        match out.write(part) {
            Ok(n) => at += n,
            Err(e) => return Err(e),
        }
    }
    Ok(())
}

/// Brings out what a sink holds back.
fn bring_out<O: Sink>(out: &mut O) -> Result<(), Failed>
    ensures told { (old : List ℕ) → (O.view out.old).taken ≡ Some old →
        (O.view out.new).taken ≡ Some old }
    ensures faults { (O.view out.old).faults ≤ (O.view out.new).faults }
    ensures steady { OnOk result ((O.view out.new).faults ≡ (O.view out.old).faults) }
    ensures cause { OnErr result (Rose (O.view out.old).faults (O.view out.new).faults) }
{
    match out.write(&[]) {
        Ok(_) => Ok(()),
        Err(e) => Err(e),
    }
}

/// What the lines of a script are read with.
#[derive(Drop)]
pub struct Reader {
    pub alloc: Global,
    pub lines: Lines,
}

/// Reads the next line: its event, or the answer of one that asks nothing; `None` is the end of the script.
pub fn read_line<I: Source>(
    reader: &mut Reader,
    script: &mut I,
) -> Result<Option<Result<Event, Answer>>, Stop>
    requires count { reader.old.lines.count ≤ SCRIPT_BYTES }
    ensures came { Came (input (I.view script.old) reader.old.lines)
        (input (I.view script.new) reader.new.lines) result }
    ensures drawn { HasDrawn (input (I.view script.old) reader.old.lines)
        (input (I.view script.new) reader.new.lines) }
    ensures limit { result ≢ Err Stop.TooMuch → reader.new.lines.count ≤ SCRIPT_BYTES }
    ensures form { IsFormRead result }
{
    match reader.lines.next(script) {
        Ok(Some(Line::Whole(line))) => match parse_line(reader.alloc, line.as_slice()) {
            Ok(event) => Ok(Some(Ok(event))),
            Err(LineError::Bad(kind)) => Ok(Some(Err(Answer::Bad(kind)))),
            Err(LineError::Memory) => Err(Stop::Memory),
        },
        Ok(Some(Line::Long)) => Ok(Some(Err(Answer::Bad(Kind::Long)))),
        Ok(None) => Ok(None),
        Err(ReadError::Failed) => Err(Stop::Unread),
        Err(ReadError::TooMuch) => Err(Stop::TooMuch),
        Err(ReadError::Memory) => Err(Stop::Memory),
    }
}

/// Answers a line: its event, or with the answer of one that asks nothing. After want of memory the core is closed.
fn answer<S: SliceStore, K: Keeper>(
    core: &mut Core,
    shelf: &mut Shelf<S>,
    keeper: &mut K,
    line: Result<Event, Answer>,
) -> Result<Answer, OutOfMemory>
    requires number { line ≢ Ok Save → core.old.tables.kv.number < 2 ^ 63 }
    requires next_tx { line ≢ Ok Save → core.old.tables.next_tx < 2 ^ 63 }
    requires form { IsFormLine line }
    requires sound { IsSoundCore S.kind shelf.old core.old }
    ensures is { IfOk result (IsAnswer (engine S.kind)
        (step (stock shelf.old (K.view keeper.old)) (stock shelf.new (K.view keeper.new))
        core.old core.new) line) }
    ensures bad { IfErr line (λ bad. result ≡ Ok bad) }
    ensures follows { OnErr result (EachFollows S.kind shelf.old shelf.new []) }
    ensures keeper { KeeperGoesOn (K.view keeper.old) (K.view keeper.new) }
    ensures spares { LineSpares S.kind (K.follows keeper.old keeper.new) core.old.settings.servers
        (span (is_down core.old.replicas) shelf.old shelf.new) line (answer_of result) }
    ensures unkept { OnErr result (KeeperStays (K.view keeper.old) (K.view keeper.new)) }
{
    match line {
        Ok(event) => {
            let answer = core.take(shelf, keeper, event)?;
            Ok(answer)
        }
        Err(bad) => Ok(bad),
    }
}

/// Appends the line of an answer.
pub fn push_answer(answer: &Answer, text: &mut Vec<u8>) -> Result<(), OutOfMemory>
    ensures { OnOk result (text.new.items ≡ text.old.items ++ line_text answer.now) }
{
    print_answer(answer, text)?;
    text.push(b'\n')?;
    Ok(())
}

/// Appends the line of the settings, with the number of the installs so far.
fn push_settings(core: &Core, text: &mut Vec<u8>) -> Result<(), OutOfMemory>
    ensures { OnOk result (text.new.items ≡ text.old.items ++
        settings_line core.now.settings core.now.tables.kv.number) }
{
    print_settings(core.settings(), core.number(), text)?;
    text.push(b'\n')?;
    Ok(())
}

/// Answers a line, and writes the answer. `text` is kept from line to line.
fn turn<O: Sink, S: SliceStore, K: Keeper>(
    core: &mut Core,
    shelf: &mut Shelf<S>,
    keeper: &mut K,
    out: &mut O,
    text: &mut Vec<u8>,
    line: Result<Event, Answer>,
) -> Result<(), Stop>
    requires number { core.old.tables.kv.number < 2 ^ 63 }
    requires next_tx { core.old.tables.next_tx < 2 ^ 63 }
    requires form { IsFormLine line }
    requires sound { IsSoundCore S.kind shelf.old core.old }
    ensures turn { TurnDoes (engine S.kind) (K.follows keeper.old keeper.new)
        (step (stock shelf.old (K.view keeper.old)) (stock shelf.new (K.view keeper.new))
        core.old core.new)
        line (O.view out.old) (O.view out.new) result }
    ensures faults { (O.view out.old).faults ≤ (O.view out.new).faults }
    ensures keeper { KeeperGoesOn (K.view keeper.old) (K.view keeper.new) }
{
    let Ok(answer) = answer(core, shelf, keeper, line) else {
        return Err(Stop::Memory);
    };
    text.clear();
    let Ok(()) = push_answer(&answer, text) else {
        return Err(Stop::Memory);
    };
    match write_all(out, text.as_slice()) {
        Ok(()) => Ok(()),
        Err(_) => Err(Stop::Unwritten),
    }
}

/// Reads a line, answers it and writes its answer, before another line is read: whether it asked nothing. `None` is the
/// end of the script.
fn pass<I: Source, O: Sink, S: SliceStore, K: Keeper>(
    reader: &mut Reader,
    script: &mut I,
    core: &mut Core,
    shelf: &mut Shelf<S>,
    keeper: &mut K,
    out: &mut O,
    text: &mut Vec<u8>,
) -> Result<Option<bool>, Stop>
    requires count { reader.old.lines.count ≤ SCRIPT_BYTES }
    requires number { core.old.tables.kv.number < 2 ^ 63 }
    requires next_tx { core.old.tables.next_tx < 2 ^ 63 }
    requires sound { IsSoundCore S.kind shelf.old core.old }
    ensures { PassDoes (engine S.kind) (K.follows keeper.old keeper.new)
        (hand (input (I.view script.old) reader.old.lines) (O.view out.old)
        (stock shelf.old (K.view keeper.old)) core.old)
        (hand (input (I.view script.new) reader.new.lines) (O.view out.new)
        (stock shelf.new (K.view keeper.new)) core.new) result }
{
    let line = match read_line(reader, script) {
        Ok(Some(line)) => line,
        Ok(None) => return Ok(None),
        Err(stop) => return Err(stop),
    };
    let bad = line.is_err();
    match turn(core, shelf, keeper, out, text, line) {
        Ok(()) => Ok(Some(bad)),
        Err(stop) => Err(stop),
    }
}

/// Whether one of two holds.
pub fn either(a: bool, b: bool) -> bool
    ensures { result ≡ (a || b) }
{
    a || b
}

/// The status of a run that read its script to the end.
pub fn ended(bad: bool) -> u8
    ensures { result ≡ end_status bad }
{
    if bad { BAD_LINES } else { FINISHED }
}

/// Saves the tree at the end of a script.
fn close<S: SliceStore, K: Keeper>(
    core: &mut Core,
    shelf: &mut Shelf<S>,
    keeper: &mut K,
    bad: bool,
) -> u8
    requires sound { IsSoundCore S.kind shelf.old core.old }
    ensures closes { Closes (engine S.kind)
        (step (stock shelf.old (K.view keeper.old)) (stock shelf.new (K.view keeper.new))
        core.old core.new) bad result }
    ensures follows { EachFollows S.kind shelf.old shelf.new [] }
    ensures keeper { KeeperGoesOn (K.view keeper.old) (K.view keeper.new) }
    ensures spares { EndSpares S.kind (K.follows keeper.old keeper.new) core.old.settings.servers
        (span (is_down core.old.replicas) shelf.old shelf.new) result }
{
    let Ok(answer) = answer(core, shelf, keeper, Ok(Event::Save)) else {
        return OUT_OF_MEMORY;
    };
    match answer {
        Answer::Saved(_) => ended(bad),
        _ => SAVING_FAILED,
    }
}

/// Ends a run behind the last line of its script: the tree is saved once all that was written is out.
fn finish<O: Sink, S: SliceStore, K: Keeper>(
    core: &mut Core,
    shelf: &mut Shelf<S>,
    keeper: &mut K,
    out: &mut O,
    bad: bool,
) -> u8
    requires sound { IsSoundCore S.kind shelf.old core.old }
    ensures ends { Ends (engine S.kind)
        (step (stock shelf.old (K.view keeper.old)) (stock shelf.new (K.view keeper.new))
        core.old core.new)
        (O.view out.old) (O.view out.new) bad result }
    ensures follows { EachFollows S.kind shelf.old shelf.new [] }
    ensures keeper { KeeperGoesOn (K.view keeper.old) (K.view keeper.new) }
    ensures spares { EndSpares S.kind (K.follows keeper.old keeper.new) core.old.settings.servers
        (span (is_down core.old.replicas) shelf.old shelf.new) result }
{
    let Ok(()) = bring_out(out) else {
        return WRITING_FAILED;
    };
    let status = close(core, shelf, keeper, bad);
    status
}

/// Answers a script: loads what the keeper holds, writes the settings, and one answer a line, and saves the tree at the
/// end, once all of that is out. What the keeper holds has settings of its own, which win over those that are asked for. An image that breaks a
/// rule is refused, and stays on the keeper. With fewer stores than servers nothing is read and nothing is written.
pub fn serve<I: Source, O: Sink, S: SliceStore, K: Keeper>(
    alloc: Global,
    settings: Settings,
    script: &mut I,
    out: &mut O,
    shelf: &mut Shelf<S>,
    keeper: &mut K,
) -> u8
    ensures served { IsRunWith S.kind (K.follows keeper.old keeper.new) settings result
        (devices (I.view script.old) (O.view out.old) shelf.old (K.view keeper.old))
        (devices (I.view script.new) (O.view out.new) shelf.new (K.view keeper.new)) }
    ensures unread { result ≡ 2 → script.new ≡ script.old }
    ensures unwritten { result ≡ 2 → out.new ≡ out.old }
    ensures untouched { result ≡ 2 → shelf.new ≡ shelf.old }
    ensures unkept { result ≡ 2 → K.follows keeper.old keeper.new [] }
    ensures handed { HandsOver (K.follows keeper.old keeper.new) }
{
    let mut core = match open(alloc, settings, out, shelf, keeper) {
        Ok(core) => core,
        Err(status) => return status,
    };
    let Ok(lines) = Lines::new(alloc) else {
        return OUT_OF_MEMORY;
    };
    let mut reader = Reader { alloc, lines };
    let mut text = Vec::new(alloc);
    let Ok(()) = push_settings(&core, &mut text) else {
        return OUT_OF_MEMORY;
    };
    let Ok(()) = write_all(out, text.as_slice()) else {
        return WRITING_FAILED;
    };
    let mut bad = false;
    loop {
        match pass(
            &mut reader,
            script,
            &mut core,
            shelf,
            keeper,
            out,
            &mut text,
        ) {
            Ok(Some(more)) => bad = either(bad, more),
            Ok(None) => return finish(&mut core, shelf, keeper, out, bad),
            Err(stop) => return stop.status(),
        }
    }
}
