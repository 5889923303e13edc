//! The script, read line by line.

ghost use Rattle.std.specs.Prelude.{◌<◌, ℕ, List};
ghost use Rattle.wtf_dev.specs.Streams.{SourceView};
ghost use Rattle.wtf_script.specs.Reading.{work};
ghost use Rattle.wtf_checker.specs.Reading.{Asks, IsMore, IsReading, IsFormNext, HasLess, Next, ReadAll};

use crate::stop::Stop;
use std::alloc::Global;
use wtf_dev::Source;
use wtf_model::{Event, Kind};
use wtf_script::{Line, LineError, Lines, ReadError, parse_line};

/// What the lines of a script are read with.
#[derive(Drop)]
pub(crate) struct Reader {
    pub(crate) alloc: Global,
    pub(crate) lines: Lines,
}

/// What a line that was read asks: its event, or what is wrong with it; `None` is the end of the script.
fn asked_by(
    alloc: Global,
    got: Result<Option<Line>, ReadError>,
) -> Result<Option<Result<Event, Kind>>, Stop>
    ensures asks { Asks got result }
    ensures form { IsFormNext result }
{
    match got {
        Ok(Some(Line::Whole(line))) => match parse_line(alloc, line.as_slice()) {
            Ok(event) => Ok(Some(Ok(event))),
            Err(LineError::Bad(kind)) => Ok(Some(Err(kind))),
            Err(LineError::Memory) => Err(Stop::Memory),
        },
        Ok(Some(Line::Long)) => Ok(Some(Err(Kind::Long))),
        Ok(None) => Ok(None),
        Err(ReadError::Failed) => Err(Stop::Unread),
        Err(ReadError::TooMuch) => Err(Stop::TooMuch),
        Err(ReadError::Memory) => Err(Stop::Memory),
    }
}

/// Reads the next line.
pub(crate) fn read_line<I: Source>(
    reader: &mut Reader,
    script: &mut I,
) -> Result<Option<Result<Event, Kind>>, Stop>
    ensures next { (start : SourceView) (lines : List (List ℕ)) →
        IsReading start (I.view script.old) reader.old.lines lines →
        Next start (I.view script.new) reader.new.lines lines result }
    ensures less { HasLess reader.old.lines reader.new.lines result }
    ensures form { IsFormNext result }
{
    let got = reader.lines.next(script);
    let asked = asked_by(reader.alloc, got);
    asked
}

/// Whether there was a line.
fn is_more(asked: &Result<Option<Result<Event, Kind>>, Stop>) -> Result<bool, Stop>
    ensures { IsMore asked.now result }
{
    match asked {
        Ok(Some(_)) => Ok(true),
        Ok(None) => Ok(false),
        Err(stop) => Err(*stop),
    }
}

/// Reads a script to its end.
pub(crate) fn skip<I: Source>(reader: &mut Reader, script: &mut I) -> Result<(), Stop>
    ensures { (start : SourceView) (lines : List (List ℕ)) →
        IsReading start (I.view script.old) reader.old.lines lines →
        ReadAll start (I.view script.new) reader.new.lines result }
{
    loop {
        let asked = read_line(reader, script);
        let more = is_more(&asked);
        drop(asked);
        match more {
            Ok(true) => {}
            Ok(false) => return Ok(()),
            Err(stop) => return Err(stop),
        }
    }
}
