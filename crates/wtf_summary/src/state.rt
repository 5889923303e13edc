//! What a sink that sums up keeps, beside the sink that it shows on.

ghost use Rattle.std.specs.Prelude.{◌≡◌, ◌≢◌, ℕ, ◌≤◌, ◌++◌, List, [], true, false};
ghost use Rattle.wtf_dev.specs.Counts.{risen};
ghost use Rattle.wtf_summary.specs.Summaries.{summary};
ghost use Rattle.wtf_summary.specs.Tallies.{Tallies};
ghost use Rattle.wtf_summary.specs.States.{SinkStands};
ghost use Rattle.wtf_summary.specs.Steps.{BringsOut, ShowsSummary, TakesByte};
ghost use Rattle.wtf_summary.specs.Traces.{numbers_of};

use crate::passing::pass;
use crate::tally::Tally;
use crate::text;
use crate::trace::{self, Trace};
use boxcar::tag::Tag;
use wtf_dev::{Failed, Sink};

/// What is kept of a run.
#[derive(Drop)]
pub(crate) struct State {
    /// How many lines behind the first are summed up.
    pub lines: u64,
    /// The first line is complete.
    pub begun: bool,
    /// The lines behind the first.
    pub tally: Tally,
    /// How many writes failed.
    pub faults: u64,
    pub trace: Trace,
}

impl State {
    /// The state of a run that begins.
    pub(crate) fn new<O: Sink>(out: &O, lines: u64) -> State
        requires { 1 ≤ lines }
        ensures sound { SinkStands (O.view out.now) result }
        ensures lines { result.lines ≡ lines }
        ensures first { result.trace.first.numbers ≡ numbers_of (O.view out.now) }
        ensures text { result.trace.text.numbers ≡ [] }
        ensures faults { result.faults ≡ 0 }
    {
        State {
            lines,
            begun: false,
            tally: Tally::new(),
            faults: 0,
            trace: Trace::of(out),
        }
    }

    /// Counts a write that failed.
    fn fail(&mut self) -> Failed
        ensures { self.new ≡ record self.old { faults = risen self.old.faults } }
    {
        self.faults = self.faults.saturating_add(1);
        Failed
    }

    /// Remembers that these bytes were taken.
    fn take(&mut self, bytes: &[u8])
        ensures text { self.new.trace.text.numbers ≡ self.old.trace.text.numbers ++ bytes.now }
        ensures same { self.new ≡ record self.old { trace = record self.old.trace { text = self.new.trace.text } } }
    {
        self.trace.text = trace::and(&self.trace.text, bytes);
    }
}

/// Shows a byte of the first line.
fn show_first<O: Sink>(out: &mut O, state: &mut State, byte: u8) -> Result<(), Failed>
    requires sound { SinkStands (O.view out.old) state.old }
    requires whole { state.old.faults ≡ 0 }
    requires first { state.old.begun ≡ false }
    ensures { TakesByte (O.view out.new) state.old state.new byte result }
{
    let bytes = [byte];
    match out.write(bytes.as_slice()) {
        Err(_) => Err(state.fail()),
        Ok(_) => {
            state.begun = byte == b'\n';
            state.trace.seen = trace::and(&state.trace.seen, bytes.as_slice());
            state.take(bytes.as_slice());
            Ok(())
        }
    }
}

/// Writes the summary, which the byte `last` completed.
fn show_summary<O: Sink>(out: &mut O, state: &mut State, last: u8) -> Result<(), Failed>
    ensures told { (text : List ℕ) → Tallies state.old.tally text →
        ShowsSummary (O.view out.old) (O.view out.new) (summary text) last state.old state.new result }
{
    let text = text::summary(&state.tally);
    let taken = pass(out, text.as_slice());
    let (front, rest) = text.as_slice().split_at(taken);
    state.trace.seen = trace::and(&state.trace.seen, front);
    if rest.is_empty() {
        return Ok(());
    }
    state.trace.rest = trace::and(&Tag::empty(), rest);
    state.trace.more = trace::and(&Tag::empty(), [last].as_slice());
    Err(state.fail())
}

/// Takes a byte of the lines behind the first.
fn sum_up<O: Sink>(out: &mut O, state: &mut State, byte: u8) -> Result<(), Failed>
    requires sound { SinkStands (O.view out.old) state.old }
    requires whole { state.old.faults ≡ 0 }
    requires behind { state.old.begun ≡ true }
    requires open { state.old.tally.counts.lines ≢ state.old.lines }
    ensures { TakesByte (O.view out.new) state.old state.new byte result }
{
    let lines = state.lines;
    state.tally.take(byte);
    if state.tally.counts.lines < lines {
        state.take([byte].as_slice());
        return Ok(());
    }
    match show_summary(out, state, byte) {
        Err(e) => Err(e),
        Ok(()) => {
            state.take([byte].as_slice());
            Ok(())
        }
    }
}

/// Takes a byte.
pub(crate) fn advance<O: Sink>(out: &mut O, state: &mut State, byte: u8) -> Result<(), Failed>
    requires sound { SinkStands (O.view out.old) state.old }
    ensures { TakesByte (O.view out.new) state.old state.new byte result }
{
    if state.faults > 0 {
        return Err(state.fail());
    }
    if !state.begun {
        return show_first(out, state, byte);
    }
    if state.tally.counts.lines == state.lines {
        state.take([byte].as_slice());
        return Ok(());
    }
    sum_up(out, state, byte)
}

/// Has the other sink bring out what it holds back.
pub(crate) fn bring_out<O: Sink>(out: &mut O, state: &mut State) -> Result<(), Failed>
    requires sound { SinkStands (O.view out.old) state.old }
    ensures { BringsOut (O.view out.new) state.old state.new result }
{
    if state.faults != 0 {
        return Err(state.fail());
    }
    match out.write(&[]) {
        Err(_) => Err(state.fail()),
        Ok(_) => Ok(()),
    }
}
