//! The sink.

ghost use Rattle.std.specs.Prelude.{◌≡◌, ◌≤◌, [], Some};
ghost use Rattle.wtf_summary.specs.States.{SinkStands, SinkStands_prop, told};
ghost use Rattle.wtf_summary.specs.Traces.{numbers_of};

use crate::state::{State, advance, bring_out};
use wtf_dev::{Failed, Sink};

/// A sink that shows the first line that is written to it on another sink, and of the lines behind it only their
/// summary, once so many of them came; bytes behind those are taken, and are not shown. A write of no byte is handed on.
/// After a write that failed each further one fails too.
#[derive(Drop)]
pub struct Summarizing<'a, O: Sink> {
    out: &'a mut O,
    state: State,
    ghost sound: { SinkStands (O.view out.now) state } by { SinkStands_prop (O.view out.now) state },
}

impl<'a, O: Sink> Summarizing<'a, O> {
    /// A sink that shows on another one, with a summary of the `lines` lines behind the first.
    pub fn new(out: &'a mut O, lines: u64) -> Summarizing<'a, O>
        requires { 1 ≤ lines }
        ensures same_sink { result.out.ghost_name ≡ out.entry.ghost_name }
        ensures untouched { result.out.now ≡ out.old }
        ensures lines { result.state.lines ≡ lines }
        ensures first { result.state.trace.first.numbers ≡ numbers_of (O.view out.old) }
        ensures text { result.state.trace.text.numbers ≡ [] }
        ensures faults { result.state.faults ≡ 0 }
    {
        let state = State::new(&*out, lines);
        Summarizing { out, state }
    }

    /// How many writes failed.
    pub fn faults(&self) -> u64
        ensures { result ≡ self.now.state.faults }
    {
        self.state.faults
    }

    /// Ends the run, and answers how many writes failed.
    pub fn finish(self) -> u64
        ensures faults { result ≡ self.entry.state.faults }
        ensures kept { self.exit.0.now ≡ self.entry.out.now }
    {
        let Summarizing { out, state } = self;
        let _ = &out;
        state.faults
    }
}

impl<'a, O: Sink> Sink for Summarizing<'a, O> {
    ghost view = { λ w. record { faults = w.state.faults; taken = Some (told w.out.ghost_name w.state) } };

    fn write(&mut self, bytes: &[u8]) -> Result<usize, Failed> {
        let Some(byte) = bytes.first() else {
            bring_out(self.out, &mut self.state)?;
            return Ok(0);
        };
        advance(self.out, &mut self.state, *byte)?;
        Ok(1)
    }
}
