//! The line of a state.

ghost use Rattle.std.specs.Prelude.{◌≡◌, ◌+◌, ◌<◌, ◌≤◌, length};
ghost use Rattle.wtf_gen.specs.Lines.{call, asked, client_line, system_line, line_draft, verb_of, blank};

use crate::pen::{Pen, ROOM};
use crate::verb::{Verb, verb_of};

/// Writes a verb with its arguments.
#[tactic(auto, unfolding(crate::specs::Lines::call))]
fn call(pen: &mut Pen, verb: Verb)
    requires { length pen.old.text + 150 ≤ ROOM }
    ensures value { pen.new ≡ call verb pen.old }
    ensures len { length pen.new.text ≤ length pen.old.text + 150 }
{
    match verb {
        Verb::Begin => pen.put(b" begin"),
        Verb::Attempt => pen.put(b" try"),
        Verb::Commit => pen.put(b" commit"),
        Verb::Step => pen.put(b" step"),
        Verb::Abandon => pen.put(b" abort"),
        Verb::Create => {
            pen.put(b" create");
            pen.file();
        }
        Verb::Open => {
            pen.put(b" open");
            pen.handle();
            pen.file();
        }
        Verb::Write => {
            pen.put(b" write");
            pen.handle();
            pen.bytes();
        }
        Verb::Append => {
            pen.put(b" append");
            pen.handle();
            pen.bytes();
        }
        Verb::Read => {
            pen.put(b" read");
            pen.handle();
            pen.amount(256);
        }
        Verb::Seek => {
            pen.put(b" seek");
            pen.handle();
            pen.put(b" set");
            pen.amount(1024);
        }
        Verb::Yank => {
            pen.put(b" yank");
            pen.handle();
            pen.amount(256);
            pen.label();
        }
        Verb::Paste => {
            pen.put(b" paste");
            pen.handle();
            pen.label();
        }
        Verb::Glue => {
            pen.put(b" glue");
            pen.handle();
            pen.label();
        }
        Verb::Punch => {
            pen.put(b" punch");
            pen.handle();
            pen.amount(128);
        }
        Verb::Truncate => {
            pen.put(b" truncate");
            pen.handle();
            pen.amount(1024);
        }
        Verb::Peek => {
            pen.put(b" peek");
            pen.label();
            pen.put(b" 0");
            pen.amount(16);
        }
        Verb::Stat => {
            pen.put(b" stat");
            pen.file();
        }
        Verb::Copy => {
            pen.put(b" copy");
            pen.file();
            pen.file();
        }
        Verb::Unlink => {
            pen.put(b" unlink");
            pen.file();
        }
    }
}

/// Writes what is asked of the system, by a number below 6.
#[tactic(auto, unfolding(crate::specs::Lines::asked))]
fn asked(pen: &mut Pen, u: u64)
    requires { length pen.old.text + 40 ≤ ROOM }
    ensures value { pen.new ≡ asked u pen.old }
    ensures len { length pen.new.text ≤ length pen.old.text + 40 }
{
    match u {
        0 => {
            pen.put(b" plan");
            pen.job();
            pen.put(b" compact");
            pen.file();
            pen.put(b" 0");
        }
        1 => {
            pen.put(b" plan");
            pen.job();
            pen.put(b" spill");
            pen.file();
            pen.put(b" 0");
        }
        2 => {
            pen.put(b" put");
            pen.job();
        }
        3 => pen.put(b" scan"),
        4 => pen.put(b" piece 64"),
        _ => pen.put(b" collect 0"),
    }
}

/// The line of a client, by the client and the number of the verb.
#[tactic(auto, unfolding(crate::specs::Lines::client_line))]
fn client_line(client: u64, v: u64, state: u64) -> Pen
    requires { client < 8 }
    ensures value { result ≡ client_line client v state }
    ensures len { length result.text < ROOM }
{
    let mut pen = Pen::new(state);
    pen.put(b"c");
    pen.digits(client);
    call(&mut pen, verb_of(v));
    pen
}

/// A line to the system.
#[tactic(auto, unfolding(crate::specs::Lines::system_line))]
fn system_line(state: u64) -> Pen
    ensures value { result ≡ system_line state }
    ensures len { length result.text < ROOM }
{
    let mut pen = Pen::new(state);
    let u = pen.draw(6);
    pen.put(b"sys");
    asked(&mut pen, u);
    pen
}

/// The line of a state, and the state behind it.
#[tactic(auto, unfolding(crate::specs::Lines::line_draft))]
pub(crate) fn line_of(state: u64) -> Pen
    ensures value { result ≡ line_draft state }
    ensures len { length result.text < ROOM }
{
    let mut pen = Pen::new(state);
    let client = pen.draw(8);
    let v = pen.draw(24);
    if v == 23 {
        return system_line(pen.state());
    }
    client_line(client, v, pen.state())
}
