//! Scripts that are made from a number: the same number gives the same lines. They name few clients, files,
//! handles and labels, so that calls meet.
//!
//! The state is a number of 64 bits, and starts as the number given. To draw a number below `m` sets the state
//! to itself * 6364136223846793005 + 1442695040888963407 modulo 2^64, and gives the state, shifted right by
//! 33, modulo `m`. Each line draws the client `c0` to `c7`, then the kind of line, below 24, and then what
//! stands in it, from left to right: handles `f0` to `f3`, files `/g0` to `/g7`, labels `s0` to `s3`, jobs `j0`
//! and `j1`, numbers in decimal, and bytes, each below 256, as `x:` and two lower-case hexadecimal digits a
//! byte; how many there are is drawn before them, as 1 and a number below 64. The kinds, in order:
//! `begin` (2 of the 24), `try`, `commit`, `step`, `abort`, `create /gK`, `open fH /gK` (2),
//! `write fH BYTES` (2), `append fH BYTES`, `read fH N` (below 256), `seek fH set N` (below 1024),
//! `yank fH N sL` (below 256), `paste fH sL`, `glue fH sL`, `punch fH N` (below 128), `truncate fH N`
//! (below 1024), `peek sL 0 N` (below 16), `stat /gK`, `copy /gK /gM`, `unlink /gK`, and a line to the system.
//! That one begins with `sys` in place of the client, and draws a number below 6: `plan jJ compact /gK 0`,
//! `plan jJ spill /gK 0`, `put jJ`, `scan`, `piece 64`, `collect 0`. specs/Lines.antt has the same as
//! definitions.
#![tactic(auto)]

mod examples;
mod generator;
mod line;
mod pen;
mod script;
mod verb;

pub use generator::Gen;
pub use script::GeneratedScript;
