//! The machine of the definitions as a program: it says of each event and answer whether the answer is
//! lawful, and goes on with those that are. Slow and plain, over trees of bytes; what it must do stands in the
//! specs of `wtf_model`.
//!
//! `Machine::new` is the machine before the first event, with the root alone. `step` takes an answer exactly
//! where the definitions allow it there (`lawful`: `May`), and is the machine behind it then (`next`); where it
//! does not, or memory could not be had, it is as it was (`stays`, `err`). So whoever steps through the events
//! and answers of a run learns whether the run is lawful.
//!
//! Nothing of the store is used here: no slices, no versions, no log. A transaction is its calls, which are run
//! on a tree of bytes whenever an answer asks for it.
#![tactic(auto)]

mod answers;
mod begun;
mod bytes;
mod calls;
mod clients;
mod downs;
mod faults;
mod file_paths;
mod handles;
mod items;
mod jobs;
mod joins;
mod labels;
mod log;
mod machine;
mod names;
mod path_map;
mod planning;
mod reads;
mod runs;
mod scans;
mod slices;
mod system;
mod verbs;
mod workspace;

pub use machine::Machine;
