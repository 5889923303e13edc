//! Tests, from outside, of the language of scripts, and what stands below it.
#![tactic(auto)]

#[cfg(test)]
mod base;
#[cfg(test)]
mod generated;
#[cfg(test)]
mod log;
#[cfg(test)]
mod model;
#[cfg(test)]
mod path;
#[cfg(test)]
mod print;
#[cfg(test)]
mod script;
#[cfg(test)]
mod texts;
#[cfg(test)]
mod words;
