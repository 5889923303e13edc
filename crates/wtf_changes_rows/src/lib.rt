//! Tests, from outside, of changes as bytes, and of images with changes made in them.
#![tactic(auto)]

#[cfg(test)]
mod applied;
#[cfg(test)]
mod changes;
