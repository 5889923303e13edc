//! Tests, from outside, of lists of pointers and versions.
#![tactic(auto)]

#[cfg(test)]
mod chunks;
#[cfg(test)]
mod counts;
#[cfg(test)]
mod kv;
#[cfg(test)]
mod meta;
#[cfg(test)]
mod occ;
#[cfg(test)]
mod overlay;
#[cfg(test)]
mod parts;
#[cfg(test)]
mod spillfmt;
#[cfg(test)]
mod values;
