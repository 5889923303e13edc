//! Rows: lines with the answers that the machine allows and that the program gives, in one table for the tests of both.
//!
//! A line and its answer stand on one line, with ` => ` between; ` =/> ` stands before an answer that the machine refuses there,
//! and the program is not asked such a line.
#![tactic(auto)]

pub mod clients;
pub mod examples;
pub mod files;
pub mod jobs;
pub mod links;
pub mod row;
pub mod scans;
pub mod slices;
