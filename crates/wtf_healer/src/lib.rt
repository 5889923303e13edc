//! The healer: after servers were lost, it stores anew what fewer servers hold than an image's settings
//! ask for, and hands the image of that to the keeper. The tree stays, and no stored byte is changed.
//!
//! `wtf_heal` is the whole program over any stores and keeper: its words name the lost servers. Nothing is read
//! from those, whose stores may be empty, and they stay as they were (`lost`).
//!
//! A slice is sparse where one of its copies lies on a lost server, or where it has fewer copies than the
//! settings ask for. A region that names a sparse slice becomes a compact list, of which each sparse part is
//! read from a copy that is left and stored anew, on as many servers as there are replicas; what is not sparse
//! is named as before. The list under it is read, and stands in that compact list too.
//!
//! The rule: with status 0, where stores and keeper tell, the keeper holds an image that breaks no rule over
//! the stores as they are left, with the settings and the tree that were left, and no slice of it is sparse
//! (`healed`). With each status nothing is handed to the keeper, or one image: that of a whole pass, behind
//! whose last byte all stores that are left were synced (`handed`). Stores only grow, and nothing is punched
//! (`follows`).
//!
//! How a run ends is one clause (`over`), over devices that tell nothing too: what it came to and why, what was
//! written of just that, and what the keeper was handed. The other clauses say what follows for one status; the
//! two lines count just what was to be healed. Where no device failed, and the stores of the image's servers
//! tell what was left, no status comes but 0, 2, 6 and 7 (`complete`).
//!
//! While a pass goes on a second sink is given the two lines of what is healed so far, each time another 256
//! regions are, and nothing else (`progress`, `silent`, `idle`).
#![tactic(auto)]

mod base;
mod ends;
mod entries;
pub mod examples;
mod lines;
mod lost;
mod pass;
mod program;
mod regions;
mod sparse;
mod words;

pub use ends::{
    HEALED, IMAGE_REFUSED, LOADING_FAILED, NOT_HEALED, OUT_OF_MEMORY, SAVING_FAILED, WORDS_REFUSED,
    WRITING_FAILED,
};
pub use program::wtf_heal;
