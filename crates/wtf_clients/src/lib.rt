//! The transactions of clients: the store of the metadata with the transactions that are open on it, what each
//! line of a client makes of them, the jobs beside them, and which images of it may be on the keeper (NSDI
//! 2016, sections 2.6 to 2.8).
//!
//! `Tables` holds all that a run keeps in memory but for the servers: the versions of all keys, the number of
//! the transaction that begins next, the open transactions by client, jobs by label, scans, the numbers of
//! images that may be on the keeper, and the number that is watched. Each line that a client says has a
//! function here, and each of jobs, scans, collections, saves and dumps.
//!
//! What always holds (`AreSound`): a number is pinned once for each transaction and job that has it as its
//! base, each image that may be on the keeper, each pin of the scan that runs, and where it is watched; and
//! each open transaction's changes fit at its base.
//!
//! Each line says what it makes of the tables by one record for its kind (`specs/Turns`, `specs/JobTurns`): a
//! client's line leaves all other clients as they were, a refusal and a fault leave what is seen, a begin takes
//! the next number, a commit installs what its calls did, and a put its job's value. What is named lies inside
//! the stores behind each line; and the tables stand for the machine's where they did before and the stores
//! tell.
//!
//! A line leaves alone what it does not need (`specs/Leaving`): stores of servers that are down and of no server
//! of the settings, all syncs but in a save, and all files but the one in which its bytes were to be stored, which
//! grows by these once at most. Each list of a region that it asked for was remembered or was read, and is
//! remembered (`Recalled`), behind an abort too.
//!
//! No byte that was freed, or is garbage, is named (`specs/Safe`, `IsSafe`): by no map that can be read, no
//! open transaction and no job. So a scan waits for the transactions and jobs that were open when the last one
//! began. `tidy` drops versions that no one sees. Want of memory leaves what is seen of the tables, but that a
//! part of a scan may drop such versions; giving up a transaction or a job takes none.
#![tactic(auto)]

mod beside;
mod dump;
mod faults;
mod regions;
mod saving;
mod tables;

pub use tables::Tables;
