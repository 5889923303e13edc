//! The outside of a store: where its script comes from, where its answers go, the files of each server, and
//! the keeper of its image; and a disk, whose writes are pending until they are synced. Each trait has a
//! count of faults that never falls, and a call answers `Failed` only where the count rose in it. The devices
//! in memory tell what they hold, and fail where they are told to; a real device need not tell its content.
//!
//! `Source` gives bytes and `Sink` takes them. `SliceStore` is eight files that only grow: bytes are appended,
//! read, freed in place (which makes them zeros), and synced. `Keeper` holds one image, which is replaced whole.
//! `Disk` is eight files in which bytes are written at any place; of those that are pending a stop may leave
//! any. `Shelf` is 1 to 16 stores, by server.
//!
//! Contracts see a device by its *view*: the count of faults, lengths, how often it was synced, and the bytes
//! where the device tells them. What each call does is said of the view; that of a device which tells nothing
//! is silent on bytes. A store, a keeper and a disk also have a relation from an earlier state to a later one
//! (`follows`) that every call keeps: lengths do not fall, and what lasts goes on to last but where it was freed.
//!
//! `MemSource`, `MemSink`, `MemStore`, `MemKeeper` and `MemDisk` are each of these in memory, with the numbers of
//! the calls that are to fail. What they promise is what the traits do, and that they tell.
#![tactic(auto)]

mod disk;
mod disk_call;
pub mod examples;
mod fault;
mod files;
mod keeper;
mod leftover;
mod mem_disk;
mod mem_keeper;
mod mem_sink;
mod mem_source;
mod mem_store;
mod shelf;
mod store;
mod stream;
mod tape;
mod turns;

pub use disk::Disk;
pub use disk_call::DiskCall;
pub use fault::{Failed, LoadFault};
pub use keeper::Keeper;
pub use mem_disk::MemDisk;
pub use mem_keeper::MemKeeper;
pub use mem_sink::MemSink;
pub use mem_source::MemSource;
pub use mem_store::MemStore;
pub use shelf::Shelf;
pub use store::SliceStore;
pub use stream::{Sink, Source};
