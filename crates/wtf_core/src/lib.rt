//! The core: the store of the metadata with the transactions and jobs that are open on it. Each line of a
//! script is one atomic step; its answers are those of one tree on which committed transactions ran whole, one
//! by one (NSDI 2016, sections 2.6 to 2.8).
//!
//! `Core` is begun with the root alone (`new`), or with an image over stores (`load`), and stands for the
//! machine with that tree (`stands`). `take` answers one line of any kind, which it takes by value, so that a
//! call's bytes and paths are not copied; `event` answers one that is lent, and `save` does as the line does.
//!
//! What these promise is three records of `specs/Promises`. Of a line that is answered (`does`): where the
//! stores tell, and the tree is small (`IsSmall`), the machine may give that answer; a fault has its cause
//! in this line, the stores grew by what the line writes, a collection alone punches, and only what nothing
//! names; a save alone hands the keeper something, once all stores are synced, and what the keeper holds
//! goes on being an image with which a run can begin. Of one that wants memory (`fails`): the metadata are
//! as they were, and the core is closed. Of either (`stays`): no store of a server that is down is touched,
//! only a save syncs, and no file grows but the one to which bytes of the line were to go.
//!
//! A core that is closed answers no more. Giving up a transaction, and a server's going down or coming up, take
//! no memory (`sure`).
//!
//! `watch` keeps the map at the number of installs readable, and `record` tells what installs changed since, as
//! bytes that can be made in an image (`IsRecordOf`); with no install since then it tells nothing, and takes no
//! memory (`none`, `sure`).
#![tactic(auto)]

mod copies;
mod recording;
mod store;
mod tree;
mod verbs;

pub use store::Core;
