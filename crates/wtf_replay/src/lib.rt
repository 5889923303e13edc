//! Transactions: each sees the map at its base with its own changes, and logs its calls with what
//! was shown of them. Where others have changed what it read, its calls are made once more on the
//! map as it is then, and must show the same (NSDI 2016, section 2.6).
//!
//! `Txn` is one: its number, its attempt, whose base it has pinned, what it has in hand, and its log. Each verb
//! has one record of what it does with what it is lent (`specs/Verbs`).
//!
//! `call` makes a call of any kind and logs it with its answer, and with the slice that it stored (`CallOf`).
//! It is refused while a replay runs, and where the log is full.
//! `attempt` installs all changes as the next number where no key is in the way. Else it begins again at the
//! number of installs, with all calls to be replayed: then some recorded key has changed since the base, or a
//! change does not fit (`AttemptOf`).
//! `step` replays one call, and ends the transaction where it answers otherwise than was shown (`StepOf`).
//! `commit` does all that is left at once: it installs, or replays on the map now and installs, or aborts
//! (`CommitOf`). An abort comes only where a call answers otherwise than was shown.
//!
//! The rule: where the stores tell what the map names, the log stands for calls of the definitions, which
//! answer on the tree of the base what was shown (`meaning`). So a commit installs what its calls do on the
//! tree that is there then. A replay stores nothing. Want of memory and a fault leave what the store of
//! versions shows; a fault leaves the transaction, and has its cause in the call that met it.
#![tactic(auto)]

mod commit;
mod names;
mod ops;
mod replay;
mod txn;

pub use txn::Txn;
