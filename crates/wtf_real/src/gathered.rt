//! What is written, held back until it is asked for or there is no room for more.

ghost use Rattle.std.specs.Prelude.{◌≡◌, ◌≤◌, ◌<◌, [], true, false, length, take, IfOk, OnOk};
ghost use Rattle.std.specs.Result.{is_err};
ghost use Rattle.std.specs.Io.KnownBytes.{Appends, Keeps};
ghost use Rattle.wtf_real.specs.Gathers.{all_of};

use crate::OpenFault;
use std::alloc::Global;
use std::io::Write;
use std::marker::Model;
use wtf_dev::Failed;

/// The greatest number of bytes that are held back.
pub(crate) const ROOM: usize = 65_536;

/// A writer, and what it is to get next. After a write that failed it takes no more.
#[derive(Drop)]
pub(crate) struct Gathered<W> {
    to: W,
    held: Vec<u8>,
    broken: bool,
}

impl<W> Model for Gathered<W> {
    ghost use Rattle.std.specs.Prelude.{◌≤◌, length, vec_capacity};
    ghost use Rattle.wtf_real.specs.Gathers.{Gather};

    ghost Value = { Gather W };

    ghost view = { λ g. record { to = g.to; held = g.held.items; broken = g.broken } };

    ghost invariant = { λ g. (length g.held.items ≤ 65536) × (65536 ≤ vec_capacity g.held) };
}

impl<W: Write + Drop> Gathered<W> {
    /// Nothing is held back, and the room is taken.
    pub(crate) fn new(alloc: Global, to: W) -> Result<Gathered<W>, OpenFault>
        ensures { IfOk result (λ g. g ≡ record { to = to; held = []; broken = false }) }
    {
        match Vec::with_capacity(alloc, ROOM) {
            Ok(held) => Ok(Gathered {
                to,
                held,
                broken: false,
            }),
            Err(_) => Err(OpenFault::Memory),
        }
    }

    /// Takes the first of these bytes, as many as there is room for, and answers how many. Where there is no room, or there
    /// is no byte, what is held is written first.
    pub(crate) fn hold(&mut self, bytes: &[u8]) -> Result<usize, Failed>
        ensures count { IfOk result (λ n. n ≤ length bytes.now) }
        ensures some { IfOk result (λ n. 0 < length bytes.now → 0 < n) }
        ensures taken { IfOk result (λ n.
            Appends (all_of W.contents self.old) (all_of W.contents self.new) (take n bytes.now)) }
        ensures out { OnOk result (bytes.now ≡ [] → (self.new.held ≡ []) ×
            Keeps (all_of W.contents self.old) (all_of W.contents self.new)) }
        ensures broken { self.new.broken ≡ is_err result }
        ensures no_more { self.old.broken ≡ true → is_err result ≡ true }
    {
        if self.broken {
            return Err(Failed);
        }
        if bytes.is_empty() {
            self.write_held()?;
            return Ok(0);
        }
        if self.held.len() == ROOM {
            self.write_held()?;
        }
        let n = bytes.len().min(ROOM - self.held.len());
        match self.held.extend_from_slice(&bytes[..n]) {
            Ok(()) => Ok(n),
            Err(_) => Err(self.give_up()),
        }
    }

    /// Writes what is held back.
    pub(crate) fn write_held(&mut self) -> Result<(), Failed>
        ensures out { OnOk result (self.new.held ≡ []) }
        ensures same { OnOk result
            (Keeps (all_of W.contents self.old) (all_of W.contents self.new)) }
        ensures broken { self.new.broken ≡ is_err result }
        ensures no_more { self.old.broken ≡ true → is_err result ≡ true }
    {
        if self.broken {
            return Err(Failed);
        }
        if self.held.is_empty() {
            return Ok(());
        }
        if self.to.write_all(self.held.as_slice()).is_err() {
            return Err(self.give_up());
        }
        self.held.clear();
        if self.to.flush().is_err() {
            return Err(self.give_up());
        }
        Ok(())
    }

    /// Takes no more from now on.
    fn give_up(&mut self) -> Failed
        ensures { self.new ≡ record self.old { broken = true } }
    {
        self.broken = true;
        Failed
    }
}
