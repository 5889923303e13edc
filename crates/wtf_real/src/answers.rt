//! Answers that are held back, which a source and a sink have in common.

ghost use Rattle.std.specs.Prelude.{◌≡◌, ◌≤◌, ◌<◌, [], None, Some, length, take, IfOk, OnOk};
ghost use Rattle.std.specs.Io.KnownBytes.{Appends};
ghost use Rattle.wtf_real.specs.Gathers.{all_of};
ghost use Rattle.wtf_real.specs.Streamed.{AnswersView, IsWritten};

use crate::gathered::Gathered;
use std::cell::RefCell;
use std::io::Write;
use std::rc::Rc;
use wtf_dev::Failed;

/// Answers that are held back until they are written.
pub trait Answers {
    /// What is held back, and all that was answered, where they tell it.
    ghost told: { Self → AnswersView } = { λ _. record { held = None; all = None } };

    /// Holds the first of these bytes back, as many as there is room for, and answers how many. Where there is none, what is
    /// held back is written.
    fn put(&mut self, bytes: &[u8]) -> Result<usize, Failed>
        ensures count { IfOk result (λ n. n ≤ length bytes.now) }
        ensures some { IfOk result (λ n. 0 < length bytes.now → 0 < n) }
        ensures taken { IfOk result (λ n.
            Appends (told self.old).all (told self.new).all (take n bytes.now)) }
        ensures out { OnOk result (bytes.now ≡ [] → IsWritten (told self.old) (told self.new)) };

    /// Writes what is held back.
    fn flush(&mut self) -> Result<(), Failed>
        ensures { OnOk result (IsWritten (told self.old) (told self.new)) };
}

impl<W: Write + Drop> Answers for Gathered<W> {
    ghost told = { λ g. record { held = Some g.held; all = all_of W.contents g } };

    fn put(&mut self, bytes: &[u8]) -> Result<usize, Failed> {
        self.hold(bytes)
    }

    fn flush(&mut self) -> Result<(), Failed> {
        self.write_held()
    }
}

/// Answers that two have in common. They tell nothing.
#[derive(Drop)]
pub struct Shared<W> {
    cell: Rc<RefCell<Gathered<W>>>,
}

impl<W> Shared<W> {
    pub(crate) fn new(cell: Rc<RefCell<Gathered<W>>>) -> Shared<W> {
        Shared { cell }
    }
}

/// No call holds the cell while another is made, so it is always free.
impl<W: Write + Drop> Answers for Shared<W> {
    fn put(&mut self, bytes: &[u8]) -> Result<usize, Failed> {
        match self.cell.try_borrow_mut() {
            Ok(mut gathered) => gathered.hold(bytes),
            Err(_) => Err(Failed),
        }
    }

    fn flush(&mut self) -> Result<(), Failed> {
        match self.cell.try_borrow_mut() {
            Ok(mut gathered) => gathered.write_held(),
            Err(_) => Err(Failed),
        }
    }
}
