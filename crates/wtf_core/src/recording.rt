//! The number that is watched, and what changed since.

ghost use Rattle.std.specs.Prelude.{◌≡◌, ◌↔◌, None, Some, IfSome, IsSome, MatchOption, false, IsOk, IfOk, OnOk, OnErr};
ghost use Rattle.wtf_model.specs.declared.event.Event.TheVariants as event;
ghost use Rattle.wtf_core.specs.Promises.{Closes, IsRecordOf, Watches};

use crate::store::Core;
use wtf_base::OutOfMemory;
use wtf_changes::changes;

impl Core {
    /// Watches the number of installs, in place of the number that was watched before: the map there can be
    /// read as long as it is watched. After want of memory the core is closed.
    pub fn watch(&mut self) -> Result<(), OutOfMemory>
        requires open { self.old.closed ≡ false }
        ensures watched { OnOk result (Watches self.old self.new) }
        ensures closed { OnErr result (Closes self.old self.new event.Tree) }
    {
        let watched = self.tables.watch();
        // all tables are sound, so these are
        let _number = self.tables.number();
        self.closed = watched.is_err();
        watched
    }

    /// Tells what installs changed since the number that is watched, and watches the number of installs in
    /// its place: None where none came since, which takes no memory. After want of memory the core is closed.
    pub fn record(&mut self) -> Result<Option<Vec<u8>>, OutOfMemory>
        requires open { self.old.closed ≡ false }
        requires watched { IsSome self.old.tables.beside.watched }
        ensures none { IfOk result (λ o.
            (o ≡ None) ↔ (self.old.tables.beside.watched ≡ Some self.old.tables.kv.number)) }
        ensures same { IfOk result (λ o. o ≡ None → self.new ≡ self.old) }
        ensures changes { IfOk result (λ o. IfSome o (λ v. IsRecordOf self.old self.new v.items)) }
        ensures sure { self.old.tables.beside.watched ≡ Some self.old.tables.kv.number →
            IsOk result }
        ensures closed { OnErr result (Closes self.old self.new event.Tree) }
    {
        let recorded = self.recorded();
        self.closed = recorded.is_err();
        recorded
    }

    /// The same; want of memory leaves the core as it is.
    fn recorded(&mut self) -> Result<Option<Vec<u8>>, OutOfMemory>
        requires { IsSome self.old.tables.beside.watched }
        ensures told { IfOk result (λ o. MatchOption o
            ((self.new ≡ self.old) ×
            (self.old.tables.beside.watched ≡ Some self.old.tables.kv.number))
            (λ v. IsRecordOf self.old self.new v.items)) }
        ensures sure { self.old.tables.beside.watched ≡ Some self.old.tables.kv.number →
            IsOk result }
        ensures closed { self.new.closed ≡ self.old.closed }
        ensures same { OnErr result (self.new ≡ self.old) }
    {
        let since = match self.tables.watched() {
            Some(since) => since,
            None => unreachable!(),
        };
        if since == self.tables.number() {
            return Ok(None);
        }
        let next_tx = self.tables.next_tx();
        let told = match changes(self.alloc, self.tables.kv(), since, next_tx) {
            Ok(told) => told,
            Err(why) => return Err(why),
        };
        let watched = self.tables.watch();
        // all tables are sound, so these are
        let _number = self.tables.number();
        match watched {
            Ok(()) => return Ok(Some(told)),
            Err(why) => return Err(why),
        }
    }
}
