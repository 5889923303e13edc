//! Lines that are lent are copied.

ghost use Rattle.std.specs.Prelude.{◌≡◌, ◌≢◌, ◌<◌, ◌≤◌, ◌^◌, true, false, IsTrue, IsOk, IfOk, OnErr, length};
ghost use Rattle.wtf_model.specs.Form.{IsFormEvent};
ghost use Rattle.wtf_model.specs.declared.event.Event.TheVariants.{Save};
ghost use Rattle.wtf_core.specs.Copied.{holds_call, holds_memory};
ghost use Rattle.wtf_core.specs.Turns.{takes_no_memory};
ghost use Rattle.wtf_core.specs.Named.{IsInside};
ghost use Rattle.wtf_clients.specs.Keeping.{keeper_span};
ghost use Rattle.wtf_core.specs.Promises.{scene, CoreDoes, CoreFails, CoreStays};

use crate::store::Core;
use std::alloc::Global;
use wtf_base::OutOfMemory;
use wtf_dev::{Keeper, Shelf, SliceStore};
use wtf_model::{Answer, Event, Verb, copy_op};

/// What a client's line asks, in memory of its own.
fn copy_verb(alloc: Global, verb: &Verb) -> Result<Verb, OutOfMemory>
    ensures copied { IfOk result (λ made. made ≡ verb.now) }
    ensures memory { OnErr result (holds_call verb.now ≡ true) }
{
    match verb {
        Verb::Begin => Ok(Verb::Begin),
        Verb::Try => Ok(Verb::Try),
        Verb::Step => Ok(Verb::Step),
        Verb::Commit => Ok(Verb::Commit),
        Verb::Abort => Ok(Verb::Abort),
        Verb::Call(op) => Ok(Verb::Call(copy_op(alloc, op)?)),
    }
}

/// The same line in memory of its own.
fn copy_event(alloc: Global, event: &Event) -> Result<Event, OutOfMemory>
    ensures copied { IfOk result (λ made. made ≡ event.now) }
    ensures memory { OnErr result (holds_memory event.now ≡ true) }
{
    match event {
        Event::Client(c, verb) => Ok(Event::Client(*c, copy_verb(alloc, verb)?)),
        Event::Plan {
            job,
            kind,
            path,
            region,
        } => Ok(Event::Plan {
            job: *job,
            kind: *kind,
            path: path.copy(alloc)?,
            region: *region,
        }),
        Event::Put(job) => Ok(Event::Put(*job)),
        Event::DropJob(job) => Ok(Event::DropJob(*job)),
        Event::Scan => Ok(Event::Scan),
        Event::Piece(parts) => Ok(Event::Piece(*parts)),
        Event::Collect(k) => Ok(Event::Collect(*k)),
        Event::Down(k) => Ok(Event::Down(*k)),
        Event::Up(k) => Ok(Event::Up(*k)),
        Event::Save => Ok(Event::Save),
        Event::Dump(p) => Ok(Event::Dump(p.copy(alloc)?)),
        Event::Tree => Ok(Event::Tree),
    }
}

impl Core {
    /// Answers one line that is lent, as `take` does: it is copied first. After want of memory the core
    /// is closed.
    pub fn event<S: SliceStore, K: Keeper>(
        &mut self,
        shelf: &mut Shelf<S>,
        keeper: &mut K,
        event: &Event,
    ) -> Result<Answer, OutOfMemory>
        requires open { self.old.closed ≡ false }
        requires shelf { self.old.settings.servers ≤ length shelf.old }
        requires form { IsFormEvent event.now }
        requires number { event.now ≢ Save → self.old.tables.kv.number < 2 ^ 63 }
        requires next_tx { event.now ≢ Save → self.old.tables.next_tx < 2 ^ 63 }
        requires inside { IsInside S.kind shelf.old self.old }
        ensures does { IfOk result (CoreDoes S.kind
            (keeper_span K.view K.follows K.refused keeper.old keeper.new)
            (scene shelf.old (K.view keeper.old) self.old)
            (scene shelf.new (K.view keeper.new) self.new) event.now) }
        ensures fails { OnErr result (CoreFails S.kind
            (keeper_span K.view K.follows K.refused keeper.old keeper.new)
            (scene shelf.old (K.view keeper.old) self.old)
            (scene shelf.new (K.view keeper.new) self.new) event.now) }
        ensures stays { CoreStays S.kind
            (scene shelf.old (K.view keeper.old) self.old)
            (scene shelf.new (K.view keeper.new) self.new) event.now }
        ensures sure { IsTrue (takes_no_memory event.now) → IsOk result }
    {
        match copy_event(self.alloc, event) {
            Ok(own) => return self.take(shelf, keeper, own),
            Err(why) => {
                self.closed = true;
                return Err(why);
            }
        }
    }
}
