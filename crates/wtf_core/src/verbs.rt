//! Lines of the tables, over what these are lent.

ghost use Rattle.std.specs.Prelude.{◌≡◌, ◌<◌, ◌^◌, true};
ghost use Rattle.wtf_ring.specs.Points.{IsRing};
ghost use Rattle.wtf_meta.specs.Bytes.{any_slice};
ghost use Rattle.wtf_model.specs.Form.{IsFormEvent, IsFormVerb};
ghost use Rattle.wtf_model.specs.declared.event.Event.TheVariants as event;
ghost use Rattle.wtf_region.specs.Devs.{IsSoundDev, stores};
ghost use Rattle.wtf_region.specs.Inside.{is_inside};
ghost use Rattle.wtf_replica.specs.Inside.{size_in};
ghost use Rattle.wtf_clients.specs.Named.{TablesBytes};
ghost use Rattle.wtf_clients.specs.Safe.{LieIn};
ghost use Rattle.wtf_clients.specs.Sounds.{AreSound};
ghost use Rattle.wtf_core.specs.Lent.{is_of_tables, TablesDone};

use wtf_base::OutOfMemory;
use wtf_clients::Tables;
use wtf_dev::SliceStore;
use wtf_model::{Answer, Event, Verb};
use wtf_region::Dev;

/// Answers a line of the tables.
pub(crate) fn tables_line<S: SliceStore>(
    tables: &mut Tables,
    dev: &mut Dev<'_, S>,
    event: Event,
) -> Result<Answer, OutOfMemory>
    requires sound { AreSound tables.old }
    requires dev { IsSoundDev S.kind dev.old }
    requires ring { IsRing dev.old.settings.servers dev.old.ring.now.points }
    requires inside { TablesBytes (is_inside S.kind (stores dev.old) dev.old.settings)
        any_slice tables.old }
    requires lie { LieIn tables.old.beside.gc (size_in S.kind (stores dev.old)) }
    requires asked { is_of_tables event ≡ true }
    requires form { IsFormEvent event }
    requires number { tables.old.kv.number < 2 ^ 63 }
    requires next_tx { tables.old.next_tx < 2 ^ 63 }
    ensures { TablesDone S.kind dev.old dev.new tables.old tables.new event result }
{
    match event {
        Event::Client(c, verb) => return client_line(tables, dev, c, verb),
        Event::Plan {
            job,
            kind,
            path,
            region,
        } => return tables.plan(dev, job, kind, &path, region),
        Event::Put(job) => return tables.put_job(job),
        Event::DropJob(job) => return Ok(tables.drop_job(job)),
        Event::Scan => return tables.scan(&*dev.shelf),
        Event::Piece(parts) => return tables.piece(dev, parts),
        Event::Collect(k) => return tables.collect(dev, k),
        Event::Dump(p) => return tables.dump(dev, &p),
        _ => unreachable!(),
    }
}

/// Answers a client's line.
fn client_line<S: SliceStore>(
    tables: &mut Tables,
    dev: &mut Dev<'_, S>,
    c: u8,
    verb: Verb,
) -> Result<Answer, OutOfMemory>
    requires sound { AreSound tables.old }
    requires dev { IsSoundDev S.kind dev.old }
    requires ring { IsRing dev.old.settings.servers dev.old.ring.now.points }
    requires inside { TablesBytes (is_inside S.kind (stores dev.old) dev.old.settings)
        any_slice tables.old }
    requires form { IsFormVerb verb }
    requires number { tables.old.kv.number < 2 ^ 63 }
    requires next_tx { tables.old.next_tx < 2 ^ 63 }
    ensures { TablesDone S.kind dev.old dev.new tables.old tables.new
        (event.Client c verb) result }
{
    match verb {
        Verb::Begin => return tables.begin(c),
        Verb::Try => return tables.attempt(c),
        Verb::Step => return tables.step(dev, c),
        Verb::Commit => return tables.commit(dev, c),
        Verb::Abort => return Ok(tables.abort(c)),
        Verb::Call(op) => return tables.call(dev, c, op),
    }
}
