//! Runs of given settings, and what the theorem says of one over devices in memory.

ghost use Rattle.std.specs.Prelude.{IfOk};
ghost use Rattle.wtf_dev.specs.Memory.{mem_store};
ghost use Rattle.wtf_replica.specs.Bytes.{byte_at};
ghost use Rattle.wtf_replica.specs.Inside.{size_in};
ghost use Rattle.wtf_model.specs.Tree.{root_alone};
ghost use Rattle.wtf_serve.specs.Endings.{IsTold};
ghost use Rattle.wtf_serve.specs.Openings.{new_opening};
ghost use Rattle.wtf_serve.specs.Scripts.{IsEndStatus};

use std::alloc::Global;
use std::test::Fail;
use wtf_base::Settings;
use wtf_dev::{MemKeeper, MemSink, MemSource, MemStore, Shelf};
use wtf_serve::serve;
use wtf_trial::devices::{Ended, stores};

/// A run of a script over these stores and an empty keeper. Devices in memory tell what they hold, so a run that reads its
/// script to its end answers each line as one tree would, on which committed transactions ran whole; and it leaves the
/// image of that tree, with which the next run can begin.
fn told(
    alloc: Global,
    settings: Settings,
    script: &[u8],
    shelf: &mut Shelf<MemStore>,
) -> Result<Ended, Fail>
    ensures { IfOk result (λ ended. IsEndStatus ended.status →
        IsTold (byte_at mem_store shelf.new) (size_in mem_store shelf.new) (new_opening settings)
        root_alone script.now ended.output.items ended.kept.items) }
{
    let mut script = MemSource::new(alloc, script.to_vec(alloc)?, Vec::new(alloc));
    let mut out = MemSink::new(alloc, Vec::new(alloc));
    let mut keeper = MemKeeper::new(alloc, Vec::new(alloc), Vec::new(alloc));
    let status = serve(alloc, settings, &mut script, &mut out, shelf, &mut keeper);
    Ok(Ended {
        status,
        output: out.taken().to_vec(alloc)?,
        kept: keeper.held().to_vec(alloc)?,
    })
}

/// The same with so many servers, two copies of each slice, and the greatest regions that are asked for by no word.
pub(crate) fn answers(
    alloc: Global,
    servers: u8,
    script: &[u8],
    shelf: &mut Shelf<MemStore>,
) -> Result<Ended, Fail> {
    let settings = Settings::new(servers, 2, 65_536).ok_or("settings")?;
    told(alloc, settings, script, shelf)
}

/// The same over so many empty stores which never fail.
pub(crate) fn answers_on(
    alloc: Global,
    servers: u8,
    count: u8,
    script: &[u8],
) -> Result<Ended, Fail> {
    let mut shelf = stores(alloc, count, 0, None)?;
    answers(alloc, servers, script, &mut shelf)
}
