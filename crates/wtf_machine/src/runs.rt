//! What logged calls read and change, run anew on a tree.

ghost use Rattle.std.specs.Prelude.{◌≡◌, IfOk};
ghost use Rattle.wtf_model.specs.Items.{meets, reads_of, writes_of};
ghost use Rattle.wtf_machine.specs.Logs.{ops_of};

use crate::items::meets;
use crate::log::Logged;
use crate::path_map::PathMap;
use crate::workspace::Workspace;
use std::alloc::Global;
use wtf_base::OutOfMemory;
use wtf_model::Item;

/// Whether calls, run on a tree, read one of these items.
pub(crate) fn reads_one(
    alloc: Global,
    cap: u64,
    tree: &PathMap,
    calls: &[Logged],
    touched: &[Item],
) -> Result<bool, OutOfMemory>
    ensures { IfOk result (λ yes. yes ≡ meets touched.now (reads_of cap tree.now (ops_of calls.now))) }
{
    let tree = tree.share()?;
    let mut session = Workspace::on(alloc, tree);
    for logged in calls {
        let read = session.reads(&logged.op)?;
        if meets(touched, read.as_slice()) {
            drop(read);
            drop(session);
            return Ok(true);
        }
        drop(read);
        let _ = session.call(cap, &logged.op)?;
    }
    drop(session);
    Ok(false)
}

/// What calls, run on a tree, change.
pub(crate) fn changed_by(
    alloc: Global,
    cap: u64,
    tree: &PathMap,
    calls: &[Logged],
) -> Result<Vec<Item>, OutOfMemory>
    ensures { IfOk result (λ v. v.items ≡ writes_of cap tree.now (ops_of calls.now)) }
{
    let tree = tree.share()?;
    let mut session = Workspace::on(alloc, tree);
    let mut changed: Vec<Item> = Vec::new(alloc);
    for logged in calls {
        let mut more = session.change(cap, &logged.op)?;
        changed.append(&mut more)?;
        drop(more);
    }
    drop(session);
    Ok(changed)
}
