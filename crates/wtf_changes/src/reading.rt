//! Bytes, read as the changes that have them for their text.

ghost use Rattle.std.specs.Prelude.{IfOk, IfErr};
ghost use Rattle.wtf_changes.specs.Rows.{change_rows};
ghost use Rattle.wtf_changes.specs.Shapes.{HasChanges};
ghost use Rattle.wtf_changes.specs.Outcome.{IsUnread};

use crate::parser::changes_of;
use crate::records::Changes;
use std::alloc::Global;
use wtf_spillfmt::ListError;

/// The changes whose text the bytes are. Bytes that are no changes are `NotAList`.
pub fn read(alloc: Global, bytes: &[u8]) -> Result<Changes, ListError>
    ensures changes { IfOk result (λ x. HasChanges (change_rows x) bytes.now) }
    ensures cause { IfErr result (IsUnread bytes.now) }
{
    match changes_of(alloc, bytes) {
        Ok(changes) => Ok(changes),
        Err(why) => Err(why),
    }
}
