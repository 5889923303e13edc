//! The files that a call is to put together.

ghost use Rattle.std.specs.Prelude.{◌≡◌, [], true, Ok, Err, IsTrue, IfOk, IfErr, OnOk};
ghost use Rattle.wtf_kv.specs.Stores.{is_pinned};
ghost use Rattle.wtf_occ.specs.Attempts.{Grows, GrowsBy};
ghost use Rattle.wtf_model.specs.Steps.{is_call_refusal};
ghost use Rattle.wtf_meta.specs.Maps.{seen};
ghost use Rattle.wtf_slicing.specs.Sources.{sources_of};
ghost use Rattle.wtf_slicing.specs.Recorded.{sources_keys};

use std::alloc::Global;
use wtf_base::{InodeId, OutOfMemory};
use wtf_index::source;
use wtf_kv::Kv;
use wtf_model::Word;
use wtf_occ::Attempt;
use wtf_path::Path;
use wtf_values::{Key, Value};

/// The inodes of files, in order, or why the first of them that is none is none. The paths are
/// recorded up to that one.
pub(crate) fn sources(
    alloc: Global,
    kv: &Kv<Key, Value>,
    at: &mut Attempt<Key, Value>,
    paths: &[Path],
) -> Result<Result<Vec<InodeId>, Word>, OutOfMemory>
    requires { IsTrue (is_pinned kv.now at.old.base) }
    ensures found { IfOk result (λ r. IfOk r
        (λ v. sources_of (seen kv.now at.old) paths.now ≡ Ok v.items)) }
    ensures refused { IfOk result (λ r. IfErr r
        (λ word. sources_of (seen kv.now at.old) paths.now ≡ Err word)) }
    ensures refusal { IfOk result (λ r. IfErr r (λ w. is_call_refusal w ≡ true)) }
    ensures went { OnOk result
        (GrowsBy at.old at.new (sources_keys (seen kv.now at.old) paths.now) []) }
    ensures grows { Grows at.old at.new }
{
    let mut inodes = Vec::new(alloc);
    for path in paths {
        match source(alloc, kv, at, path)? {
            Ok(inode) => inodes.push(inode)?,
            Err(word) => return Ok(Err(word)),
        }
    }
    Ok(Ok(inodes))
}
