//! Putting a job's value in its region's place.

ghost use Rattle.std.specs.Prelude.{◌≡◌, ◌≤◌, ◌<◌, ◌^◌, ℕ, true, Bool, List, [], IfOk, IfErr, OnOk, OnErr, IsTrue, nat_eq};
ghost use Rattle.std.specs.Set.{remove_key};
ghost use Rattle.wtf_base.specs.declared.slice.Slice as slice_type;
ghost use Rattle.wtf_overlay.specs.Origin.{Place};
ghost use Rattle.wtf_kv.specs.Stores.{is_pinned, IsPinnedOnceMore};
ghost use Rattle.wtf_occ.specs.Tries.{Stays};
ghost use Rattle.wtf_model.specs.Tree.{Tree};
ghost use Rattle.wtf_values.specs.Keys.{key_cmp};
ghost use Rattle.wtf_meta.specs.Bytes.{MapBytes, MaybeBytes};
ghost use Rattle.wtf_meta.specs.Contents.{Told};
ghost use Rattle.wtf_meta.specs.Maps.{metadata_at};
ghost use Rattle.wtf_meta.specs.Trees.{Stands};
ghost use Rattle.wtf_compact.specs.Jobs.{target_region};
ghost use Rattle.wtf_compact.specs.Planned.{KeepsRegion};
ghost use Rattle.wtf_compact.specs.Putting.{IsJobPut};

use crate::{Job, drop_job};
use thiserror::Error;
use wtf_base::OutOfMemory;
use wtf_kv::Kv;
use wtf_meta::{Key, Value};
use wtf_model::Answer;
use wtf_occ::Tried;

/// Why a job was not put. It comes back as it was.
#[derive(Debug, Drop, Error)]
pub enum PutFault {
    /// Memory could not be had.
    #[error("out of memory")]
    Memory(Job),
}

/// Installs the job's change, where neither the path nor the region has moved since its base.
fn install(job: &Job, kv: &mut Kv<Key, Value>) -> Result<Answer, OutOfMemory>
    requires room { kv.old.number < 2 ^ 63 }
    requires pinned { IsTrue (is_pinned kv.old job.now.base) }
    ensures put { IfOk result (IsJobPut job.now kv.old kv.new) }
    ensures pins { kv.new.pins ≡ kv.old.pins }
    ensures maps { (n : ℕ) → n ≤ kv.old.number → metadata_at kv.new n ≡ metadata_at kv.old n }
    ensures err { OnErr result (Stays key_cmp kv.old kv.new) }
{
    let mut at = job.attempt()?;
    let number = kv.number();
    match at.install(kv)? {
        Tried::Installed(n) => return Ok(Answer::Installed(n)),
        Tried::Conflict { .. } => {
            return Ok(Answer::Stale {
                base: job.base(),
                now: number,
            });
        }
    }
}

/// Puts a job's value in its region's place, unless the path or the region has a version newer than the job's
/// base: then it is stale. Either way the job ends, and its base is unpinned. Want of memory gives the job
/// back, and leaves what the store shows as it was.
pub fn put(job: Job, kv: &mut Kv<Key, Value>) -> Result<Answer, PutFault>
    requires room { kv.old.number < 2 ^ 63 }
    requires pinned { IsTrue (is_pinned kv.old job.base) }
    ensures put { IfOk result (IsJobPut job kv.old kv.new) }
    ensures stands { OnOk result ((b : ℕ) (told : Told) (tx k : ℕ) (t : Tree) →
        KeepsRegion b told (target_region (metadata_at kv.old job.base) job.target) job.value →
        Stands b told tx k (metadata_at kv.old kv.old.number) t →
        Stands b told tx k (metadata_at kv.new kv.new.number) t) }
    ensures names { OnOk result ((P : List Place → Bool) (Q : slice_type.Slice → Bool) →
        P [] ≡ true →
        MapBytes P Q (metadata_at kv.old kv.old.number) → MaybeBytes P Q job.value →
        MapBytes P Q (metadata_at kv.new kv.new.number)) }
    ensures pins { OnOk result (kv.new.pins ≡ remove_key (nat_eq job.base) kv.old.pins) }
    ensures once { OnOk result (IsPinnedOnceMore job.base kv.new kv.old) }
    ensures maps { (n : ℕ) → n ≤ kv.old.number → metadata_at kv.new n ≡ metadata_at kv.old n }
    ensures whole { IfErr result (λ why. why ≡ PutFault.Memory job) }
    ensures err { OnErr result (Stays key_cmp kv.old kv.new) }
{
    let answer = match install(&job, kv) {
        Ok(answer) => answer,
        Err(_) => return Err(PutFault::Memory(job)),
    };
    drop_job(job, kv);
    Ok(answer)
}
