//! Jobs.

ghost use Rattle.std.specs.Prelude.{◌≡◌, IfOk, IsTrue, nat_eq};
ghost use Rattle.std.specs.Set.{remove_key};
ghost use Rattle.wtf_kv.specs.Stores.{is_pinned, IsPinnedOnceMore};
ghost use Rattle.wtf_compact.specs.Jobs.{attempt_of};

use crate::Target;
use std::alloc::Global;
use std::marker::Model;
use wtf_base::OutOfMemory;
use wtf_kv::Kv;
use wtf_meta::{Delta, Key, RegionValue, Value};
use wtf_occ::Attempt;
use wtf_path::Path;

/// What is to be put in a region's place. Contracts see the path of the file, the region, the number of
/// installs at which it was planned, and the new value: none where the region had no value. It keeps its base
/// pinned until it is put or dropped.
#[derive(Debug, Drop)]
pub struct Job {
    alloc: Global,
    path: Path,
    target: Target,
    base: u64,
    value: Option<RegionValue>,
}

impl Model for Job {
    ghost use Rattle.wtf_compact.specs.Jobs.{JobView};

    ghost Value = { JobView };

    ghost use Rattle.std.specs.Coded.{codes};
    ghost use Rattle.wtf_values.specs.contracts.region.RegionValue as region;
    ghost use Rattle.wtf_compact.specs.contracts.target.Target as aim;

    ghost coded = { Prim.hlevel (codes, aim.the_row.coded, region.the_row.coded) };

    ghost view = { λ j. record {
      path = j.path;
      target = j.target;
      base = j.base;
      value = j.value;
    } };
}

impl Job {
    /// A job of these.
    pub(crate) fn of(
        alloc: Global,
        path: Path,
        target: Target,
        base: u64,
        value: Option<RegionValue>,
    ) -> Job
        ensures { result ≡ record { path = path; target = target; base = base; value = value } }
    {
        Job {
            alloc,
            path,
            target,
            base,
            value,
        }
    }

    /// The number of installs at which it was planned.
    pub fn base(&self) -> u64
        ensures { result ≡ self.now.base }
    {
        self.base
    }

    /// The key of its region.
    fn key(&self) -> Key
        ensures { result ≡ Key.Region self.now.target.inode self.now.target.region }
    {
        Key::Region(self.target.inode, self.target.region)
    }

    /// The attempt by which it is put: at its base, with the path and the region recorded, and with one change,
    /// the region's new value, if there is one.
    pub(crate) fn attempt(&self) -> Result<Attempt<Key, Value>, OutOfMemory>
        ensures { IfOk result (λ at. at ≡ attempt_of self.now) }
    {
        let mut at = Attempt::new(self.alloc, self.base)?;
        at.record(&Key::Path(self.path.copy(self.alloc)?))?;
        at.record(&self.key())?;
        let Some(value) = &self.value else {
            return Ok(at);
        };
        at.delta(self.key(), Delta::Put(Value::Region(value.copy()?)))?;
        Ok(at)
    }
}

/// Drops a job, and undoes the pin of its base. It takes no memory.
pub fn drop_job(job: Job, kv: &mut Kv<Key, Value>)
    requires { IsTrue (is_pinned kv.old job.base) }
    ensures rest { kv.new ≡ record kv.old { pins = remove_key (nat_eq job.base) kv.old.pins } }
    ensures once { IsPinnedOnceMore job.base kv.new kv.old }
{
    kv.unpin(job.base);
}
