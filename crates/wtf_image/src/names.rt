//! The names in directories, made from the paths.

ghost use Rattle.std.specs.Prelude.{◌≡◌, ℕ, cond, List, [], true, OnOk, IfOk};
ghost use Rattle.std.specs.List.{flat_map};
ghost use Rattle.std.specs.BTreeMap.{is_at};
ghost use Rattle.std.specs.Ordering.{nat_cmp};
ghost use Rattle.std.specs.Cmp.Lexicographic.{slice_cmp};
ghost use Rattle.wtf_kv.specs.Stores.{versions_of};
ghost use Rattle.wtf_values.specs.Keys.{key_cmp};
ghost use Rattle.wtf_values.specs.Names.{with_name};
ghost use Rattle.wtf_values.specs.declared.key.Key.TheVariants as keys;
ghost use Rattle.wtf_imagefmt.specs.Shapes.{ascends, path_before};
ghost use Rattle.wtf_imagefmt.specs.Lookups.{added_name, names_under};
ghost use Rattle.wtf_image.specs.Seeds.{Adds, dir_seed, dir_seed_by};
ghost use Rattle.wtf_image.specs.Tables.{table_names};

use std::alloc::Global;
use std::collections::BTreeMap;
use wtf_base::OutOfMemory;
use wtf_imagefmt::PathRecord;
use wtf_kv::Kv;
use wtf_path::Path;
use wtf_values::{Key, Name, NameSet, Node, Value};

/// The names in each directory, by its path.
pub(crate) fn directories(
    alloc: Global,
    paths: &[PathRecord],
) -> Result<BTreeMap<Path, NameSet>, OutOfMemory>
    ensures { IfOk result (λ dirs. (d : List ℕ) → table_names dirs.entries d ≡ names_under d paths.now) }
{
    let mut dirs = BTreeMap::new(alloc);
    for record in paths {
        add_name(alloc, &mut dirs, &record.path)?;
    }
    Ok(dirs)
}

/// Adds the name of a path to the directory that it stands in.
fn add_name(
    alloc: Global,
    dirs: &mut BTreeMap<Path, NameSet>,
    path: &Path,
) -> Result<(), OutOfMemory>
    ensures { OnOk result ((d : List ℕ) → table_names dirs.new.entries d ≡
        added_name d path.now (table_names dirs.old.entries d)) }
{
    let Some(parent) = path.parent() else {
        return Ok(());
    };
    let parent = match Path::parse(alloc, parent) {
        Ok(parent) => parent,
        Err(_) => return Err(OutOfMemory),
    };
    let name = Name::of(alloc, path)?;
    add_in(alloc, dirs, parent, name)
}

/// Adds a name to a directory. No set is copied for it.
fn add_in(
    alloc: Global,
    dirs: &mut BTreeMap<Path, NameSet>,
    dir: Path,
    name: Name,
) -> Result<(), OutOfMemory>
    ensures { OnOk result ((d : List ℕ) → table_names dirs.new.entries d ≡
        cond (is_at (slice_cmp nat_cmp dir) d) (with_name (table_names dirs.old.entries d) name)
        (table_names dirs.old.entries d)) }
{
    if let Some(names) = dirs.get_mut(&dir) {
        return names.add(name);
    }
    let mut names = NameSet::new(alloc);
    names.add(name)?;
    let _ = dirs.insert(dir, names)?;
    Ok(())
}

/// The names in a directory.
fn names_of(
    alloc: Global,
    dirs: &BTreeMap<Path, NameSet>,
    dir: &Path,
) -> Result<NameSet, OutOfMemory>
    ensures { IfOk result (λ s. s ≡ table_names dirs.now.entries dir.now) }
{
    match dirs.get(dir) {
        Some(names) => return names.copy(),
        None => return Ok(NameSet::new(alloc)),
    }
}

/// The names in each directory are given to a store.
pub(crate) fn seed_dirs(
    alloc: Global,
    kv: &mut Kv<Key, Value>,
    dirs: &BTreeMap<Path, NameSet>,
    paths: &[PathRecord],
) -> Result<(), OutOfMemory>
    requires pins { kv.old.pins ≡ [] }
    requires ascend { ascends path_before paths.now ≡ true }
    requires fresh { (p : List ℕ) → versions_of key_cmp kv.old (keys.Dir p) ≡ [] }
    requires dirs { (d : List ℕ) → table_names dirs.now.entries d ≡ names_under d paths.now }
    ensures { OnOk result (Adds kv.old kv.new (flat_map (dir_seed paths.now) paths.now)) }
{
    for entry in paths {
        seed_dir(alloc, kv, dirs, entry)?;
    }
    Ok(())
}

/// Gives a directory the names in it, and a file nothing. The store has none at the path yet.
fn seed_dir(
    alloc: Global,
    kv: &mut Kv<Key, Value>,
    dirs: &BTreeMap<Path, NameSet>,
    entry: &PathRecord,
) -> Result<(), OutOfMemory>
    requires pins { kv.old.pins ≡ [] }
    requires fresh { versions_of key_cmp kv.old (keys.Dir entry.now.path) ≡ [] }
    ensures { OnOk result (Adds kv.old kv.new
        (dir_seed_by (table_names dirs.now.entries entry.now.path) entry.now.path entry.now.node)) }
{
    match entry.node {
        Node::File(_) => return Ok(()),
        Node::Folder => {
            let path = entry.path.copy(alloc)?;
            let names = names_of(alloc, dirs, &entry.path)?;
            kv.seed(Key::Dir(path), Value::Names(names))?;
            return Ok(());
        }
    }
}
