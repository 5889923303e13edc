//! Worked examples of the order of keys and of what comes of changes, each proved.

ghost use Rattle.std.specs.Prelude.{◌≡◌, ◌≢◌, ℕ, ◌≤◌, true, false, List, Option, Some, None};
ghost use Rattle.std.specs.Ordering.{nat_cmp, ordering_then};
ghost use Rattle.std.specs.Cmp.Lexicographic.{slice_cmp};
ghost use Rattle.std.specs.declared.cmp.Ordering.TheVariants.{Less};
ghost use Rattle.wtf_base.specs.declared.ids.InodeId.{InodeId};
ghost use Rattle.wtf_kv.specs.declared.cell.Applied.TheVariants.{Is, Gone, Unfit};
ghost use Rattle.wtf_overlay.specs.declared.part.Entry.{Entry};
ghost use Rattle.wtf_overlay.specs.declared.part.Piece.{Piece};
ghost use Rattle.wtf_overlay.specs.Origin.{pieces_len};
ghost use Rattle.wtf_values.specs.declared.key.Key.TheVariants as key;
ghost use Rattle.wtf_values.specs.declared.region.RegionValue.{RegionValue};
ghost use Rattle.wtf_values.specs.declared.region.Spill.{Spill};
ghost use Rattle.wtf_values.specs.declared.value.Node as node;
ghost use Rattle.wtf_values.specs.declared.value.Value as holder;
ghost use Rattle.wtf_values.specs.declared.value.Value.TheVariants as value;
ghost use Rattle.wtf_values.specs.declared.value.Delta.TheVariants as delta;
ghost use Rattle.wtf_values.specs.Keys.{key_cmp};
ghost use Rattle.wtf_values.specs.Names.{NamesOf, has_name, with_name, without_name};
ghost use Rattle.wtf_values.specs.Regions.{clipped, zeroed_in, with_pieces};
ghost use Rattle.wtf_values.specs.Outcomes.{outcome_of};

/// Paths come before directories, these before inodes, these before regions, and these before the
/// numbers of paths. Each kind has an order of its own.
pub fn orders_keys()
    ensures path_dir { (p q : List ℕ) → key_cmp (key.Path p) (key.Dir q) ≡ Less }
    ensures dir_inode { (p : List ℕ) (i : InodeId) → key_cmp (key.Dir p) (key.Inode i) ≡ Less }
    ensures inode_region { (i j : InodeId) (r : ℕ) →
        key_cmp (key.Inode i) (key.Region j r) ≡ Less }
    ensures region_links { (i j : InodeId) (r : ℕ) →
        key_cmp (key.Region i r) (key.Links j) ≡ Less }
    ensures paths { (p q : List ℕ) → key_cmp (key.Path p) (key.Path q) ≡ slice_cmp nat_cmp p q }
    ensures dirs { (p q : List ℕ) → key_cmp (key.Dir p) (key.Dir q) ≡ slice_cmp nat_cmp p q }
    ensures inodes { (i j : InodeId) → key_cmp (key.Inode i) (key.Inode j) ≡
        ordering_then (nat_cmp i.tx.0 j.tx.0) (nat_cmp i.index j.index) }
    ensures regions { (i j : InodeId) (r s : ℕ) → key_cmp (key.Region i r) (key.Region j s) ≡
        ordering_then (key_cmp (key.Inode i) (key.Inode j)) (nat_cmp r s) }
{}

/// In a region of 64 bytes, 4 bytes fit at the end 60 and not at 61. A missing region ends at 0.
pub fn adds_pieces()
    ensures fits { (v : RegionValue) (ps : List Piece) → v.end ≡ 60 → pieces_len ps ≡ 4 →
        outcome_of (Some (value.Region v)) (delta.PushRel ps 64) ≡
        Is (value.Region (with_pieces v ps)) }
    ensures end { (v : RegionValue) (ps : List Piece) → v.end ≡ 60 → pieces_len ps ≡ 4 →
        (with_pieces v ps).end ≡ 64 }
    ensures unfit { (v : RegionValue) (ps : List Piece) → v.end ≡ 61 → pieces_len ps ≡ 4 →
        outcome_of (Some (value.Region v)) (delta.PushRel ps 64) ≡ Unfit }
    ensures missing { (ps : List Piece) → pieces_len ps ≡ 65 →
        outcome_of None (delta.PushRel ps 64) ≡ Unfit }
{}

/// A cut at 0 drops the base. One below what is seen of the base shortens that, and one from there
/// on leaves it. The end is the one of the cut.
pub fn clips_regions()
    ensures none { (v : RegionValue) → (clipped 0 (Some v)).base ≡ None }
    ensures cut { (v : RegionValue) (s : Spill) → v.base ≡ Some s → 3 ≤ s.visible →
        (clipped 3 (Some v)).base ≡ Some (record s { visible = 3 }) }
    ensures whole { (v : RegionValue) (end : ℕ) → v.end ≤ end →
        (clipped end (Some v)).base ≡ v.base }
    ensures end { (v : RegionValue) (end : ℕ) → (clipped end (Some v)).end ≡ end }
    ensures missing { (end : ℕ) →
        outcome_of None (delta.Clip end) ≡ Is (value.Region (clipped end None)) }
{}

/// Zeros change nothing past the end, do not move it, and make no region.
pub fn zeroes_regions()
    ensures missing { (from upto : ℕ) → outcome_of None (delta.ZeroWithin from upto) ≡ Gone }
    ensures past { (v : RegionValue) (from upto : ℕ) → v.end ≤ from →
        outcome_of (Some (value.Region v)) (delta.ZeroWithin from upto) ≡ Is (value.Region v) }
    ensures empty { (v : RegionValue) (from : ℕ) →
        outcome_of (Some (value.Region v)) (delta.ZeroWithin from from) ≡ Is (value.Region v) }
    ensures end { (v : RegionValue) (from upto : ℕ) → (zeroed_in from upto v).end ≡ v.end }
{}

/// The number of a last region is raised and never lowered, or set.
pub fn moves_the_last()
    ensures raised { outcome_of (Some (value.Last 3)) (delta.RaiseLast 5) ≡ Is (value.Last 5) }
    ensures stays { outcome_of (Some (value.Last 5)) (delta.RaiseLast 3) ≡ Is (value.Last 5) }
    ensures set { outcome_of (Some (value.Last 5)) (delta.SetLast 3) ≡ Is (value.Last 3) }
    ensures missing { (r : ℕ) → outcome_of None (delta.RaiseLast r) ≡ Gone }
{}

/// A file of one path has no number of them. One more makes it 2, and of 2 one less takes it out.
pub fn counts_paths()
    ensures first { outcome_of None delta.LinkAdd ≡ Is (value.Count 2) }
    ensures more { outcome_of (Some (value.Count 2)) delta.LinkAdd ≡ Is (value.Count 3) }
    ensures fewer { outcome_of (Some (value.Count 3)) delta.LinkSub ≡ Is (value.Count 2) }
    ensures last { outcome_of (Some (value.Count 2)) delta.LinkSub ≡ Gone }
    ensures missing { outcome_of None delta.LinkSub ≡ Gone }
{}

/// A name that is added twice is there once, and one that is taken out leaves the others.
pub fn changes_names()
    ensures added { (s : NamesOf) (name : List ℕ) → has_name (with_name s name) name ≡ true }
    ensures twice { (s : NamesOf) (name : List ℕ) →
        with_name (with_name s name) name ≡ with_name s name }
    ensures taken { (s : NamesOf) (name : List ℕ) → has_name (without_name s name) name ≡ false }
    ensures others { (s : NamesOf) (name other : List ℕ) → name ≢ other →
        has_name (without_name s name) other ≡ has_name s other }
    ensures missing { (name : List ℕ) → outcome_of None (delta.DirAdd name) ≡ Gone }
{}

/// A change of a value of another kind leaves it. What is set or taken out may be of any kind.
pub fn leaves_other_kinds()
    ensures last { (n : ℕ) (e : Entry) →
        outcome_of (Some (value.Last n)) (delta.Push e) ≡ Is (value.Last n) }
    ensures names { (s : NamesOf) (r : ℕ) →
        outcome_of (Some (value.Names s)) (delta.SetLast r) ≡ Is (value.Names s) }
    ensures region { (v : RegionValue) (name : List ℕ) →
        outcome_of (Some (value.Region v)) (delta.DirAdd name) ≡ Is (value.Region v) }
    ensures node { (n : node.Node) (end : ℕ) →
        outcome_of (Some (value.Node n)) (delta.Clip end) ≡ Is (value.Node n) }
    ensures count { (n : ℕ) (e : Entry) →
        outcome_of (Some (value.Count n)) (delta.Push e) ≡ Is (value.Count n) }
    ensures put { (now : Option holder.Value) (v : holder.Value) →
        outcome_of now (delta.Put v) ≡ Is v }
    ensures removed { (now : Option holder.Value) → outcome_of now delta.Remove ≡ Gone }
{}
