//! What the definitions come to, each proved: where they begin, and the laws by which calls go on.

ghost use Rattle.std.specs.Prelude.{◌≡◌, ◌≢◌, ◌<◌, ◌↔◌, ℕ, Bool, true, List, [], ◌∷◌, ◌++◌, length, Option, Some, None};
ghost use Rattle.wtf_base.specs.declared.ids.InodeId.{InodeId};
ghost use Rattle.wtf_base.specs.declared.slice.Slice.{Slice};
ghost use Rattle.wtf_overlay.specs.Origin.{Place};
ghost use Rattle.wtf_overlay.specs.Clips.{clip_list};
ghost use Rattle.wtf_overlay.specs.Spilled.{decoded};
ghost use Rattle.wtf_overlay.specs.declared.part.Entry.{Entry};
ghost use Rattle.wtf_model.specs.declared.answer.Answer.{Answer};
ghost use Rattle.wtf_model.specs.declared.op.Op.{Op};
ghost use Rattle.wtf_model.specs.Tree.{Tree, root_alone};
ghost use Rattle.wtf_values.specs.declared.key.Key.TheVariants as key;
ghost use Rattle.wtf_values.specs.declared.region.RegionValue.{RegionValue};
ghost use Rattle.wtf_values.specs.declared.region.Spill.{Spill};
ghost use Rattle.wtf_values.specs.declared.value.Value.{Value};
ghost use Rattle.wtf_meta.specs.Maps.{Map, Edits, with};
ghost use Rattle.wtf_meta.specs.Lists.{Lists, list_of};
ghost use Rattle.wtf_meta.specs.Bytes.{MapBytes, EditsBytes, RegionBytes, ValueBytes, ValueHas, are_in, any_slice};
ghost use Rattle.wtf_meta.specs.Files.{FileView, file_len, no_bytes};
ghost use Rattle.wtf_meta.specs.Contents.{Told, HasBytes, SliceTells, SameRegion, is_told, is_listed, lists_in};
ghost use Rattle.wtf_meta.specs.FileEdits.{FileEdit, Put, edits_of, file_of, region_of, HasFile, after};
ghost use Rattle.wtf_meta.specs.Trees.{Stands, IsFirst};
ghost use Rattle.wtf_meta.specs.Sessions.{SessionView, nothing_open};
ghost use Rattle.wtf_meta.specs.Calls.{Caller, Did, nothing_done, then_did, IsCall, IsRun};

/// A map with the root alone stands for the tree with the root alone, whatever the stores tell and whoever calls.
pub fn the_first_map_stands()
    ensures { (b : ℕ) (told : Told) (tx k : ℕ) (w : Map) → IsFirst w →
        Stands b told tx k w root_alone }
{}

/// A file is as long as its last region says: with regions of 64 bytes, one that ends at byte 6 of region 1 has 70. The
/// file with no region has no byte.
pub fn files_have_lengths()
    ensures last { (v : FileView) (r : RegionValue) → v.last ≡ 1 → v.region 1 ≡ Some r → r.end ≡ 6 →
        file_len 64 v ≡ 70 }
    ensures none { (told : Told) (b : ℕ) → 0 < b → HasBytes told b no_bytes [] }
{}

/// A region's list is that of its base as far as it is seen, with its entries over it. Where the stores tell the bytes of
/// the base's slice, it is the list that these bytes decode to.
pub fn regions_have_lists()
    ensures none { (lists : Lists) (v : RegionValue) → v.base ≡ None → list_of lists v ≡ v.list }
    ensures base { (lists : Lists) (v : RegionValue) (s : Spill) (es : List Entry) → v.base ≡ Some s →
        lists s.slice ≡ Some es → list_of lists v ≡ clip_list s.visible es ++ v.list }
    ensures told { (b : ℕ) (told : Told) (s : Slice) (bytes : List ℕ) → SliceTells told s bytes →
        lists_in b told s ≡ decoded b bytes }
{}

/// Changes of one file are what they are of its view, and leave all paths, all directories and all other files.
pub fn changes_are_of_one_file()
    ensures here { (i : InodeId) (ds : List FileEdit) (w : Map) → HasFile i w →
        file_of i (with (edits_of i ds) w) ≡ after ds (file_of i w) }
    ensures paths { (i : InodeId) (ds : List FileEdit) (w : Map) (p : List ℕ) →
        with (edits_of i ds) w (key.Path p) ≡ w (key.Path p) }
    ensures directories { (i : InodeId) (ds : List FileEdit) (w : Map) (p : List ℕ) →
        with (edits_of i ds) w (key.Dir p) ≡ w (key.Dir p) }
    ensures others { (i j : InodeId) (ds : List FileEdit) (w : Map) → i ≢ j →
        file_of j (with (edits_of i ds) w) ≡ file_of j w }
{}

/// A map after changes names no bytes but those that it named, and those that the changes bring, and has no other bases.
pub fn changes_name_what_is_known()
    ensures { (P : List Place → Bool) (Q : Slice → Bool) → P [] ≡ true → (cs : Edits) (w : Map) →
        MapBytes P Q w → EditsBytes P Q cs → MapBytes P Q (with cs w) }
{}

/// A set of places has all bytes of a value exactly where it has every place that the value names.
pub fn sets_have_values()
    ensures { (set : Place → Bool) (v : Option Value) →
        ValueBytes (are_in set) any_slice v ↔ ((q : Place) → ValueHas v q → set q ≡ true) }
{}

/// A region that is put in the place of another of the same end and bytes leaves the tree for which the map stands,
/// whoever calls.
pub fn regions_may_be_put()
    ensures { (b : ℕ) (told : Told) (tx k : ℕ) (w : Map) (t : Tree) (i : InodeId) (r : ℕ) (v x : RegionValue) →
        Stands b told tx k w t → region_of (w (key.Region i r)) ≡ Some v →
        SameRegion told b (Some v) (Some x) → RegionBytes (is_told told) (is_listed b told) x →
        Stands b told tx k (with (edits_of i (Put r x ∷ [])) w) t }
{}

/// No call is a run, and a run and one call more, on the map that it left, is a run.
pub fn runs_go_on()
    ensures none { (x : Caller) (b : Map) → IsRun x b nothing_open nothing_done ([], []) }
    ensures one_more { (x : Caller) (b : Map) (s t : SessionView) (did more : Did)
        (ops : List (Op (List ℕ))) (shown : List Answer) (o : Op (List ℕ)) (a : Answer) →
        IsRun x b s did (ops, shown) →
        IsCall (record x { calls = length ops }) (with did.edits b) s t more o a →
        IsRun x b t (then_did did more) (ops ++ o ∷ [], shown ++ a ∷ []) }
{}
