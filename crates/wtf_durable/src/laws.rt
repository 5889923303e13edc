//! What the definitions say of a stop, and of the tree of a store, as contracts of functions that do nothing.

ghost use Rattle.std.specs.Prelude.{◌≤◌, ◌^◌, ℕ, List, Ok, length, map, All};
ghost use Rattle.wtf_base.specs.declared.settings.Settings.{Settings};
ghost use Rattle.wtf_meta.specs.Contents.{Told};
ghost use Rattle.wtf_model.specs.declared.answer.Answer.{Answer};
ghost use Rattle.wtf_model.specs.declared.event.Event.{Event};
ghost use Rattle.wtf_model.specs.Form.{IsFormEvent};
ghost use Rattle.wtf_model.specs.Lines.{machine_after};
ghost use Rattle.wtf_model.specs.Machines.{Machine, start};
ghost use Rattle.wtf_model.specs.Tree.{Tree};
ghost use Rattle.wtf_core.specs.Pictured.{IsImageFor};
ghost use Rattle.wtf_core.specs.Standing.{IsSmall};
ghost use Rattle.wtf_serve.specs.Openings.{StartsFrom};
ghost use Rattle.wtf_durable.specs.Opened.{GivesImage};
ghost use Rattle.wtf_durable.specs.Stops.{FindsTree, LeavesStore, Leftover, left_at, left_size};

/// What a stop left is opened as it is found: a run that begins with the image which the journal gives starts
/// from the tree that is found there, over the bytes that the stores were left with.
pub fn what_is_found_is_opened()
    ensures { (told : Told) (journal image : List ℕ) (t : Tree) → FindsTree told journal t →
        GivesImage journal image → StartsFrom told image t }
{}

/// And a run can begin with it: the image breaks no rule over the stores as they were left, and has the settings
/// of the machine, its number of installs and a next transaction of at most that of the store which was stopped.
pub fn what_is_left_can_be_gone_on_with()
    ensures { (left : Leftover) (m : Machine) (next : ℕ) (image : List ℕ) →
        LeavesStore left m next → GivesImage (left.journal 0) image →
        IsImageFor (left_size left.stores) m.settings m.number next image ×
        StartsFrom (left_at left.stores) image m.now }
{}

/// The tree that an image opens is small, and stays so for 2^30 events.
pub fn many_events_leave_a_small_tree()
    ensures { (told : Told) (image : List ℕ) (t : Tree) (settings : Settings) (number : ℕ)
        (events : List Event) (answers : List Answer) → StartsFrom told image t →
        All IsFormEvent events → length events ≤ 2 ^ 30 →
        IsSmall (machine_after (start settings number t) (map (λ e. Ok e) events) answers) }
{}
