//! What the definitions say of two runs in a row, as contracts of a function that does nothing.

ghost use Rattle.std.specs.Prelude.{◌≡◌, ◌≢◌, ℕ};
ghost use Rattle.wtf_base.specs.declared.settings.Settings.{Settings};
ghost use Rattle.wtf_replica.specs.Bytes.{byte_at};
ghost use Rattle.wtf_core.specs.Telling.{stores_of};
ghost use Rattle.wtf_serve.specs.Endings.{Devices};
ghost use Rattle.wtf_serve.specs.Openings.{StartsFrom};
ghost use Rattle.wtf_serve.specs.Unopened.{IsOpened, IsRunWith};
ghost use Rattle.wtf_serve.specs.Continued.{IsWholeRun, BeginsBehind, GoesOnFrom};

use wtf_dev::{Keeper, SliceStore};

/// A run goes on where the last one ended. Over devices that tell, behind a run that read its script to its end and saved, a run
/// over the stores and the bytes that it left is not refused and finds stores enough; where it is opened it has the settings and
/// the number of installs of the first, and starts from the tree that the first ended with. Where the stores of the settings'
/// servers told the first tree by themselves they tell that one too.
pub fn a_run_goes_on_where_the_last_one_ended<S: SliceStore, K: Keeper>()
    ensures begins { (a b c d : K) (asked asked' : Settings) (status status' : ℕ)
        (old new old' new' : Devices S)
        (whole : IsWholeRun S.kind (K.follows a b) asked status old new) →
        BeginsBehind new old' whole.kept → IsRunWith S.kind (K.follows c d) asked' status' old' new' →
        (status' ≢ 6) × (status' ≢ 2) }
    ensures goes_on { (a b c d : K) (asked asked' : Settings) (status status' : ℕ)
        (old new old' new' : Devices S)
        (whole : IsWholeRun S.kind (K.follows a b) asked status old new) →
        BeginsBehind new old' whole.kept →
        (next : IsOpened S.kind (K.follows c d) asked' status' old' new') →
        GoesOnFrom (byte_at S.kind old'.stock.shelf) whole.opened.opening whole.tree
        whole.opened.served.log next.opening }
    ensures within { (a b c d : K) (asked asked' : Settings) (status status' : ℕ)
        (old new old' new' : Devices S)
        (whole : IsWholeRun S.kind (K.follows a b) asked status old new) →
        BeginsBehind new old' whole.kept →
        StartsFrom (byte_at S.kind (stores_of whole.opened.opening.settings old.stock.shelf))
        whole.opened.opening.bytes whole.tree →
        (next : IsOpened S.kind (K.follows c d) asked' status' old' new') →
        GoesOnFrom (byte_at S.kind (stores_of next.opening.settings old'.stock.shelf))
        whole.opened.opening whole.tree whole.opened.served.log next.opening }
{}
