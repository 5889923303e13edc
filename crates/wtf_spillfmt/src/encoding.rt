//! The bytes of a list.

ghost use Rattle.std.specs.Prelude.{◌≡◌, ◌<◌, ◌^◌, ℕ, length, Some, IfOk, OnOk};
ghost use Rattle.wtf_overlay.specs.Clips.{Within};
ghost use Rattle.wtf_overlay.specs.Compact.{IsCompact};
ghost use Rattle.wtf_overlay.specs.Rows.{entry_rows};
ghost use Rattle.wtf_overlay.specs.Texts.{entries_text};
ghost use Rattle.wtf_overlay.specs.Shapes.{HaveWidths};
ghost use Rattle.wtf_overlay.specs.Spilled.{encoded, decoded};
ghost use Rattle.wtf_spillfmt.specs.Writing.{Writes};

use crate::writer::{put_entry, put_u32};
use std::alloc::Global;
use wtf_base::OutOfMemory;
use wtf_overlay::Overlay;

/// The bytes of a compact list, to be stored in a slice of their own. They are read again as the list, for
/// each region that it lies inside.
#[tactic(auto, unfolding(wtf_overlay::specs::Spilled::encoded))]
pub fn encode(alloc: Global, list: &Overlay) -> Result<Vec<u8>, OutOfMemory>
    requires compact { IsCompact list.now }
    ensures bytes { IfOk result (λ v. v.items ≡ encoded list.now) }
    ensures again { OnOk result ((region : ℕ) → Within region list.now →
        decoded region (encoded list.now) ≡ Some list.now) }
    ensures widths { OnOk result (HaveWidths list.now) }
{
    let mut out = Vec::new(alloc);
    out.extend_from_slice(b"WTFL")?;
    put_entries(&mut out, list)?;
    Ok(out)
}

/// The entries of a list, behind their number.
#[tactic(auto, unfolding(wtf_overlay::specs::Texts::entries_text))]
pub fn put_entries(out: &mut Vec<u8>, list: &Overlay) -> Result<(), OutOfMemory>
    ensures { OnOk result (Writes out.old.items out.new.items (entries_text (entry_rows list.now))
        ((length list.now < 2 ^ 32) × HaveWidths list.now)) }
{
    let count = list.len();
    put_u32(out, count)?;
    for i in 0..count {
        put_entry(out, list.get(i))?;
    }
    Ok(())
}
