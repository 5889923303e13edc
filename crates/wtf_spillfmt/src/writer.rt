//! The bytes of numbers, pointers, slices and entries, put behind others. What was written has the widths of
//! its fields; where a count is too great for its width, it is refused as want of memory.

ghost use Rattle.std.specs.Prelude.{◌≡◌, ◌<◌, ◌+◌, ◌^◌, OnOk};
ghost use Rattle.std.specs.Int.{w32, to_be_bytes};
ghost use Rattle.wtf_base.specs.Slices.{pointers_of, len_of};
ghost use Rattle.wtf_overlay.specs.Rows.{part_row, entry_row};
ghost use Rattle.wtf_overlay.specs.Texts.{pointer_text, slice_text, part_text, entry_text};
ghost use Rattle.wtf_overlay.specs.Shapes.{IsPointer, IsSlice, IsPart};
ghost use Rattle.wtf_spillfmt.specs.Writing.{Writes, IsHeld};

use wtf_base::{OutOfMemory, Pointer, Slice};
use wtf_overlay::{Entry, Part};

/// A number of things, in four bytes.
pub fn put_u32(out: &mut Vec<u8>, count: usize) -> Result<(), OutOfMemory>
    ensures { OnOk result (Writes out.old.items out.new.items
        (to_be_bytes w32 count) (count < 2 ^ 32)) }
{
    if count > 4_294_967_295 {
        return Err(OutOfMemory);
    }
    out.extend_from_slice(&(count as u32).to_be_bytes())?;
    Ok(())
}

/// A pointer.
#[tactic(auto, unfolding(wtf_overlay::specs::Texts::pointer_text))]
fn put_pointer(out: &mut Vec<u8>, pointer: Pointer) -> Result<(), OutOfMemory>
    ensures { OnOk result (Writes out.old.items out.new.items
        (pointer_text pointer) (IsPointer pointer.len pointer)) }
{
    let at = pointer.at.to_be_bytes();
    out.extend_from_slice(&[
        pointer.server.0,
        pointer.file,
        at[0],
        at[1],
        at[2],
        at[3],
        at[4],
        at[5],
        at[6],
        at[7],
    ])?;
    Ok(())
}

/// A slice.
#[tactic(auto, unfolding(wtf_overlay::specs::Texts::slice_text))]
pub fn put_slice(out: &mut Vec<u8>, slice: &Slice) -> Result<(), OutOfMemory>
    ensures { OnOk result (Writes out.old.items out.new.items (slice_text (pointers_of slice.now))
        (IsSlice (len_of slice.now) (pointers_of slice.now))) }
{
    let width = slice.width();
    out.push(width)?;
    for i in 0..width {
        put_pointer(out, slice.pointer(i))?;
    }
    Ok(())
}

/// What an entry holds.
#[tactic(auto, unfolding(wtf_overlay::specs::Texts::part_text))]
fn put_part(out: &mut Vec<u8>, part: &Part) -> Result<(), OutOfMemory>
    ensures { OnOk result (Writes out.old.items out.new.items (part_text (part_row part.now))
        (IsHeld part.now)) }
{
    match part {
        Part::Zero => {
            out.push(0)?;
            return Ok(());
        }
        Part::Held(slice) => {
            out.push(1)?;
            put_slice(out, slice)?;
            return Ok(());
        }
    }
}

/// An entry.
#[tactic(auto, unfolding(wtf_overlay::specs::Texts::entry_text))]
pub fn put_entry(out: &mut Vec<u8>, entry: Entry) -> Result<(), OutOfMemory>
    ensures { OnOk result (Writes out.old.items out.new.items (entry_text (entry_row entry))
        (IsPart entry.len (part_row entry.part))) }
{
    let off = entry.off.to_be_bytes();
    let len = entry.len.to_be_bytes();
    out.extend_from_slice(&[
        off[0], off[1], off[2], off[3], len[0], len[1], len[2], len[3],
    ])?;
    put_part(out, &entry.part)?;
    Ok(())
}
