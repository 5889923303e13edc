//! Lists cut at an end, and one list over the front of another.

ghost use Rattle.std.specs.Prelude.{◌≡◌, ◌<◌, ◌++◌, [], ◌∷◌, OnOk, OnErr, IfOk};
ghost use Rattle.wtf_overlay.specs.Clips.{clip_entry, clip_list};

use crate::{Entry, Overlay};
use wtf_base::OutOfMemory;

impl Entry {
    /// What is left of the entry below `end`.
    fn front(&self, end: u32) -> Entry
        requires { self.now.off < end }
        ensures { clip_entry end self.now ≡ result ∷ [] }
    {
        let len = self.len.min(end - self.off);
        let part = self.part.cut(0, len);
        Entry::of(self.off, len, part)
    }
}

impl Overlay {
    /// Drops all bytes at `end` and above: an entry that passes it keeps its first bytes alone, and one that
    /// begins there or later goes. After an error the list is as before. Where no entry passes `end` it
    /// costs one step, else as many pushes as entries are left.
    pub fn clip(&mut self, end: u32) -> Result<(), OutOfMemory>
        ensures ok { OnOk result (self.new ≡ clip_list end self.old) }
        ensures err { OnErr result (self.new ≡ self.old) }
    {
        if !self.passes(end) {
            return Ok(());
        }
        *self = self.clipped(end)?;
        Ok(())
    }

    /// What `base` holds below `visible`, with the entries of `top` over it. It costs a share of `base`, a
    /// clip of it where an entry passes `visible`, and a push for each entry of `top`.
    pub fn over(base: &Overlay, visible: u32, top: &Overlay) -> Result<Overlay, OutOfMemory>
        ensures { IfOk result (λ o. o ≡ clip_list visible base.now ++ top.now) }
    {
        let mut list = base.below(visible)?;
        list.push_all(top)?;
        Ok(list)
    }

    /// The list cut at `end`, for another holder.
    fn below(&self, end: u32) -> Result<Overlay, OutOfMemory>
        ensures { IfOk result (λ o. o ≡ clip_list end self.now) }
    {
        if self.passes(end) {
            self.clipped(end)
        } else {
            self.share()
        }
    }

    /// The list cut at `end`, made anew.
    fn clipped(&self, end: u32) -> Result<Overlay, OutOfMemory>
        ensures { IfOk result (λ o. o ≡ clip_list end self.now) }
    {
        let mut out = Overlay::new(self.alloc())?;
        for i in 0..self.len() {
            let e = self.get(i);
            if e.off < end {
                out.push(e.front(end))?;
            }
        }
        Ok(out)
    }

    /// Lays the entries of `top` over the list, the earliest first.
    fn push_all(&mut self, top: &Overlay) -> Result<(), OutOfMemory>
        ensures { OnOk result (self.new ≡ self.old ++ top.now) }
    {
        for i in 0..top.len() {
            let e = top.get(i);
            self.push(e)?;
        }
        Ok(())
    }
}
