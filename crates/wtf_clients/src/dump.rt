//! All bytes of a file as it stands now.

ghost use Rattle.std.specs.Prelude.{◌≡◌, ◌⊎◌, [], min, IsTrue, IfOk, IfErr};
ghost use Rattle.wtf_kv.specs.Stores.{is_pinned};
ghost use Rattle.wtf_model.specs.declared.limits.TheConstants.{MAX_DUMPED};
ghost use Rattle.wtf_meta.specs.Maps.{metadata_at, seen};
ghost use Rattle.wtf_meta.specs.FileEdits.{file_of};
ghost use Rattle.wtf_region.specs.Devs.{IsSoundDev, GoesOn, RemembersTrue, stores, remembered, told_in, between};
ghost use Rattle.wtf_region.specs.Inside.{IsStoredInside};
ghost use Rattle.wtf_region.specs.Showing.{OnlyRead};
ghost use Rattle.wtf_replay.specs.Tried.{KeepsMaps, KeepsVersions, KeepsPins};
ghost use Rattle.wtf_clients.specs.Dumped.{IsDumpAnswer, IsNoFile, IsShownFile, IsDumped, ReadsBases, LacksFile, LacksDump, file_bases, dump_bases};

use std::alloc::Global;
use wtf_base::{Bytes, Fault, InodeId};
use wtf_dev::SliceStore;
use wtf_index::look_up;
use wtf_kv::Kv;
use wtf_model::limits::MAX_DUMPED;
use wtf_model::{Answer, Word};
use wtf_occ::Attempt;
use wtf_path::Path;
use wtf_region::{Dev, file_len, pieces, show};
use wtf_values::{Key, Node, Value};

/// Shows all bytes of the file at a path as it stands now. It is refused where nothing stands
/// there, for a directory, and for a file of more than `MAX_DUMPED` bytes. `Read` where no copy of
/// some of the bytes, or of a list of the file, could be read, and `Damaged` where what was read as a
/// list is none. The store shows what it showed, also after a fault.
pub(crate) fn dump_now<S: SliceStore>(
    alloc: Global,
    dev: &mut Dev<'_, S>,
    kv: &mut Kv<Key, Value>,
    p: &Path,
) -> Result<Answer, Fault>
    requires sound { IsSoundDev S.kind dev.old }
    requires inside { IsStoredInside S.kind (stores dev.old) dev.old.settings
        (metadata_at kv.old kv.old.number) }
    ensures shows { IfOk result (IsDumped dev.old.settings.region (told_in S.kind dev.old)
        (RemembersTrue S.kind dev.old) (metadata_at kv.old kv.old.number) p.now) }
    ensures fault { IfErr result (λ why. (why ≡ Fault.Memory) ⊎ LacksDump S.kind dev.old dev.new
        (metadata_at kv.old kv.old.number) p.now why) }
    ensures number { kv.new.number ≡ kv.old.number }
    ensures maps { KeepsMaps kv.old kv.new }
    ensures versions { KeepsVersions kv.old kv.new }
    ensures pins { KeepsPins kv.old kv.new }
    ensures answered { IfOk result IsDumpAnswer }
    ensures read { IfOk result (λ a. ReadsBases S.kind dev.old dev.new
        (dump_bases dev.old.settings.region (metadata_at kv.old kv.old.number) p.now a)) }
    ensures lists { IsNoFile (metadata_at kv.old kv.old.number) p.now →
        remembered dev.new ≡ remembered dev.old }
    ensures reads { OnlyRead S.kind (between dev.old dev.new) }
    ensures dev { GoesOn S.kind dev.old dev.new [] }
{
    let number = kv.number();
    if let Err(_) = kv.pin(number) {
        return Err(Fault::Memory);
    }
    let shown = dump_at(alloc, dev, kv, number, p);
    kv.unpin(number);
    shown
}

/// Shows all bytes of the file at a path as it stands at a number that is pinned.
fn dump_at<S: SliceStore>(
    alloc: Global,
    dev: &mut Dev<'_, S>,
    kv: &Kv<Key, Value>,
    number: u64,
    p: &Path,
) -> Result<Answer, Fault>
    requires sound { IsSoundDev S.kind dev.old }
    requires pinned { IsTrue (is_pinned kv.now number) }
    requires inside { IsStoredInside S.kind (stores dev.old) dev.old.settings
        (metadata_at kv.now number) }
    ensures shows { IfOk result (IsDumped dev.old.settings.region (told_in S.kind dev.old)
        (RemembersTrue S.kind dev.old) (metadata_at kv.now number) p.now) }
    ensures fault { IfErr result (λ why. (why ≡ Fault.Memory) ⊎ LacksDump S.kind dev.old dev.new
        (metadata_at kv.now number) p.now why) }
    ensures answered { IfOk result IsDumpAnswer }
    ensures read { IfOk result (λ a. ReadsBases S.kind dev.old dev.new
        (dump_bases dev.old.settings.region (metadata_at kv.now number) p.now a)) }
    ensures lists { IsNoFile (metadata_at kv.now number) p.now →
        remembered dev.new ≡ remembered dev.old }
    ensures reads { OnlyRead S.kind (between dev.old dev.new) }
    ensures dev { GoesOn S.kind dev.old dev.new [] }
{
    let mut at = match Attempt::new(alloc, number) {
        Ok(at) => at,
        Err(_) => return Err(Fault::Memory),
    };
    let found = match look_up(alloc, kv, &mut at, p) {
        Ok(found) => found,
        Err(_) => return Err(Fault::Memory),
    };
    let Some(node) = found else {
        return Ok(Answer::Refused(Word::NoEnt));
    };
    match node {
        Node::Folder => return Ok(Answer::Refused(Word::IsDir)),
        Node::File(inode) => match dump_file(alloc, dev, kv, &mut at, inode) {
            Ok(answer) => return Ok(answer),
            Err(why) => return Err(why),
        },
    }
}

/// Shows all bytes of a file that an attempt sees.
fn dump_file<S: SliceStore>(
    alloc: Global,
    dev: &mut Dev<'_, S>,
    kv: &Kv<Key, Value>,
    at: &mut Attempt<Key, Value>,
    inode: InodeId,
) -> Result<Answer, Fault>
    requires sound { IsSoundDev S.kind dev.old }
    requires pinned { IsTrue (is_pinned kv.now at.old.base) }
    requires inside { IsStoredInside S.kind (stores dev.old) dev.old.settings (seen kv.now at.old) }
    ensures shows { IfOk result (IsShownFile dev.old.settings.region (told_in S.kind dev.old)
        (RemembersTrue S.kind dev.old) (seen kv.now at.old) inode) }
    ensures fault { IfErr result (λ why. (why ≡ Fault.Memory) ⊎ LacksFile S.kind dev.old dev.new
        (file_of inode (seen kv.now at.old)) why) }
    ensures answered { IfOk result IsDumpAnswer }
    ensures read { IfOk result (λ a. ReadsBases S.kind dev.old dev.new
        (file_bases dev.old.settings.region (file_of inode (seen kv.now at.old)) a)) }
    ensures reads { OnlyRead S.kind (between dev.old dev.new) }
    ensures dev { GoesOn S.kind dev.old dev.new [] }
{
    let settings = dev.settings;
    let len = match file_len(kv, at, inode, settings) {
        Ok(len) => len,
        Err(_) => return Err(Fault::Memory),
    };
    if len > MAX_DUMPED {
        return Ok(Answer::Refused(Word::Long));
    }
    // No file is longer than the cap.
    let n = len.min(settings.cap());
    let found = match pieces(alloc, dev, kv, at, inode, 0, n) {
        Ok(found) => found,
        Err(why) => return Err(why),
    };
    let mut out = Vec::new(alloc);
    match show(dev, found.as_slice(), 0, n, &mut out) {
        Ok(()) => {}
        Err(why) => return Err(why),
    }
    Ok(Answer::Shown(Bytes::of(out)))
}
