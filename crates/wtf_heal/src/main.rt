//! The program that makes copies again of what lay on lost servers.
#![tactic(auto)]

ghost use Rattle.std.specs.Prelude.{◌≡◌, ◌≢◌, ◌≤◌, ◌⊎◌, ℕ, List, [], Some, drop, map, string_bytes, IfErr};
ghost use Rattle.wtf_dev.specs.Each.{EachFollows};
ghost use Rattle.wtf_heal.specs.Program.{IsBroughtOut, IsEnd, IsHealRun, is_name, heal_open_status};
ghost use Rattle.wtf_healer.specs.Ends.{AreLostSame, HandsOne, run_span, sink_span};
ghost use Rattle.wtf_healer.specs.Heals.{Heals};
ghost use Rattle.wtf_healer.specs.Live.{IsLiveTree};
ghost use Rattle.wtf_healer.specs.Progress.{TellsProgress};
ghost use Rattle.wtf_healer.specs.Runs.{AreTelling, HasNextNumber, IsLiveTreeIn, IsUntouched, NoFaultRose};
ghost use Rattle.wtf_healer.specs.Words.{is_server_in, lost_in};
ghost use Rattle.wtf_model.specs.Tree.{Tree};
ghost use Rattle.wtf_replica.specs.Bytes.{byte_at};

mod devices;

use crate::devices::{Opened, in_folder, in_memory};
use std::alloc::Global;
use std::env::{self, Env};
use std::fs::File;
use std::io;
use std::process::ExitCode;
use wtf_dev::{Keeper, Shelf, Sink, SliceStore};
use wtf_healer::{OUT_OF_MEMORY, WORDS_REFUSED, WRITING_FAILED, wtf_heal};
use wtf_real::{FolderLock, OpenFault, StandIns, streams};

/// The greatest length of a path, in bytes: the system opens no longer one.
const PATH_BYTES: usize = 4_096;

/// The directory is missing, or a folder or the image in it could not be opened.
const NO_DIRECTORY: u8 = 10;

/// `wtf_heal DIR K..` stores anew what lay on the lost servers K, 1 to 16 different numbers from 0 to 15, in the store of the folder
/// DIR, which no other run may have meanwhile. A folder of a lost server that is missing is made, and may be empty. What was healed
/// is said on standard output by the lines `regions N` and `bytes M`; standard error takes the same two lines for what is healed so
/// far, each time another 256 regions are. For the DIR `-` stores and keeper are in memory, and there is nothing to heal. A DIR that is
/// missing, empty or begins with `-`, one that another run holds, or one where something cannot be opened, ends with status 10 before
/// the words are read.
fn main(rt: HostRuntime) -> ExitCode {
    ExitCode::from(status_of(&rt))
}

/// Does what the words ask for, and answers its status. The standard streams are all open before any other file is.
fn status_of(rt: &HostRuntime) -> u8
    ensures { IsEnd result }
{
    let standing = match StandIns::open(rt) {
        Ok(standing) => standing,
        Err(fault) => return open_status(fault),
    };
    let mut bytes = [0u8; PATH_BYTES];
    let Some(word) = word_given(rt, &mut bytes) else {
        return NO_DIRECTORY;
    };
    if word == "-" {
        return run(rt, in_memory(rt.alloc()));
    }
    if !is_name(word.as_bytes()) {
        return NO_DIRECTORY;
    }
    run_in(rt, &standing, word)
}

/// The status where a device could not be opened.
fn open_status(fault: OpenFault) -> u8
    ensures { result ≡ heal_open_status fault }
{
    match fault {
        OpenFault::Failed => NO_DIRECTORY,
        OpenFault::Memory => OUT_OF_MEMORY,
    }
}

/// Whether a word names a folder: it has a byte, and does not look like an option.
fn is_name(word: &[u8]) -> bool
    ensures { result ≡ is_name word.now }
{
    match word.first() {
        Some(first) => *first != b'-',
        None => false,
    }
}

/// The word behind the program's name, where there is one that is text.
fn word_given<'a>(rt: &HostRuntime, bytes: &'a mut [u8]) -> Option<&'a str> {
    let Ok(n) = rt.arg(1, bytes) else {
        return None;
    };
    match str::from_utf8(&bytes[..n]) {
        Ok(word) => Some(word),
        Err(_) => None,
    }
}

/// Heals the folder of a store, and holds the folder until that is over.
fn run_in(rt: &HostRuntime, standing: &StandIns<File>, dir: &str) -> u8
    ensures { IsEnd result }
{
    let lock = match FolderLock::open(rt, standing, dir) {
        Ok(lock) => lock,
        Err(fault) => return open_status(fault),
    };
    let status = run(rt, in_folder(rt, &lock));
    drop(lock);
    status
}

/// Heals the devices, where they could be opened: else no word is read.
fn run<S: SliceStore + Drop, K: Keeper + Drop>(
    rt: &HostRuntime,
    opened: Result<Opened<S, K>, OpenFault>,
) -> u8
    ensures status { IsEnd result }
    ensures unopened { IfErr opened (λ fault. result ≡ heal_open_status fault) }
{
    let mut opened = match opened {
        Ok(opened) => opened,
        Err(unopened) => return open_status(unopened),
    };
    let args = match args_of(rt) {
        Ok(args) => args,
        Err(status) => return status,
    };
    let alloc = rt.alloc();
    let Ok((_, mut out)) = streams(alloc, rt.stdin(), rt.stdout()) else {
        return OUT_OF_MEMORY;
    };
    let Ok((_, mut progress)) = streams(alloc, rt.stdin(), rt.stderr()) else {
        return OUT_OF_MEMORY;
    };
    let shelf = &mut opened.shelf;
    let keeper = &mut opened.keeper;
    let status = heal_over(
        alloc,
        args.as_slice(),
        &mut out,
        shelf,
        keeper,
        &mut progress,
    );
    status
}

/// Heals stores as the words behind the program's name and DIR ask, and answers the status. What `out` holds back then is brought
/// out; where that fails writing failed, however the run ended.
pub fn heal_over<O: Sink, P: Sink, S: SliceStore, K: Keeper>(
    alloc: Global,
    args: &[String],
    out: &mut O,
    shelf: &mut Shelf<S>,
    keeper: &mut K,
    progress: &mut P,
) -> u8
    ensures status { IsEnd result }
    ensures ran { IsHealRun S.kind (lost_in (map string_bytes (drop 2 args.now)))
        (run_span K.view K.follows (shelf.old, keeper.old) (shelf.new, keeper.new))
        (sink_span O.view out.old out.new) result }
    ensures follows { EachFollows S.kind shelf.old shelf.new [] }
    ensures lost { (ks : List ℕ) → lost_in (map string_bytes (drop 2 args.now)) ≡ Some ks →
        AreLostSame ks shelf.old shelf.new }
    ensures handed { HandsOne S.kind (lost_in (map string_bytes (drop 2 args.now)))
        (run_span K.view K.follows (shelf.old, keeper.old) (shelf.new, keeper.new)) }
    ensures healed { (held ks : List ℕ) (t : Tree) →
        lost_in (map string_bytes (drop 2 args.now)) ≡ Some ks → held ≢ [] →
        AreTelling S.kind ks shelf.old (K.view keeper.old) held → HasNextNumber held →
        IsLiveTree (byte_at S.kind shelf.old) (is_server_in ks) held t → result ≡ 0 →
        Heals S.kind ks
        (run_span K.view K.follows (shelf.old, keeper.old) (shelf.new, keeper.new))
        (sink_span O.view out.old out.new) t held }
    ensures complete { (held ks : List ℕ) (t : Tree) →
        lost_in (map string_bytes (drop 2 args.now)) ≡ Some ks → held ≢ [] →
        AreTelling S.kind ks shelf.old (K.view keeper.old) held →
        IsLiveTreeIn S.kind shelf.old (is_server_in ks) held t →
        NoFaultRose S.kind (O.view out.old, shelf.old, K.view keeper.old)
        (O.view out.new, shelf.new, K.view keeper.new) →
        (result ≡ 0) ⊎ (result ≡ 2) ⊎ (result ≡ 6) ⊎ (result ≡ 7) }
    ensures progress { TellsProgress (P.view progress.old) (P.view progress.new) }
    ensures silent { IsUntouched result → progress.new ≡ progress.old }
{
    let words = behind_dir(args);
    let found = wtf_heal(alloc, words, out, shelf, keeper, progress);
    let status = brought_out(out, found);
    status
}

/// Brings out what the sink of a run holds back that ended with this status, and answers the status then.
fn brought_out<O: Sink>(out: &mut O, found: u8) -> u8
    ensures out { IsBroughtOut found result (O.view out.old) (O.view out.new) }
    ensures faults { (O.view out.old).faults ≤ (O.view out.new).faults }
{
    match out.write(&[]) {
        Ok(_) => found,
        Err(_) => WRITING_FAILED,
    }
}

/// The words behind DIR, the word after the program's name.
fn behind_dir(args: &[String]) -> &[String]
    ensures { result.now ≡ drop 2 args.now }
{
    if args.len() < 2 {
        return &[];
    }
    &args[2..]
}

/// The program's name and the words after it, or the status where they cannot be had: words that are no text are refused.
fn args_of(rt: &HostRuntime) -> Result<Vec<String>, u8>
    ensures { IfErr result IsEnd }
{
    let all = match env::args(rt) {
        Ok(all) => all,
        Err(e) if e.kind() == io::ErrorKind::InvalidData => return Err(WORDS_REFUSED),
        Err(_) => return Err(OUT_OF_MEMORY),
    };
    match all.collect(rt.alloc()) {
        Ok(args) => Ok(args),
        Err(_) => Err(OUT_OF_MEMORY),
    }
}
