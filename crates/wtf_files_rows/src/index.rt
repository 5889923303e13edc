//! The calls on names one by one, on an attempt that sees its own changes.

ghost use Rattle.std.specs.Prelude.{◌≡◌, []};

use crate::store::path;
use crate::texts::{put, put_answer, put_name, put_number, put_word};
use std::alloc::Global;
use std::process::Abort;
use std::test::Fail;
use wtf_base::{InodeId, TxId};
use wtf_index::{
    create, link, list, look_up, make_file, mkdir, rename, rmdir, source, target, unlink,
};
use wtf_kv::{Changes, Kv};
use wtf_model::{Answer, Word};
use wtf_occ::Attempt;
use wtf_path::Path;
use wtf_values::{Delta, Key, NameSet, Node, Value};

/// A call, with its paths.
#[derive(Clone, Copy)]
enum Call {
    Mkdir(&'static str),
    Rmdir(&'static str),
    Create(&'static str),
    Unlink(&'static str),
    Rename(&'static str, &'static str),
    Link(&'static str, &'static str),
    List(&'static str),
    LookUp(&'static str),
    Source(&'static str),
    Target(&'static str),
    MakeFile(&'static str, &'static str),
}

/// Puts the root alone.
fn put_root(alloc: Global, sets: &mut Changes<Key, Value>) -> Result<(), Fail> {
    let root = path(alloc, "/")?;
    sets.delta(Key::Path(root), Delta::Put(Value::Node(Node::Folder)))?;
    let root = path(alloc, "/")?;
    sets.delta(
        Key::Dir(root),
        Delta::Put(Value::Names(NameSet::new(alloc))),
    )?;
    Ok(())
}

/// Installs the root alone as install 1, which it pins.
fn install_root(kv: &mut Kv<Key, Value>, sets: &Changes<Key, Value>) -> Result<(), Fail>
    requires { kv.old ≡ record { number = 0; pins = []; cells = [] } }
{
    let ready = kv.reserve_install(sets)?;
    kv.install(ready);
    kv.pin(1)?;
    Ok(())
}

/// A store whose tree is the root alone, as of install 1, which is pinned.
fn store_of(alloc: Global, sets: &Changes<Key, Value>) -> Result<Kv<Key, Value>, Fail> {
    let mut kv: Kv<Key, Value> = Kv::new(alloc)?;
    install_root(&mut kv, sets)?;
    Ok(kv)
}

fn store(alloc: Global) -> Result<Kv<Key, Value>, Fail> {
    let mut sets = Changes::new(alloc);
    put_root(alloc, &mut sets)?;
    store_of(alloc, &sets)
}

/// The answer to a call on a directory; none where the call is another one.
fn folder_answer(
    alloc: Global,
    kv: &Kv<Key, Value>,
    at: &mut Attempt<Key, Value>,
    call: Call,
    p: &Path,
) -> Result<Option<Answer>, Fail> {
    if !kv.is_pinned(at.base()) {
        return Err(Fail::from("no pin"));
    }
    match call {
        Call::Mkdir(_) => Ok(Some(mkdir(alloc, kv, at, p)?)),
        Call::Rmdir(_) => Ok(Some(rmdir(alloc, kv, at, p)?)),
        Call::List(_) => Ok(Some(list(alloc, kv, at, p)?)),
        _ => Ok(None),
    }
}

/// The answer to a call on a file; none where the call is another one.
fn file_answer(
    alloc: Global,
    kv: &Kv<Key, Value>,
    at: &mut Attempt<Key, Value>,
    call: Call,
    index: u32,
    (p, q): (&Path, &Path),
) -> Result<Option<Answer>, Fail> {
    if !kv.is_pinned(at.base()) {
        return Err(Fail::from("no pin"));
    }
    let tx = TxId(1);
    match call {
        Call::Create(_) => Ok(Some(create(alloc, kv, at, p, InodeId { tx, index })?)),
        Call::Unlink(_) => Ok(Some(unlink(alloc, kv, at, p)?)),
        Call::Rename(_, _) => Ok(Some(rename(alloc, kv, at, p, q)?)),
        Call::Link(_, _) => Ok(Some(link(alloc, kv, at, p, q)?)),
        _ => Ok(None),
    }
}

/// Makes a file in a directory.
fn put_made(
    shown: &mut String,
    alloc: Global,
    at: &mut Attempt<Key, Value>,
    (dir, p): (&Path, &Path),
    index: u32,
) -> Result<(), Fail> {
    make_file(alloc, at, dir, p, InodeId { tx: TxId(1), index })?;
    put(shown, "ok")
}

/// Writes what a look, or a part of a call, tells.
fn put_told(
    shown: &mut String,
    alloc: Global,
    kv: &Kv<Key, Value>,
    at: &mut Attempt<Key, Value>,
    call: Call,
    p: &Path,
) -> Result<(), Fail> {
    if !kv.is_pinned(at.base()) {
        return Err(Fail::from("no pin"));
    }
    match call {
        Call::LookUp(_) => put_node(shown, look_up(alloc, kv, at, p)?),
        Call::Source(_) => put_source(shown, source(alloc, kv, at, p)?),
        Call::Target(_) => put_target(shown, &target(alloc, kv, at, p)?),
        _ => put(shown, "no call"),
    }
}

fn put_node(shown: &mut String, node: Option<Node>) -> Result<(), Fail> {
    match node {
        Some(Node::Folder) => put(shown, "dir"),
        Some(Node::File(inode)) => put_number(shown, "file ", inode.index as u64),
        None => put(shown, "none"),
    }
}

fn put_source(shown: &mut String, found: Result<InodeId, Word>) -> Result<(), Fail> {
    match found {
        Ok(inode) => put_node(shown, Some(Node::File(inode))),
        Err(word) => put_word(shown, word),
    }
}

fn put_target(shown: &mut String, dir: &Result<Path, Word>) -> Result<(), Fail> {
    match dir {
        Ok(dir) => {
            put(shown, "in ")?;
            put_name(shown, dir.as_bytes())
        }
        Err(word) => put_word(shown, *word),
    }
}

/// The paths of a call; the root in place of a second one where it takes one.
fn texts_of(call: Call) -> (&'static str, &'static str) {
    match call {
        Call::Mkdir(p) => (p, "/"),
        Call::Rmdir(p) => (p, "/"),
        Call::Create(p) => (p, "/"),
        Call::Unlink(p) => (p, "/"),
        Call::Rename(p, q) => (p, q),
        Call::Link(p, q) => (p, q),
        Call::List(p) => (p, "/"),
        Call::LookUp(p) => (p, "/"),
        Call::Source(p) => (p, "/"),
        Call::Target(p) => (p, "/"),
        Call::MakeFile(dir, p) => (dir, p),
    }
}

/// Writes what comes of a call on these paths.
fn put_came(
    shown: &mut String,
    alloc: Global,
    kv: &Kv<Key, Value>,
    at: &mut Attempt<Key, Value>,
    (call, index): (Call, u32),
    (p, q): (&Path, &Path),
) -> Result<(), Fail> {
    if let Call::MakeFile(_, _) = call {
        return put_made(shown, alloc, at, (p, q), index);
    }
    if let Some(answer) = folder_answer(alloc, kv, at, call, p)? {
        return put_answer(shown, &answer);
    }
    if let Some(answer) = file_answer(alloc, kv, at, call, index, (p, q))? {
        return put_answer(shown, &answer);
    }
    put_told(shown, alloc, kv, at, call, p)
}

/// Writes what comes of a call.
fn put_call(
    shown: &mut String,
    alloc: Global,
    kv: &Kv<Key, Value>,
    at: &mut Attempt<Key, Value>,
    call: Call,
    index: u32,
) -> Result<(), Fail> {
    let (p, q) = texts_of(call);
    let p = path(alloc, p)?;
    let q = path(alloc, q)?;
    put_came(shown, alloc, kv, at, (call, index), (&p, &q))
}

/// Whether what comes of a call is written so.
fn call_comes(
    alloc: Global,
    kv: &Kv<Key, Value>,
    at: &mut Attempt<Key, Value>,
    call: Call,
    index: u32,
    want: &str,
) -> Result<bool, Fail> {
    let mut shown = String::new(alloc);
    put_call(&mut shown, alloc, kv, at, call, index)?;
    Ok(shown.as_str() == want)
}

/// Makes the calls one after another on one attempt: the number of the first of which not that comes
/// which should, from 1 on, or 0.
fn first_wrong(
    alloc: Global,
    kv: &Kv<Key, Value>,
    at: &mut Attempt<Key, Value>,
    rows: &[(Call, &str)],
) -> Result<u32, Fail> {
    let mut index = 0u32;
    for (call, want) in rows {
        index = index.saturating_add(1);
        if !call_comes(alloc, kv, at, *call, index, *want)? {
            return Ok(index);
        }
    }
    Ok(0)
}

fn first_wrong_of(alloc: Global, rows: &[(Call, &str)]) -> Result<u32, Fail> {
    let kv = store(alloc)?;
    let mut at: Attempt<Key, Value> = Attempt::new(alloc, 1)?;
    first_wrong(alloc, &kv, &mut at, rows)
}

/// Makes the calls of the rows, and stops where one of them does not come as it should.
fn all_answer(rt: &impl Abort, alloc: Global, rows: &[(Call, &str)]) -> Result<(), Fail> {
    let wrong = first_wrong_of(alloc, rows)?;
    assert_eq!(rt; wrong, 0, "the first row that comes otherwise");
    Ok(())
}

#[test]
fn names_and_refusals(rt: HostRuntime) -> Result<(), Fail> {
    static ROWS: [(Call, &str); 17] = [
        (Call::Create("/a"), "ok"),
        (Call::Create("/c"), "ok"),
        (Call::Mkdir("/"), "refused exists"),
        (Call::Rmdir("/"), "refused root"),
        (Call::Mkdir("/x/y"), "refused noparent"),
        (Call::Create("/a/b"), "refused noparent"),
        (Call::Rmdir("/a"), "refused notdir"),
        (Call::Unlink("/"), "refused isdir"),
        (Call::List("/a"), "refused notdir"),
        (Call::Mkdir("/d"), "ok"),
        (Call::LookUp("/d"), "dir"),
        (Call::Rmdir("/d"), "ok"),
        (Call::LookUp("/d"), "none"),
        (Call::Rename("/a", "/b"), "ok"),
        (Call::LookUp("/b"), "file 1"),
        (Call::LookUp("/a"), "none"),
        (Call::List("/"), "names b c"),
    ];
    all_answer(&rt, rt.alloc(), &ROWS)
}

#[test]
fn a_directory_with_entries(rt: HostRuntime) -> Result<(), Fail> {
    static ROWS: [(Call, &str); 11] = [
        (Call::Mkdir("/logs"), "ok"),
        (Call::Create("/logs/mon"), "ok"),
        (Call::Create("/logs/tue"), "ok"),
        (Call::Create("/logs/week"), "ok"),
        (Call::Rmdir("/logs"), "refused notempty"),
        (Call::List("/logs"), "names mon tue week"),
        (Call::Unlink("/logs/tue"), "ok"),
        (Call::Unlink("/logs/tue"), "refused noent"),
        (Call::Rename("/logs/mon", "/mon"), "ok"),
        (Call::List("/logs"), "names week"),
        (Call::List("/"), "names logs mon"),
    ];
    all_answer(&rt, rt.alloc(), &ROWS)
}

#[test]
fn paths_of_one_file(rt: HostRuntime) -> Result<(), Fail> {
    static ROWS: [(Call, &str); 15] = [
        (Call::Create("/a"), "ok"),
        (Call::Mkdir("/d"), "ok"),
        (Call::Link("/a", "/d/b"), "ok"),
        (Call::LookUp("/d/b"), "file 1"),
        (Call::Unlink("/a"), "ok"),
        (Call::LookUp("/d/b"), "file 1"),
        (Call::Link("/a", "/c"), "refused noent"),
        (Call::Link("/d", "/c"), "refused isdir"),
        (Call::Link("/d/b", "/d/b"), "refused exists"),
        (Call::Link("/d/b", "/x/c"), "refused noparent"),
        (Call::Rename("/d/b", "/c"), "ok"),
        (Call::List("/"), "names c d"),
        (Call::Unlink("/c"), "ok"),
        (Call::LookUp("/c"), "none"),
        (Call::List("/"), "names d"),
    ];
    all_answer(&rt, rt.alloc(), &ROWS)
}

#[test]
fn the_parts_of_calls(rt: HostRuntime) -> Result<(), Fail> {
    static ROWS: [(Call, &str); 6] = [
        (Call::Target("/a"), "in /"),
        (Call::MakeFile("/", "/a"), "ok"),
        (Call::Target("/a"), "refused exists"),
        (Call::Source("/a"), "file 2"),
        (Call::Source("/"), "refused isdir"),
        (Call::List("/"), "names a"),
    ];
    all_answer(&rt, rt.alloc(), &ROWS)
}
