//! A core from the image of an empty store, images that are refused, and saving from outside.

ghost use Rattle.std.specs.Prelude.{◌≡◌, ◌<◌, ◌≤◌, ◌^◌, false, length, IfOk, OnOk};
ghost use Rattle.wtf_dev.specs.Memory.{mem_store};
ghost use Rattle.wtf_model.specs.Form.{IsFormEvent};
ghost use Rattle.wtf_core.specs.Named.{IsInside};

use std::alloc::Global;
use std::test::Fail;
use wtf_base::Settings;
use wtf_core::Core;
use wtf_dev::{Keeper, MemKeeper, MemStore, Shelf, SliceStore};
use wtf_image::LoadError;
use wtf_model::{Answer, Event, Row};

/// The image of an empty store, with four servers, two replicas and regions of 65,536 bytes.
const EMPTY_IMAGE: &[u8] =
    b"WTFIMG02\x04\x02\x00\x01\x00\x00\x00\x00\x00\x00\x00\x00\x00\x00\x00\x00\x00\x00\x00\x00\x00\x01\x00\x00\x00\x01\x00\x01/\x00\x00\x00\x00\x00";

/// The same without its last byte.
const CUT_IMAGE: &[u8] =
    b"WTFIMG02\x04\x02\x00\x01\x00\x00\x00\x00\x00\x00\x00\x00\x00\x00\x00\x00\x00\x00\x00\x00\x00\x01\x00\x00\x00\x01\x00\x01/\x00\x00\x00\x00";

/// The same with no server.
const SERVERLESS_IMAGE: &[u8] =
    b"WTFIMG02\x00\x02\x00\x01\x00\x00\x00\x00\x00\x00\x00\x00\x00\x00\x00\x00\x00\x00\x00\x00\x00\x01\x00\x00\x00\x01\x00\x01/\x00\x00\x00\x00\x00";

/// The image of the root alone, with two servers, two replicas and regions of 64 bytes: the number of
/// installs is 0, and the next transaction 1.
const TWO_IMAGE: &[u8] =
    b"WTFIMG02\x02\x02\x00\x00\x00\x40\x00\x00\x00\x00\x00\x00\x00\x00\x00\x00\x00\x00\x00\x00\x00\x01\x00\x00\x00\x01\x00\x01/\x00\x00\x00\x00\x00";

/// Images, and why they are refused.
const REFUSED: [(&[u8], LoadError); 2] = [
    (CUT_IMAGE, LoadError::NotAnImage),
    (SERVERLESS_IMAGE, LoadError::BadSettings),
];

/// The server that goes down, the keeper's call that fails, what two saves answer, and what the keeper then holds. There
/// is no server 2.
const SAVES: [(u8, Option<u64>, (Option<u64>, Option<u64>), &[u8]); 2] = [
    (1, None, (None, None), b""),
    (2, Some(0), (None, Some(0)), TWO_IMAGE),
];

/// No calls, or the one with this number.
fn calls(alloc: Global, number: Option<u64>) -> Result<Vec<u64>, Fail> {
    let mut calls = Vec::new(alloc);
    if let Some(number) = number {
        calls.push(number)?;
    }
    Ok(calls)
}

/// A keeper that holds these bytes, and fails at this call.
fn keeper_of(alloc: Global, bytes: &[u8], fails: Option<u64>) -> Result<MemKeeper, Fail> {
    let fails = calls(alloc, fails)?;
    Ok(MemKeeper::new(alloc, bytes.to_vec(alloc)?, fails))
}

/// So many stores, which never fail.
fn stores(alloc: Global, count: u8) -> Result<Vec<MemStore>, Fail> {
    let mut stores = Vec::new(alloc);
    for _ in 0..count {
        stores.push(MemStore::new(alloc, Vec::new(alloc)))?;
    }
    Ok(stores)
}

/// The shelf of so many stores, 1 to 16.
fn shelf_of(alloc: Global, count: u8) -> Result<Shelf<MemStore>, Fail> {
    let stores = stores(alloc, count)?;
    if stores.len() < 1 || stores.len() > 16 {
        return Err(Fail::from("stores"));
    }
    Ok(Shelf::new(alloc, stores))
}

/// A look whether a core can be called over these stores.
fn is_ready(core: &Core, shelf: &Shelf<MemStore>) -> Result<(), Fail>
    ensures open { OnOk result (core.now.closed ≡ false) }
    ensures shelf { OnOk result (core.now.settings.servers ≤ length shelf.now) }
    ensures number { OnOk result (core.now.tables.kv.number < 2 ^ 63) }
    ensures next_tx { OnOk result (core.now.tables.next_tx < 2 ^ 63) }
{
    if core.closed() || core.settings().servers > shelf.len() {
        return Err(Fail::from("a core that is closed, or has too few stores"));
    }
    if core.number() >= 1 << 63 || core.next_tx() >= 1 << 63 {
        return Err(Fail::from("a number that is too great"));
    }
    Ok(())
}

/// The core of an image, over 16 stores.
fn load(alloc: Global, image: &[u8], shelf: &Shelf<MemStore>) -> Result<Core, LoadError>
    ensures { IfOk result (IsInside mem_store shelf.now) }
{
    if shelf.len() != 16 {
        return Err(LoadError::Memory);
    }
    Core::load(alloc, image, shelf)
}

/// A new core with two servers, two replicas and regions of 64 bytes.
fn new_core(alloc: Global, shelf: &Shelf<MemStore>) -> Result<Core, Fail>
    ensures { IfOk result (IsInside mem_store shelf.now) }
{
    let settings = Settings::new(2, 2, 64).ok_or("settings")?;
    Ok(Core::new(alloc, settings)?)
}

/// How a core answers a line.
fn line(
    core: &mut Core,
    shelf: &mut Shelf<MemStore>,
    keeper: &mut MemKeeper,
    event: &Event,
) -> Result<Answer, Fail>
    requires form { IsFormEvent event.now }
    requires inside { IsInside mem_store shelf.old core.old }
    ensures { OnOk result (IsInside mem_store shelf.new core.new) }
{
    is_ready(&*core, &*shelf)?;
    Ok(core.event(shelf, keeper, event)?)
}

/// Whether the rows of a tree are the root alone.
fn is_root(rows: &[Row]) -> bool {
    rows.len() == 1 && rows[0].path.as_bytes() == b"/".as_slice() && rows[0].len.is_none()
}

/// Whether an answer shows the root alone.
fn shows_root(answer: Answer) -> bool {
    match &answer {
        Answer::Tree(rows) => is_root(rows.as_slice()),
        _ => false,
    }
}

/// The line that takes a server down, or `tree`.
fn line_of(down: Option<u8>) -> Event
    ensures { IsFormEvent result }
{
    match down {
        Some(server) => Event::Down(server as u64),
        None => Event::Tree,
    }
}

/// How a core answers it.
fn answered(
    core: &mut Core,
    shelf: &mut Shelf<MemStore>,
    keeper: &mut MemKeeper,
    down: Option<u8>,
) -> Result<Answer, Fail>
    requires { IsInside mem_store shelf.old core.old }
    ensures { OnOk result (IsInside mem_store shelf.new core.new) }
{
    let event = line_of(down);
    line(core, shelf, keeper, &event)
}

/// Whether that answer shows the root alone.
fn answers_root(
    core: &mut Core,
    shelf: &mut Shelf<MemStore>,
    keeper: &mut MemKeeper,
    down: Option<u8>,
) -> Result<bool, Fail>
    requires { IsInside mem_store shelf.old core.old }
    ensures { OnOk result (IsInside mem_store shelf.new core.new) }
{
    match answered(core, shelf, keeper, down) {
        Ok(answer) => return Ok(shows_root(answer)),
        Err(why) => return Err(why),
    }
}

/// How it answers a save.
fn save(
    core: &mut Core,
    shelf: &mut Shelf<MemStore>,
    keeper: &mut MemKeeper,
) -> Result<Answer, Fail>
    requires { IsInside mem_store shelf.old core.old }
    ensures { OnOk result (IsInside mem_store shelf.new core.new) }
{
    is_ready(&*core, &*shelf)?;
    Ok(core.save(shelf, keeper)?)
}

/// The number that a save answered; none of another answer than `saved`, and of a fault.
fn saved_number(answer: Answer) -> Result<Option<u64>, Fail> {
    match &answer {
        Answer::Saved(number) => Ok(Some(*number)),
        Answer::FaultSave => Ok(None),
        _ => Err(Fail::from("not an answer of a save")),
    }
}

/// The number that a core answers to a save.
fn saved(
    core: &mut Core,
    shelf: &mut Shelf<MemStore>,
    keeper: &mut MemKeeper,
) -> Result<Option<u64>, Fail>
    requires { IsInside mem_store shelf.old core.old }
    ensures { OnOk result (IsInside mem_store shelf.new core.new) }
{
    match save(core, shelf, keeper) {
        Ok(answer) => return saved_number(answer),
        Err(why) => return Err(why),
    }
}

/// Takes a server down, and saves twice.
fn saved_twice(
    core: &mut Core,
    shelf: &mut Shelf<MemStore>,
    keeper: &mut MemKeeper,
    server: u8,
) -> Result<(Option<u64>, Option<u64>), Fail>
    requires { IsInside mem_store shelf.old core.old }
{
    answers_root(core, shelf, keeper, Some(server))?;
    let first = saved(core, shelf, keeper)?;
    let second = saved(core, shelf, keeper)?;
    Ok((first, second))
}

/// What two saves of a new core answer with a server down.
fn saves(
    alloc: Global,
    shelf: &mut Shelf<MemStore>,
    keeper: &mut MemKeeper,
    server: u8,
) -> Result<(Option<u64>, Option<u64>), Fail> {
    let mut core = new_core(alloc, &*shelf)?;
    saved_twice(&mut core, shelf, keeper, server)
}

/// Whether two saves of a new core answer so, and leave this with the keeper.
fn saves_so(
    alloc: Global,
    server: u8,
    fails: Option<u64>,
    want: (Option<u64>, Option<u64>),
    image: &[u8],
) -> Result<bool, Fail> {
    let mut shelf = shelf_of(alloc, 2)?;
    let mut keeper = keeper_of(alloc, b"", fails)?;
    let (first, second) = saves(alloc, &mut shelf, &mut keeper, server)?;
    Ok(first == want.0 && second == want.1 && keeper.held() == image)
}

/// Whether a core says that it has four servers, no install and no transaction yet, and is open.
fn is_first(core: &Core) -> bool {
    core.settings().servers == 4 && core.number() == 0 && core.next_tx() == 1 && !core.closed()
}

/// Whether the core of the image of an empty store is that of one.
fn is_empty(
    alloc: Global,
    shelf: &mut Shelf<MemStore>,
    keeper: &mut MemKeeper,
) -> Result<bool, Fail> {
    let mut core = load(alloc, EMPTY_IMAGE, &*shelf)?;
    let first = is_first(&core);
    let root = answers_root(&mut core, shelf, keeper, None)?;
    Ok(first && root)
}

/// The same over 16 new stores.
fn loads_empty(alloc: Global) -> Result<bool, Fail> {
    let mut shelf = shelf_of(alloc, 16)?;
    let mut keeper = keeper_of(alloc, EMPTY_IMAGE, None)?;
    is_empty(alloc, &mut shelf, &mut keeper)
}

/// Whether an image is refused for this reason.
fn is_refused(alloc: Global, image: &[u8], want: LoadError) -> Result<bool, Fail> {
    let shelf = shelf_of(alloc, 16)?;
    match load(alloc, image, &shelf) {
        Ok(_) => Ok(false),
        Err(why) => Ok(why == want),
    }
}

#[test]
fn loads_the_first_image(rt: HostRuntime) -> Result<(), Fail> {
    assert!(rt; loads_empty(rt.alloc())?);
    Ok(())
}

#[test]
fn damaged_images_are_refused(rt: HostRuntime) -> Result<(), Fail> {
    for (image, want) in REFUSED {
        assert!(rt; is_refused(rt.alloc(), image, want)?);
    }
    Ok(())
}

/// A save over a server that is down leaves the keeper as it is, and a keeper that failed is handed the image again.
#[test]
fn saves_are_answered(rt: HostRuntime) -> Result<(), Fail> {
    for (server, fails, want, image) in SAVES {
        assert!(rt;
            saves_so(rt.alloc(), server, fails, want, image)?,
            "server {server}"
        );
    }
    Ok(())
}
