//! Rows of the healer. Where slices go is the ring's affair, so a row counts in how many of some runs something comes out.

use crate::devices::{Failing, Kept, NO_CALL, State, heal, left, made};
use std::alloc::Global;
use std::test::Fail;
use wtf_trial::devices::{Ended, NONE, run_on};

/// A script that makes a file of four bytes.
const FOUR_BYTES: &str = "c0 begin\nc0 create /a\nc0 open f0 /a\nc0 write f0 t:abcd\nc0 try\n";

/// One that gives it a second path.
const SHARED: &str =
    "c0 begin\nc0 create /a\nc0 open f0 /a\nc0 write f0 t:abcd\nc0 link /a /b\nc0 try\n";

/// Three servers, two copies each.
const THREE: &str = "--servers 3";

const HEALED_NOTHING: &str = "regions 0\nbytes 0\n";

const HEALED_LISTS: &str = "regions 1\nbytes 0\n";

const HEALED_FOUR: &str = "regions 1\nbytes 4\n";

/// Each of three servers, with its word.
const SERVERS: [(u8, &str); 3] = [(0, "0"), (1, "1"), (2, "2")];

/// Whether a run came to this status and this output.
fn is_so(ended: &Ended, status: u8, output: &str) -> bool {
    ended.status == status && ended.output.as_slice() == output.as_bytes()
}

/// Whether the file reads as it should while a server is down.
fn reads(alloc: Global, lost: &str, kept: &mut Kept) -> Result<bool, Fail> {
    let script = format!(in alloc; "sys down {lost}\nsys dump /a\nsys up {lost}\n")?;
    let image = kept.image.as_slice();
    let ended = run_on(alloc, "", script.as_bytes(), NONE, &mut kept.shelf, image)?;
    let want = b"ok\ndata x:61626364\nok\n".as_slice();
    Ok(ended.status == 0 && ended.output.as_slice().ends_with(want))
}

/// Heals what a script left, after one server was lost whose store is left so, and looks that all reads as it did and
/// that nothing is left to heal; what was written.
fn heal_whole(alloc: Global, script: &str, server: (u8, &str), how: State) -> Result<Ended, Fail> {
    let mut kept = made(alloc, 3, THREE, script)?;
    kept.shelf = left(alloc, &mut kept.shelf, server.0, how)?;
    let ended = heal(
        alloc,
        server.1,
        &mut kept.shelf,
        kept.image.as_slice(),
        NO_CALL,
    )?;
    kept.image = ended.kept.as_slice().to_vec(alloc)?;
    if ended.status != 0 || !reads(alloc, server.1, &mut kept)? {
        return Err(Fail::from("the bytes are not those that were written"));
    }
    let again = heal(
        alloc,
        server.1,
        &mut kept.shelf,
        kept.image.as_slice(),
        NO_CALL,
    )?;
    if !is_so(&again, 0, HEALED_NOTHING) {
        return Err(Fail::from("the second pass found something to heal"));
    }
    Ok(ended)
}

/// In how many of three runs, in each of which another server is lost, this comes out; in the others nothing is healed.
fn count_of(alloc: Global, script: &str, how: State, output: &str) -> Result<u32, Fail> {
    let mut count = 0u32;
    for server in SERVERS {
        let ended = heal_whole(alloc, script, server, how)?;
        if is_so(&ended, 0, output) {
            count = count.saturating_add(1);
        } else if !is_so(&ended, 0, HEALED_NOTHING) {
            return Err(Fail::from("another output"));
        }
    }
    Ok(count)
}

#[test]
fn two_of_three_servers_had_the_bytes(rt: HostRuntime) -> Result<(), Fail> {
    let count = count_of(rt.alloc(), FOUR_BYTES, State::Whole, HEALED_FOUR)?;
    assert!(rt; count == 2);
    Ok(())
}

#[test]
fn a_lost_store_may_be_empty(rt: HostRuntime) -> Result<(), Fail> {
    let count = count_of(rt.alloc(), FOUR_BYTES, State::Empty, HEALED_FOUR)?;
    assert!(rt; count == 2);
    Ok(())
}

/// Whether a file keeps its two paths where what lay on this server is made anew: one region is, at most.
fn keeps_paths(alloc: Global, server: (u8, &str)) -> Result<bool, Fail> {
    let mut kept = made(alloc, 3, THREE, SHARED)?;
    kept.shelf = left(alloc, &mut kept.shelf, server.0, State::Empty)?;
    let image = kept.image.as_slice();
    let healed = heal(alloc, server.1, &mut kept.shelf, image, NO_CALL)?;
    let once = is_so(&healed, 0, HEALED_FOUR) || is_so(&healed, 0, HEALED_NOTHING);
    let lost = server.1;
    let script = format!(in alloc;
        "c0 begin\nc0 stat /a\nsys down {lost}\nsys dump /b\nsys up {lost}\n"
    )?;
    let image = healed.kept.as_slice();
    let shown = run_on(alloc, "", script.as_bytes(), NONE, &mut kept.shelf, image)?;
    let want = b"file 4 links 2\nok\ndata x:61626364\nok\n".as_slice();
    Ok(once && shown.output.as_slice().ends_with(want))
}

#[test]
fn a_file_of_two_paths_is_healed_once(rt: HostRuntime) -> Result<(), Fail> {
    for server in SERVERS {
        assert!(rt; keeps_paths(rt.alloc(), server)?, "{}", server.1);
    }
    Ok(())
}

/// Whether the healer makes an image of the first version, after this server was lost, one of the second.
fn renews(alloc: Global, server: (u8, &str)) -> Result<bool, Fail> {
    let mut kept = made(alloc, 3, THREE, FOUR_BYTES)?;
    kept.shelf = left(alloc, &mut kept.shelf, server.0, State::Whole)?;
    let mut old = kept.image.as_slice().to_vec(alloc)?;
    if let Some(version) = old.get_mut(7) {
        *version = b'1';
    }
    let ended = heal(alloc, server.1, &mut kept.shelf, old.as_slice(), NO_CALL)?;
    Ok(is_so(&ended, 0, HEALED_FOUR) && ended.kept.as_slice().starts_with(b"WTFIMG02"))
}

/// Two of three servers had the bytes.
#[test]
fn an_old_image_is_healed_to_a_new_one(rt: HostRuntime) -> Result<(), Fail> {
    let mut count = 0u32;
    for server in SERVERS {
        if renews(rt.alloc(), server)? {
            count = count.saturating_add(1);
        }
    }
    assert!(rt; count == 2);
    Ok(())
}

/// The bytes, while a server is down, and after that their list in a slice.
fn spilled(alloc: Global, down: &str) -> Result<String, Fail> {
    Ok(format!(in alloc;
        "sys down {down}\n{FOUR_BYTES}sys up {down}\nsys plan j0 spill /a 0\nsys put j0\n"
    )?)
}

/// Other bytes, and then, while a server is down, those that are read.
fn hidden(alloc: Global, down: &str) -> Result<String, Fail> {
    Ok(format!(in alloc;
        "c0 begin\nc0 create /a\nc0 open f0 /a\nc0 write f0 t:wxyz\nc0 seek f0 set 0\nsys down {down}\nc0 write f0 t:abcd\nc0 try\nsys up {down}\n"
    )?)
}

/// In how many of three runs a region is healed for what none of its bytes lies in: the slice of its list, where
/// `is_list`, or bytes that others hide.
fn count_unseen(alloc: Global, is_list: bool) -> Result<u32, Fail> {
    let mut count = 0u32;
    for server in SERVERS {
        let script = if is_list {
            spilled(alloc, server.1)?
        } else {
            hidden(alloc, server.1)?
        };
        let ended = heal_whole(alloc, script.as_str(), server, State::Empty)?;
        if is_so(&ended, 0, HEALED_LISTS) {
            count = count.saturating_add(1);
        } else if !is_so(&ended, 0, HEALED_NOTHING) {
            return Err(Fail::from("another output"));
        }
    }
    Ok(count)
}

#[test]
fn a_list_alone_may_be_lost(rt: HostRuntime) -> Result<(), Fail> {
    let count = count_unseen(rt.alloc(), true)?;
    assert!(rt; count == 2);
    Ok(())
}

#[test]
fn hidden_bytes_alone_may_be_lost(rt: HostRuntime) -> Result<(), Fail> {
    let count = count_unseen(rt.alloc(), false)?;
    assert!(rt; count == 2);
    Ok(())
}

/// Words that are refused, with two servers and two copies.
const REFUSED: [&str; 5] = ["0", "0 0", "16", "01", ""];

/// Whether words are refused, and nothing is changed.
fn are_refused(alloc: Global, words: &str) -> Result<bool, Fail> {
    let mut kept = made(alloc, 2, "--servers 2", FOUR_BYTES)?;
    let ended = heal(
        alloc,
        words,
        &mut kept.shelf,
        kept.image.as_slice(),
        NO_CALL,
    )?;
    Ok(is_so(&ended, 2, "") && ended.kept.as_slice() == kept.image.as_slice())
}

#[test]
fn words_are_refused(rt: HostRuntime) -> Result<(), Fail> {
    for words in REFUSED {
        let refused = are_refused(rt.alloc(), words)?;
        assert!(rt; refused, "{words}");
    }
    Ok(())
}

/// Whether an empty keeper stays empty.
fn is_nothing(alloc: Global) -> Result<bool, Fail> {
    let mut kept = made(alloc, 2, "--servers 2", "")?;
    let ended = heal(alloc, "0", &mut kept.shelf, &[], NO_CALL)?;
    Ok(is_so(&ended, 0, HEALED_NOTHING) && ended.kept.as_slice().is_empty())
}

#[test]
fn an_empty_keeper_has_nothing_to_heal(rt: HostRuntime) -> Result<(), Fail> {
    let nothing = is_nothing(rt.alloc())?;
    assert!(rt; nothing);
    Ok(())
}

/// What the healer comes to where one server is lost and another one's store is left so.
fn with_two(alloc: Global, script: &str, lost: &str, other: u8, how: State) -> Result<Ended, Fail> {
    let mut kept = made(alloc, 3, THREE, script)?;
    let mut shelf = left(alloc, &mut kept.shelf, other, how)?;
    let ended = heal(alloc, lost, &mut shelf, kept.image.as_slice(), NO_CALL)?;
    if ended.status != 0 && ended.kept.as_slice() != kept.image.as_slice() {
        return Err(Fail::from("another image"));
    }
    Ok(ended)
}

/// How often, over all pairs of a server that is lost and another one whose store is left so, this comes out. The number of
/// the other one is put behind `output` where it is not whole.
fn pairs(alloc: Global, script: &str, how: State, status: u8, output: &str) -> Result<u32, Fail> {
    let mut count = 0u32;
    for lost in SERVERS {
        for other in SERVERS {
            if lost.0 != other.0 {
                let ended = with_two(alloc, script, lost.1, other.0, how)?;
                let numbered = format!(in alloc; "{output}{}\n", other.1)?;
                if is_so(&ended, status, output) || is_so(&ended, status, numbered.as_str()) {
                    count = count.saturating_add(1);
                }
            }
        }
    }
    Ok(count)
}

/// The bytes are on two servers. Where one of them is lost, the other one fails in its first read, and the third one as it
/// takes the bytes. Where the third one is lost, nothing is healed, and the first sync that is asked for fails.
#[test]
fn stores_fail(rt: HostRuntime) -> Result<(), Fail> {
    let write = pairs(rt.alloc(), FOUR_BYTES, State::Failing, 11, "fault write\n")?;
    assert!(rt; write == 2);
    let sync = pairs(rt.alloc(), FOUR_BYTES, State::Failing, 5, "")?;
    assert!(rt; sync == 2);
    Ok(())
}

/// The fault of a read names the server of the last copy, whichever of the two is lost.
fn names_the_last(alloc: Global) -> Result<bool, Fail> {
    let mut count = 0u32;
    for (a, b, want) in [
        (0u8, 1u8, "fault read 1\n"),
        (0, 2, "fault read 2\n"),
        (1, 2, "fault read 2\n"),
    ] {
        let one = with_two(alloc, FOUR_BYTES, SERVERS[a as usize].1, b, State::Failing)?;
        let other = with_two(alloc, FOUR_BYTES, SERVERS[b as usize].1, a, State::Failing)?;
        if is_so(&one, 11, want) && is_so(&other, 11, want) {
            count = count.saturating_add(1);
        }
    }
    Ok(count == 1)
}

#[test]
fn a_read_fails(rt: HostRuntime) -> Result<(), Fail> {
    let named = names_the_last(rt.alloc())?;
    assert!(rt; named);
    Ok(())
}

/// The files of a script, in the order in which they are made. The bytes of the first and of the last one lie on other servers, of
/// which one is the same.
const FILES: [&str; 5] = ["/a", "/b", "/c", "/d", "/e"];

/// A script that makes all files, of which these have four bytes.
fn files_of(alloc: Global, filled: &[&str]) -> Result<String, Fail> {
    let mut script = "c0 begin\n".to_string(alloc)?;
    for name in FILES {
        script = format!(in alloc; "{script}c0 create {name}\n")?;
    }
    for name in filled.iter() {
        script = format!(in alloc; "{script}c0 open f0 {name}\nc0 write f0 t:abcd\nc0 close f0\n")?;
    }
    Ok(format!(in alloc; "{script}c0 try\n")?)
}

/// What the healer comes to where these files have bytes, one server is lost, and another one fails.
fn with_files(alloc: Global, filled: &[&str], lost: &str, other: u8) -> Result<Ended, Fail> {
    let script = files_of(alloc, filled)?;
    with_two(alloc, script.as_str(), lost, other, State::Failing)
}

/// Whether the first and the last file have different faults, each where it alone has bytes. Where both have, it is the fault of the
/// first one, or of the last one where the first one has none.
fn are_two_faults(alloc: Global, lost: &str, other: u8) -> Result<bool, Fail> {
    let (first, last) = (FILES[0], FILES[4]);
    let one = with_files(alloc, &[first], lost, other)?;
    let two = with_files(alloc, &[last], lost, other)?;
    let both = with_files(alloc, &[first, last], lost, other)?;
    let named = if one.status == 11 { &one } else { &two };
    if !both.has(named.status, named.output.as_slice()) {
        return Err(Fail::from("another fault than the first"));
    }
    Ok(one.status == 11 && two.status == 11 && !one.has(11, two.output.as_slice()))
}

/// The server that both files lie on is lost. Where the other one of the first file fails, its bytes cannot be read and those of the
/// last file cannot be stored; where the other one of the last file does, it is the other way round.
#[test]
fn the_first_fault_is_named(rt: HostRuntime) -> Result<(), Fail> {
    let mut count = 0u32;
    for lost in SERVERS {
        for other in SERVERS {
            if lost.0 != other.0 && are_two_faults(rt.alloc(), lost.1, other.0)? {
                count = count.saturating_add(1);
            }
        }
    }
    assert!(rt; count == 2, "{count}");
    Ok(())
}

/// Bytes that are no image, whichever server is lost.
const NO_IMAGE: &[u8] = b"WTFIMG0";

/// Whether the keeper's bytes are refused and stay.
fn refuses_bytes(alloc: Global, lost: &str) -> Result<bool, Fail> {
    let mut kept = made(alloc, 3, THREE, FOUR_BYTES)?;
    let ended = heal(alloc, lost, &mut kept.shelf, NO_IMAGE, NO_CALL)?;
    Ok(is_so(&ended, 6, "image refused 1 notanimage\n") && ended.kept.as_slice() == NO_IMAGE)
}

#[test]
fn bytes_that_are_no_image_are_refused(rt: HostRuntime) -> Result<(), Fail> {
    for (_, lost) in SERVERS {
        assert!(rt; refuses_bytes(rt.alloc(), lost)?, "{lost}");
    }
    Ok(())
}

/// The bytes are on two servers. Where one of these has an empty store and is not lost, the image names bytes that are not there.
#[test]
fn an_image_is_refused_that_names_more_than_is_left(rt: HostRuntime) -> Result<(), Fail> {
    let line = "image refused 3 pointeroutside\n";
    let refused = pairs(rt.alloc(), FOUR_BYTES, State::Empty, 6, line)?;
    assert!(rt; refused == 4, "{refused}");
    Ok(())
}

/// The list is on two servers. A copy of it that is read is spoiled where the other one is lost, or where the server
/// without a copy is and it is the first one.
#[test]
fn a_list_is_damaged(rt: HostRuntime) -> Result<(), Fail> {
    let script = format!(in rt.alloc(); "{FOUR_BYTES}sys plan j0 spill /a 0\nsys put j0\n")?;
    let damaged = pairs(rt.alloc(), script.as_str(), State::Spoiled, 11, "damaged ")?;
    assert!(rt; damaged == 3);
    Ok(())
}

/// The number of copies in the settings of an image.
const COPIES_AT: usize = 9;

/// What the healer comes to over bytes that have one copy, under an image that asks for two.
fn with_one_copy(alloc: Global, lost: &str) -> Result<Ended, Fail> {
    let mut kept = made(alloc, 3, "--servers 3 --replicas 1", FOUR_BYTES)?;
    let mut image = kept.image.as_slice().to_vec(alloc)?;
    if COPIES_AT < image.len() {
        image[COPIES_AT] = 2;
    }
    heal(alloc, lost, &mut kept.shelf, image.as_slice(), NO_CALL)
}

/// In how many of three runs, in each of which another server is lost, one copy becomes two.
fn copied(alloc: Global) -> Result<u32, Fail> {
    let mut count = 0u32;
    for (_, lost) in SERVERS {
        let ended = with_one_copy(alloc, lost)?;
        let fault = format!(in alloc; "fault read {lost}\n")?;
        if is_so(&ended, 0, HEALED_FOUR) {
            count = count.saturating_add(1);
        } else if !is_so(&ended, 11, fault.as_str()) {
            return Err(Fail::from("another output"));
        }
    }
    Ok(count)
}

#[test]
fn a_slice_may_have_too_few_copies(rt: HostRuntime) -> Result<(), Fail> {
    let count = copied(rt.alloc())?;
    assert!(rt; count == 2);
    Ok(())
}

/// The call of the sink or the keeper that fails, the status, and whether the new image is kept.
const FAILURES: [(Failing, u8, bool); 3] = [
    (
        Failing {
            sink: Some(0),
            keeper: None,
        },
        4,
        true,
    ),
    (
        Failing {
            sink: None,
            keeper: Some(0),
        },
        8,
        false,
    ),
    (
        Failing {
            sink: None,
            keeper: Some(1),
        },
        5,
        false,
    ),
];

/// Whether a pass over a store of which two servers had the bytes ends so where a call fails.
fn fails_so(alloc: Global, row: (Failing, u8, bool)) -> Result<bool, Fail> {
    let mut renewed = 0u32;
    for (_, lost) in SERVERS {
        let mut kept = made(alloc, 3, THREE, FOUR_BYTES)?;
        let ended = heal(alloc, lost, &mut kept.shelf, kept.image.as_slice(), row.0)?;
        if !is_so(&ended, row.1, "") {
            return Ok(false);
        }
        if ended.kept.as_slice() != kept.image.as_slice() {
            renewed = renewed.saturating_add(1);
        }
    }
    Ok(renewed == if row.2 { 2 } else { 0 })
}

#[test]
fn sink_and_keeper_fail(rt: HostRuntime) -> Result<(), Fail> {
    for row in FAILURES {
        let so = fails_so(rt.alloc(), row)?;
        assert!(rt; so, "{}", row.1);
    }
    Ok(())
}
