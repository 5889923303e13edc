//! Answers that may not be given. ` =/> ` stands before one, and the same line then has its right answer: the machine is as it was.

use wtf_rows::row::{DEFAULTS, Row, SMALL_REGIONS};

/// Commits, retries and replays.
pub(crate) const COMMITS: [Row; 10] = [
    Row {
        name: "the number of the first commit",
        start: DEFAULTS,
        text: "",
        lines: "c0 begin => begun 0
c0 create /a => ok
c0 open f0 /a => ok
c0 write f0 t:abcdef => ok
c0 seek f0 set 0 => ok
c0 read f0 9 => data x:616263646566
c0 try =/> committed 2
c0 try =/> committed 0
c0 try => committed 1
",
    },
    Row {
        name: "the number of a commit after another's",
        start: DEFAULTS,
        text: "",
        lines: "c0 begin => begun 0
c0 create /a => ok
c0 try => committed 1
c0 begin =/> begun 0
c0 begin => begun 1
c0 open f0 /a => ok
c1 begin => begun 1
c1 open f0 /a => ok
c0 append f0 t:ab => ok
c1 append f0 t:cd => ok
c1 try => committed 2
c0 try =/> committed 2
c0 try =/> committed 4
c0 try => committed 3
sys dump /a =/> data x:61626364
sys dump /a => data x:63646162
",
    },
    Row {
        name: "a retry without an install between",
        start: DEFAULTS,
        text: "",
        lines: "c0 begin => begun 0
c0 stat /b => refused noent
c0 try =/> retry 0 0
c0 try =/> retry 0 1
c1 begin => begun 0
c1 create /b => ok
c1 unlink /b => ok
c1 try => committed 1
c0 try =/> retry 1 1
c0 try =/> retry 0 2
c0 try =/> fault read 0
c0 commit =/> retry 0 1
c0 try => retry 0 1
c0 try =/> retry 0 1
c0 try =/> committed 2
c0 try => refused replaying
c0 step =/> replayed 2
c0 step =/> refused live
c0 step => replayed 1
c0 step =/> replayed 2
c0 step => refused live
c0 try => committed 2
",
    },
    Row {
        name: "a retry though nothing was changed that was read",
        start: DEFAULTS,
        text: "ab",
        lines: "c0 begin => begun 1
c0 open f0 /a => ok
c0 write f0 t:cd => ok
c0 mkdir /e => ok
c1 begin => begun 1
c1 open f0 /a => ok
c1 write f0 t:ef => ok
c1 mkdir /d => ok
c1 try => committed 2
c0 try =/> retry 1 2
c2 begin => begun 2
c2 list / => names a d
c2 try => committed 3
c0 try =/> retry 1 3
c2 begin => begun 3
c2 rename /a /b => ok
c2 try => committed 4
c0 try => retry 1 4
c0 step =/> replayed 1
c0 step => aborted 1 refused noent
",
    },
    Row {
        name: "a retry for what was changed before another",
        start: DEFAULTS,
        text: "",
        lines: "c0 begin => begun 0
c0 stat /b => refused noent
c1 begin => begun 0
c1 create /b => ok
c1 unlink /b => ok
c1 try => committed 1
c0 try => retry 0 1
c0 step => replayed 1
c1 begin => begun 1
c1 create /c => ok
c1 try => committed 2
c0 try =/> retry 1 2
c0 try => committed 3
",
    },
    Row {
        name: "a retry beside a file that the transaction made itself",
        start: DEFAULTS,
        text: "",
        lines: "c0 begin => begun 0
c0 create /a => ok
c0 open f0 /a => ok
c0 write f0 t:ab => ok
c0 seek f0 end => ok
c1 begin => begun 0
c1 create /b => ok
c1 try => committed 1
c0 try =/> retry 0 1
c0 try => committed 2
",
    },
    Row {
        name: "a list beside a new file",
        start: DEFAULTS,
        text: "ab",
        lines: "c0 begin => begun 1
c0 list / => names a
c1 begin => begun 1
c1 stat / => dir
c2 begin => begun 1
c2 create /b => ok
c2 try => committed 2
c1 try =/> retry 1 2
c0 try => retry 1 2
c0 step => aborted 1 names a b
c1 try => committed 3
",
    },
    Row {
        name: "an abort at the wrong call",
        start: DEFAULTS,
        text: "",
        lines: "c0 begin => begun 0
c0 create /a => ok
c0 try => committed 1
c0 begin => begun 1
c0 create /b => ok
c0 stat /a => file 0
c0 stat /b => file 0
c1 begin => begun 1
c1 open f0 /a => ok
c1 append f0 t:xyz => ok
c1 try => committed 2
c0 try =/> committed 3
c0 commit =/> committed 3
c0 commit =/> aborted 0 file 3
c0 commit =/> aborted 1 ok
c0 commit =/> aborted 1 file 3
c0 commit =/> aborted 2 file 0
c0 commit =/> aborted 2 file 4
c0 commit =/> aborted 3 file 0
c0 commit =/> aborted 3 file 3
c0 commit => aborted 2 file 3
c0 commit =/> committed 3
c0 commit => refused notx
",
    },
    Row {
        name: "a step that answers otherwise now",
        start: DEFAULTS,
        text: "",
        lines: "c0 begin => begun 0
c0 create /a => ok
c0 try => committed 1
c0 begin => begun 1
c0 create /b => ok
c0 stat /a => file 0
c1 begin => begun 1
c1 open f0 /a => ok
c1 append f0 t:xyz => ok
c1 try => committed 2
c0 try => retry 1 2
c0 step =/> aborted 1 ok
c0 step =/> fault read 4
c0 step => fault read 3
c0 step => replayed 1
c0 step =/> replayed 1
c0 step =/> replayed 2
c0 step =/> aborted 2 file 0
c0 step =/> aborted 1 file 3
c0 step => aborted 2 file 3
c0 step => refused notx
",
    },
    Row {
        name: "a replay of a refused call does not fail",
        start: DEFAULTS,
        text: "",
        lines: "c0 begin => begun 0
c0 open f0 /a => refused noent
c1 begin => begun 0
c1 create /a => ok
c1 unlink /a => ok
c1 try => committed 1
c0 try => retry 0 1
c0 step =/> fault read 0
c0 step =/> aborted 1 refused noent
c0 step => replayed 1
c0 try => committed 2
",
    },
];

/// Calls, and lines of the system.
pub(crate) const CALLS: [Row; 5] = [
    Row {
        name: "a read of no byte does not fail",
        start: DEFAULTS,
        text: "ab",
        lines: "c0 begin => begun 1
c0 open f0 /a => ok
c0 seek f0 end => ok
c0 read f0 2 =/> fault read 0
c0 read f0 2 =/> damaged 0
c0 read f0 2 => data x:
c0 seek f0 set 0 => ok
c0 read f0 2 =/> fault read 4
c0 read f0 2 =/> fault write
c0 read f0 2 => fault read 3
c0 read f0 2 => damaged 3
c0 read f0 2 =/> data x:61
c0 read f0 2 =/> data x:6163
c0 read f0 2 => data x:6162
",
    },
    Row {
        name: "faults of calls that do not need the stores",
        start: DEFAULTS,
        text: "ab",
        lines: "c0 begin => begun 1
c0 open f0 /a => ok
c0 write f0 x: =/> fault write
c0 write f0 x: => ok
c0 write f0 t:c =/> fault read 0
c0 write f0 t:c => fault write
c0 append f0 x: =/> fault write
c0 append f0 t:c => fault write
c0 stat /a =/> fault read 0
c0 stat /a =/> file 3
c0 stat /a => file 2
c0 tell f0 =/> at 1
c0 tell f0 => at 0
c0 yank f0 0 s0 =/> fault read 0
c0 yank f0 0 s0 => len 0
c0 yank f0 2 s0 => fault read 0
c0 yank f0 2 s0 => len 2
c0 peek s0 0 2 =/> damaged 0
c0 peek s0 0 2 => fault read 0
c0 peek s0 0 2 => data x:6162
c0 concat /b /a =/> fault write
c0 concat /b /a => fault read 0
c0 concat /b /a => ok
c0 concat /b /a =/> fault read 0
c0 concat /b /a => refused exists
",
    },
    Row {
        name: "refusals that are not due",
        start: DEFAULTS,
        text: "",
        lines: "c0 try =/> refused replaying
c0 try => refused notx
c0 begin => begun 0
c0 begin =/> begun 0
c0 begin =/> bad verb
c0 begin => refused intx
c0 open f0 /a =/> refused notdir
c0 open f0 /a =/> ok
c0 open f0 /a => refused noent
c0 mkdir /a =/> refused exists
c0 mkdir /a => ok
c0 abort =/> committed 0
c0 abort => ok
c0 abort => refused notx
sys down 4 =/> ok
sys down 4 => refused noserver
sys dump / =/> data x:
sys dump / => refused isdir
",
    },
    Row {
        name: "a tree that is not shown whole",
        start: DEFAULTS,
        text: "",
        lines: "c0 begin => begun 0
c0 mkdir /d => ok
c0 create /d/a => ok
c0 list /d =/> names
c0 list /d =/> names a a
c0 list /d => names a
c0 try => committed 1
sys tree =/> tree d:/ d:/d
sys tree =/> tree d:/ d:/d f:/d/a:1
sys tree =/> tree d:/ f:/d/a:0 d:/d
sys tree =/> tree d:/ d:/d d:/d/a
sys tree => tree d:/ d:/d f:/d/a:0
",
    },
    Row {
        name: "a save while a server is down",
        start: DEFAULTS,
        text: "ab",
        lines: "sys save =/> saved 0
sys save =/> saved 2
sys save => saved 1
sys down 3 => ok
sys save =/> saved 1
sys save => fault save
sys up 3 => ok
sys save =/> ok
sys save => fault save
sys save => saved 1
",
    },
];

/// Jobs and scans.
pub(crate) const JOBS_AND_SCANS: [Row; 11] = [
    Row {
        name: "the number of an install",
        start: DEFAULTS,
        text: "ab",
        lines: "sys plan j0 compact /a 0 => planned
sys put j0 =/> installed 1
sys put j0 =/> installed 3
sys put j0 => installed 2
sys put j0 =/> installed 3
sys put j0 => refused nojob
",
    },
    Row {
        name: "a job that is stale without an install between",
        start: DEFAULTS,
        text: "ab",
        lines: "sys plan j0 compact /a 0 => planned
sys put j0 =/> stale 1 1
sys put j0 =/> stale 0 1
sys put j0 =/> stale 1 2
sys put j0 =/> refused nojob
c0 begin => begun 1
c0 open f0 /a => ok
c0 write f0 t:c => ok
c0 try => committed 2
sys put j0 =/> stale 2 2
sys put j0 =/> stale 1 3
sys put j0 => stale 1 2
sys drop j0 =/> ok
sys drop j0 => refused nojob
",
    },
    Row {
        name: "a job that is stale though another file was changed",
        start: DEFAULTS,
        text: "ab",
        lines: "sys plan j0 compact /a 0 => planned
c0 begin => begun 1
c0 create /b => ok
c0 open f0 /b => ok
c0 append f0 t:c => ok
c0 try => committed 2
sys put j0 =/> stale 1 2
sys put j0 => installed 3
",
    },
    Row {
        name: "an install that a transaction has not read",
        start: DEFAULTS,
        text: "ab",
        lines: "c0 begin => begun 1
c0 open f0 /a => ok
c0 read f0 2 => data x:6162
c1 begin => begun 1
c1 open f0 /a => ok
c1 write f0 t:c => ok
sys plan j0 compact /a 0 => planned
sys plan j1 compact /a 0 => planned
sys put j0 => installed 2
c1 try =/> retry 1 2
c0 try => retry 1 2
c1 try => committed 3
sys put j1 => stale 1 3
",
    },
    Row {
        name: "plans that are not due",
        start: SMALL_REGIONS,
        text: "ab",
        lines: "sys plan j0 compact /a 1 =/> planned
sys plan j0 compact /a 1 =/> fault read 0
sys plan j0 compact /a 1 => refused noregion
sys plan j0 compact /a 0 =/> fault write
sys plan j0 compact /a 0 =/> fault read 4
sys plan j0 compact /a 0 => fault read 3
sys plan j0 spill /a 0 => fault write
sys plan j0 compact /a 0 =/> ok
sys plan j0 compact /a 0 => planned
sys plan j0 compact /q 0 =/> planned
sys plan j0 compact /q 0 =/> refused noent
sys plan j0 compact /q 0 => refused jobinuse
sys drop j1 =/> ok
sys drop j1 => refused nojob
sys drop j0 => ok
",
    },
    Row {
        name: "held by the later of two clients",
        start: DEFAULTS,
        text: "ab",
        lines: "c1 begin => begun 1
c0 begin => begun 1
sys scan => scanning 64
sys piece 64 => done
sys scan =/> held c0
sys scan =/> scanning 64
sys scan => held c1
c1 abort => ok
sys scan =/> held c1
sys scan => held c0
",
    },
    Row {
        name: "held by a job beside a client",
        start: DEFAULTS,
        text: "ab",
        lines: "sys plan j0 compact /a 0 => planned
c0 begin => begun 1
sys scan => scanning 64
sys piece 64 => done
sys scan =/> held j0
sys scan => held c0
c0 abort => ok
sys scan =/> held c0
sys scan => held j0
sys drop j0 => ok
sys scan =/> held j0
sys scan => scanning 64
",
    },
    Row {
        name: "held by the higher of two jobs",
        start: DEFAULTS,
        text: "ab",
        lines: "sys plan j3 compact /a 0 => planned
sys plan j1 compact /a 0 => planned
sys scan => scanning 64
sys piece 64 => done
sys scan =/> held j3
sys scan => held j1
",
    },
    Row {
        name: "held by what began after the scan",
        start: DEFAULTS,
        text: "ab",
        lines: "sys scan => scanning 64
c0 begin => begun 1
sys piece 64 => done
sys plan j0 compact /a 0 => planned
sys scan =/> held c0
sys scan =/> held j0
sys scan =/> refused scanbusy
sys scan => scanning 64
sys piece 64 => done
sys scan =/> held j0
sys scan => held c0
",
    },
    Row {
        name: "parts of a scan",
        start: DEFAULTS,
        text: "",
        lines: "sys piece 64 =/> done
sys piece 64 => refused noscan
sys scan =/> done
sys scan => scanning 64
sys scan =/> scanning 64
sys scan => refused scanbusy
sys piece 64 =/> more 0
sys piece 63 =/> done
sys piece 63 =/> more 2
sys piece 63 =/> fault read 4
sys piece 63 => fault read 3
sys piece 63 => more 1
sys piece 1 =/> more 0
sys piece 2 => done
sys piece 1 =/> done
sys piece 1 => refused noscan
",
    },
    Row {
        name: "a collection before two scans are done",
        start: DEFAULTS,
        text: "",
        lines: "sys collect 0 =/> collected 0
sys collect 0 => refused noscan
sys scan => scanning 64
sys piece 64 => done
sys collect 0 =/> collected 0
sys collect 0 => refused noscan
sys scan => scanning 64
sys collect 0 =/> collected 0
sys piece 64 => done
sys collect 0 =/> fault punch 1
sys collect 0 =/> refused noscan
sys collect 0 => fault punch 0
sys collect 0 => collected 0
sys collect 4 =/> collected 0
sys collect 4 => refused noserver
",
    },
];
