//! Jobs, and refusals of lines of the system.

use crate::row::{DEFAULTS, ONE_SERVER, Row, Run, SMALL_REGIONS, TWO_SERVERS};

/// A list of one entry with a copy on one server has 28 bytes, and one of two with copies on two has 68.
pub const JOBS: [Run; 5] = [
    Run {
        row: Row {
            name: "the list was made anew, and its bytes were not",
            start: DEFAULTS,
            text: "ab",
            lines: "c0 begin => begun 1
c0 open f0 /a => ok
c0 read f0 2 => data x:6162
sys plan j0 compact /a 0 =/> fault write
sys plan j0 compact /a 0 => planned
sys put j0 =/> stale 1 1
sys put j0 => installed 2
c0 try =/> retry 1 1
c0 try => retry 1 2
c0 read f0 2 => refused replaying
c0 step => replayed 1
c0 step =/> replayed 1
c0 step => replayed 2
c0 try => committed 3
",
        },
        stored: 4,
        status: 0,
    },
    Run {
        row: Row {
            name: "a stale job, and then a spill",
            start: DEFAULTS,
            text: "abcdef",
            lines: "sys plan j0 compact /a 0 => planned
c0 begin => begun 1
c0 open f0 /a => ok
c0 write f0 t:XY => ok
c0 try => committed 2
sys put j0 =/> stale 1 1
sys put j0 => stale 1 2
sys plan j0 spill /a 0 => planned
sys put j0 =/> installed 2
sys put j0 =/> stale 2 2
sys put j0 => installed 3
c0 begin => begun 3
c0 open f0 /a => ok
c0 append f0 t:z => ok
c0 try => committed 4
sys dump /a =/> data x:585963646566
sys dump /a => data x:5859636465667a
sys plan j0 compact /a 0 =/> fault write
sys plan j0 compact /a 0 => planned
sys put j0 =/> installed 4
sys put j0 =/> stale 3 4
sys put j0 => installed 5
sys dump /a =/> data x:6162636465667a
sys dump /a => data x:5859636465667a
",
        },
        stored: 154,
        status: 0,
    },
    Run {
        row: Row {
            name: "a region without a value, and a job that outlives the file",
            start: DEFAULTS,
            text: "ab",
            lines: "c0 begin => begun 1
c0 create /e => ok
c0 try => committed 2
sys plan j0 compact /e 0 => planned
sys plan j1 compact /a 0 => planned
sys put j0 =/> stale 2 2
sys put j0 => installed 3
c0 begin => begun 3
c0 unlink /a => ok
c0 try => committed 4
sys put j1 =/> installed 4
sys put j1 =/> stale 3 4
sys put j1 => stale 2 4
",
        },
        stored: 4,
        status: 0,
    },
    Run {
        row: Row {
            name: "a spilled list that was read stays at hand",
            start: ONE_SERVER,
            text: "abcdef",
            lines: "sys plan j0 spill /a 0 =/> fault read 1
sys plan j0 spill /a 0 => planned
sys put j0 =/> stale 1 1
sys put j0 => installed 2
c0 begin => begun 2
c0 open f0 /a => ok
c0 yank f0 6 s0 => len 6
sys down 0 => ok
c0 seek f0 set 0 => ok
c0 yank f0 6 s1 =/> fault read 1
c0 yank f0 6 s1 =/> len 5
c0 yank f0 6 s1 => len 6
c0 peek s1 0 1 =/> damaged 0
c0 peek s1 0 1 =/> fault read 1
c0 peek s1 0 1 => fault read 0
sys up 0 => ok
c0 abort => ok
",
        },
        stored: 34,
        status: 0,
    },
    Run {
        row: Row {
            name: "refusals of the machine",
            start: DEFAULTS,
            text: "ab",
            lines: "c0 step => refused notx
c0 begin => begun 1
c0 begin => refused intx
c0 step => refused live
c0 abort => ok
sys put j0 => refused nojob
sys drop j0 => refused nojob
sys plan j0 compact /a 1 =/> planned
sys plan j0 compact /a 1 => refused noregion
sys plan j0 compact /q 0 => refused noent
sys plan j0 compact / 0 => refused isdir
sys plan j0 compact /a 0 => planned
sys plan j0 spill /a 0 =/> planned
sys plan j0 spill /a 0 => refused jobinuse
sys drop j0 => ok
sys down 4 => refused noserver
sys piece 1 => refused noscan
sys collect 0 => refused noscan
sys scan => scanning 64
sys scan =/> scanning 64
sys scan => refused scanbusy
sys dump / => refused isdir
",
        },
        stored: 4,
        status: 0,
    },
];

/// More of them. A list of one entry with copies on two servers has 38 bytes.
pub const MORE_JOBS: [Run; 7] = [
    Run {
        row: Row {
            name: "a job that is too late is gone, as one that was put",
            start: DEFAULTS,
            text: "ab",
            lines: "sys plan j0 compact /a 0 => planned
c0 begin => begun 1
c0 open f0 /a => ok
c0 append f0 t:c => ok
c0 try => committed 2
sys put j0 => stale 1 2
sys put j0 => refused nojob
sys plan j0 compact /a 0 => planned
sys put j0 => installed 3
sys put j0 => refused nojob
sys drop j0 => refused nojob
sys dump /a => data x:616263
",
        },
        stored: 6,
        status: 0,
    },
    Run {
        row: Row {
            name: "the file moved, and another came in its place",
            start: DEFAULTS,
            text: "ab",
            lines: "sys plan j0 compact /a 0 => planned
sys plan j1 spill /a 0 => planned
c0 begin => begun 1
c0 rename /a /b => ok
c0 create /a => ok
c0 try => committed 2
sys put j0 => stale 1 2
sys plan j0 compact /b 0 => planned
sys put j0 => installed 3
sys put j1 => stale 1 3
sys dump /b => data x:6162
sys dump /a => data x:
",
        },
        stored: 80,
        status: 0,
    },
    Run {
        row: Row {
            name: "a job that is dropped frees its label",
            start: DEFAULTS,
            text: "ab",
            lines: "sys plan j0 compact /a 0 => planned
sys plan j0 spill /a 0 => refused jobinuse
sys drop j0 => ok
sys drop j0 => refused nojob
sys put j0 => refused nojob
sys plan j0 spill /a 0 => planned
sys plan j7 compact /a 0 => planned
sys put j0 => installed 2
sys put j7 => stale 1 2
sys dump /a => data x:6162
",
        },
        stored: 80,
        status: 0,
    },
    Run {
        row: Row {
            name: "regions up to the last one",
            start: SMALL_REGIONS,
            text: "",
            lines: "c0 begin => begun 0
c0 create /a => ok
c0 create /e => ok
c0 open f0 /a => ok
c0 seek f0 set 60 => ok
c0 write f0 t:0123456789 => ok
c0 try => committed 1
sys plan j0 compact /a 2 => refused noregion
sys plan j0 compact /a 4294967296 => refused noregion
sys plan j0 compact /a 1 => planned
sys plan j1 compact /e 1 => refused noregion
sys plan j1 spill /e 0 => planned
sys put j0 => installed 2
sys put j1 => installed 3
c0 begin => begun 3
c0 open f0 /a => ok
c0 truncate f0 64 => ok
c0 try => committed 4
sys plan j0 compact /a 1 => refused noregion
sys plan j0 compact /a 0 => planned
sys drop j0 => ok
sys tree => tree d:/ f:/a:64 f:/e:0
",
        },
        stored: 20,
        status: 0,
    },
    Run {
        row: Row {
            name: "what a plan is refused by first",
            start: DEFAULTS,
            text: "ab",
            lines: "sys plan j0 compact /a 0 => planned
sys plan j0 compact /q 9 => refused jobinuse
sys plan j0 compact / 9 => refused jobinuse
sys plan j0 compact /a 9 => refused jobinuse
sys plan j1 compact /q 9 => refused noent
sys plan j1 compact /a/b 9 => refused noent
sys plan j1 compact / 9 => refused isdir
sys plan j1 compact /a 9 => refused noregion
sys put j1 => refused nojob
",
        },
        stored: 4,
        status: 0,
    },
    Run {
        row: Row {
            name: "a plan that fails takes no label",
            start: TWO_SERVERS,
            text: "abcdef",
            lines: "sys down 0 => ok
sys plan j0 spill /a 0 => fault write
sys put j0 => refused nojob
sys plan j0 compact /a 0 => planned
sys put j0 => installed 2
sys up 0 => ok
sys plan j0 spill /a 0 => planned
sys put j0 => installed 3
sys down 0 => ok
sys down 1 => ok
sys plan j0 compact /a 0 => fault read 1
sys put j0 => refused nojob
sys up 1 => ok
sys plan j0 compact /a 0 => planned
sys down 1 => ok
sys put j0 => installed 4
sys up 0 => ok
sys up 1 => ok
sys dump /a => data x:616263646566
",
        },
        stored: 126,
        status: 0,
    },
    Run {
        row: Row {
            name: "a job disturbs no write and no append that fits",
            start: DEFAULTS,
            text: "ab",
            lines: "c0 begin => begun 1
c0 open f0 /a => ok
c0 write f0 t:X => ok
c1 begin => begun 1
c1 open f0 /a => ok
c1 append f0 t:z => ok
sys plan j0 spill /a 0 => planned
sys put j0 => installed 2
c1 try => committed 3
c0 try => committed 4
sys dump /a => data x:58627a
",
        },
        stored: 84,
        status: 0,
    },
];
