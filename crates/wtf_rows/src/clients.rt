//! Several clients, whose commits meet.

use crate::row::{DEFAULTS, ONE_SMALL, Row, Run, SMALL_REGIONS};

/// Clients side by side.
pub const CLIENTS: [Run; 9] = [
    Run {
        row: Row {
            name: "two appends from one base",
            start: DEFAULTS,
            text: "",
            lines: "c0 begin => begun 0
c0 create /a => ok
c0 try => committed 1
c0 begin => begun 1
c0 open f0 /a => ok
c1 begin => begun 1
c1 open f0 /a => ok
c0 append f0 t:ab => ok
c1 append f0 t:cd => ok
c1 try => committed 2
c0 try => committed 3
sys dump /a => data x:63646162
",
        },
        stored: 8,
        status: 0,
    },
    Run {
        row: Row {
            name: "an append to a region that is full by then",
            start: SMALL_REGIONS,
            text: "aaaaaaaaaaaaaaaaaaaaaaaaaaaaaaaaaaaaaaaaaaaaaaaaaaaaaaaaaaaa",
            lines: "c0 begin => begun 1
c0 open f0 /a => ok
c1 begin => begun 1
c1 open f0 /a => ok
c0 append f0 t:1234 => ok
c1 append f0 t:5678 => ok
c0 try => committed 2
c1 try => retry 1 2
c1 step => replayed 1
c1 step => replayed 2
c1 try => committed 3
c1 begin => begun 3
c1 stat /a => file 68
c1 abort => ok
",
        },
        stored: 136,
        status: 0,
    },
    Run {
        row: Row {
            name: "a difference that was shown",
            start: DEFAULTS,
            text: "",
            lines: "c0 begin => begun 0
c0 create /a => ok
c0 try => committed 1
c0 begin => begun 1
c0 stat /a => file 0
c1 begin => begun 1
c1 open f0 /a => ok
c1 append f0 t:xyz => ok
c1 try => committed 2
c0 commit => aborted 1 file 3
",
        },
        stored: 6,
        status: 0,
    },
    Run {
        row: Row {
            name: "the same bytes in another slice",
            start: DEFAULTS,
            text: "ab",
            lines: "c0 begin => begun 1
c0 open f0 /a => ok
c0 read f0 2 => data x:6162
c1 begin => begun 1
c1 open f0 /a => ok
c1 write f0 t:ab => ok
c1 try => committed 2
c0 create /b => ok
c0 commit => committed 3
",
        },
        stored: 8,
        status: 0,
    },
    Run {
        row: Row {
            name: "three clients",
            start: DEFAULTS,
            text: "",
            lines: "c0 begin => begun 0
c1 begin => begun 0
c2 begin => begun 0
c0 create /a => ok
c1 create /a => ok
c2 create /b => ok
c0 try => committed 1
c1 try => retry 0 1
c1 create /c => refused replaying
c2 try => committed 2
c1 abort => ok
sys tree => tree d:/ f:/a:0 f:/b:0
",
        },
        stored: 0,
        status: 0,
    },
    Run {
        row: Row {
            name: "a refused append whose length counts",
            start: SMALL_REGIONS,
            text: "",
            lines: "c0 begin => begun 0
c0 create /a => ok
c0 open f0 /a => ok
c0 truncate f0 262144 => ok
c0 try => committed 1
c0 begin => begun 1
c0 open f0 /a => ok
c0 append f0 t:ab => refused toobig
c1 begin => begun 1
c1 open f0 /a => ok
c1 truncate f0 262143 => ok
c1 try => committed 2
c0 commit => committed 3
",
        },
        stored: 0,
        status: 0,
    },
    Run {
        row: Row {
            name: "a refused append that fits by then",
            start: SMALL_REGIONS,
            text: "",
            lines: "c0 begin => begun 0
c0 create /a => ok
c0 open f0 /a => ok
c0 truncate f0 262144 => ok
c0 try => committed 1
c0 begin => begun 1
c0 open f0 /a => ok
c0 append f0 t:ab => refused toobig
c1 begin => begun 1
c1 open f0 /a => ok
c1 truncate f0 262142 => ok
c1 try => committed 2
c0 commit => aborted 2 ok
",
        },
        stored: 0,
        status: 0,
    },
    Run {
        row: Row {
            name: "bytes that another wrote meanwhile, and nobody read",
            start: DEFAULTS,
            text: "ab",
            lines: "c0 begin => begun 1
c0 open f0 /a => ok
c0 write f0 t:cd => ok
c1 begin => begun 1
c1 open f0 /a => ok
c1 write f0 t:ef => ok
c1 mkdir /d => ok
c1 try => committed 2
c0 mkdir /e => ok
c0 try =/> retry 1 2
c0 try => committed 3
sys dump /a => data x:6364
",
        },
        stored: 12,
        status: 0,
    },
    Run {
        row: Row {
            name: "a tree beside an older one that is open",
            start: ONE_SMALL,
            text: "",
            lines: "c0 begin => begun 0
c0 mkdir /gone => ok
c0 mkdir /logs => ok
c0 create /logs/mon => ok
c0 open f0 /logs/mon => ok
c0 truncate f0 71 => ok
c0 try => committed 1
c1 begin => begun 1
c0 begin => begun 1
c0 rmdir /gone => ok
c0 try => committed 2
sys tree => tree d:/ d:/logs f:/logs/mon:71
",
        },
        stored: 0,
        status: 0,
    },
];
