//! Scans and collections.

use crate::row::{DEFAULTS, ONE_SERVER, Row, Run, TWO_SERVERS};

/// The first bytes of `/a` are written over, and behind a save and two scans those that nothing names are collected.
pub const WRITTEN_OVER: Run = Run {
    row: Row {
        name: "a collection of all that was written over",
        start: ONE_SERVER,
        text: "abcd",
        lines: "c0 begin => begun 1
c0 open f0 /a => ok
c0 write f0 t:WXYZ => ok
c0 try => committed 2
sys plan j0 compact /a 0 => planned
sys put j0 => installed 3
sys save =/> saved 2
sys save => saved 3
sys scan => scanning 64
sys piece 64 => done
sys scan => scanning 64
sys piece 64 => done
sys collect 0 =/> fault punch 1
sys collect 0 => collected 4
",
    },
    stored: 8,
    status: 0,
};

/// A save that failed, so either image may be on the keeper, and the bytes of the older one stay until a save is answered.
pub const FAILED_SAVE: Row = Row {
    name: "a save that failed",
    start: ONE_SERVER,
    text: "abcd",
    lines: "sys save => saved 1
c0 begin => begun 1
c0 open f0 /a => ok
c0 write f0 t:WXYZ => ok
c0 try => committed 2
sys plan j0 compact /a 0 => planned
sys put j0 => installed 3
sys save =/> saved 2
sys save => fault save
sys scan => scanning 64
sys piece 64 => done
sys scan => scanning 64
sys piece 64 => done
sys collect 0 => collected 0
sys save =/> saved 1
sys save => saved 3
sys scan => scanning 64
sys piece 64 => done
sys scan => scanning 64
sys piece 64 => done
sys collect 0 => collected 4
",
};

/// Scans that end well.
pub const SCANS: [Run; 7] = [
    Run {
        row: Row {
            name: "a scan that a transaction holds back",
            start: ONE_SERVER,
            text: "abcd",
            lines: "c0 begin => begun 1
c0 open f0 /a => ok
c0 yank f0 4 s0 => len 4
c1 begin => begun 1
c1 unlink /a => ok
c1 try => committed 2
sys save => saved 2
sys scan => scanning 64
sys piece 64 => done
sys scan =/> held c1
sys scan =/> scanning 64
sys scan => held c0
c0 peek s0 0 4 => data x:61626364
c0 abort => ok
sys scan => scanning 64
sys piece 64 => done
sys collect 0 =/> refused noscan
sys collect 0 => collected 0
sys scan => scanning 64
sys piece 64 => done
sys collect 0 => collected 4
",
        },
        stored: 4,
        status: 0,
    },
    Run {
        row: Row {
            name: "a quiet collection",
            start: TWO_SERVERS,
            text: "0123456789",
            lines: "c0 begin => begun 1
c0 open f0 /a => ok
c0 write f0 t:abcdefghij => ok
c0 try => committed 2
sys plan j0 compact /a 0 => planned
sys put j0 => installed 3
sys save => saved 3
sys scan =/> held j0
sys scan => scanning 64
sys piece 64 => done
sys scan => scanning 64
sys piece 64 => done
sys collect 0 =/> fault punch 1
sys collect 0 => collected 10
sys collect 1 => collected 10
sys collect 0 => collected 0
sys dump /a => data x:6162636465666768696a
",
        },
        stored: 40,
        status: 0,
    },
    Run {
        row: Row {
            name: "a scan in pieces between commits",
            start: DEFAULTS,
            text: "ab",
            lines: "sys scan => scanning 64
sys piece 60 =/> done
sys piece 60 =/> more 5
sys piece 60 => more 4
c0 begin => begun 1
c0 open f0 /a => ok
c0 write f0 t:cd => ok
c0 try => committed 2
sys piece 10 =/> more 0
sys piece 10 => done
",
        },
        stored: 8,
        status: 0,
    },
    Run {
        row: Row {
            name: "bytes that move to another file during a scan",
            start: ONE_SERVER,
            text: "abcd",
            lines: "sys scan => scanning 64
sys piece 1 =/> more 62
sys piece 1 => more 63
c0 begin => begun 1
c0 copy /a /b => ok
c0 unlink /a => ok
c0 commit => committed 2
sys piece 63 =/> more 0
sys piece 63 => done
sys scan => scanning 64
sys piece 64 => done
sys collect 0 => collected 0
sys dump /b => data x:61626364
",
        },
        stored: 4,
        status: 0,
    },
    Run {
        row: Row {
            name: "a scan that a job holds back",
            start: ONE_SERVER,
            text: "abcd",
            lines: "sys plan j3 compact /a 0 => planned
sys plan j1 compact /a 0 => planned
sys scan => scanning 64
sys piece 64 => done
sys scan => held j1
sys drop j1 => ok
sys scan => held j3
c0 begin => begun 1
sys drop j3 => ok
sys scan => scanning 64
sys piece 64 => done
sys scan => held c0
c0 abort => ok
sys scan => scanning 64
",
        },
        stored: 4,
        status: 0,
    },
    Run {
        row: Row {
            name: "a collection whose server is down",
            start: ONE_SERVER,
            text: "abcd",
            lines: "c0 begin => begun 1
c0 unlink /a => ok
c0 try => committed 2
sys scan => scanning 64
sys piece 64 => done
sys collect 0 => refused noscan
sys collect 1 => refused noserver
sys scan => scanning 64
sys piece 64 => done
sys down 0 => ok
sys collect 0 => fault punch 0
sys up 0 => ok
sys collect 0 => collected 4
",
        },
        stored: 4,
        status: 0,
    },
    WRITTEN_OVER,
];
