//! Slices, and servers that go down.

use crate::row::{DEFAULTS, Row, Run, THREE_SERVERS, TWO_SERVERS};

/// Slices and servers.
pub const SLICES: [Run; 6] = [
    Run {
        row: Row {
            name: "a yanked slice whose bytes were not shown",
            start: DEFAULTS,
            text: "abcd",
            lines: "c0 begin => begun 1
c0 open f0 /a => ok
c0 yank f0 4 s0 => len 4
c0 create /b => ok
c0 open f1 /b => ok
c0 paste f1 s0 => ok
c1 begin => begun 1
c1 open f0 /a => ok
c1 write f0 t:WXYZ => ok
c1 try => committed 2
c0 commit => committed 3
sys dump /b => data x:5758595a
",
        },
        stored: 16,
        status: 0,
    },
    Run {
        row: Row {
            name: "a yanked slice whose bytes were shown",
            start: DEFAULTS,
            text: "abcd",
            lines: "c0 begin => begun 1
c0 open f0 /a => ok
c0 yank f0 4 s0 => len 4
c0 peek s0 0 4 => data x:61626364
c0 create /b => ok
c0 open f1 /b => ok
c0 paste f1 s0 => ok
c1 begin => begun 1
c1 open f0 /a => ok
c1 write f0 t:WXYZ => ok
c1 try => committed 2
c0 commit => aborted 3 data x:5758595a
sys dump /b => refused noent
",
        },
        stored: 16,
        status: 0,
    },
    Run {
        row: Row {
            name: "a sharded log",
            start: DEFAULTS,
            text: "",
            lines: "c0 begin => begun 0
c0 mkdir /logs => ok
c0 create /logs/mon => ok
c0 create /logs/tue => ok
c0 open f0 /logs/mon => ok
c0 write f0 t:m1m2 => ok
c0 open f1 /logs/tue => ok
c0 write f1 t:t1 => ok
c0 try => committed 1
c1 begin => begun 1
c1 concat /logs/week /logs/mon /logs/tue => ok
c1 open f0 /logs/week => ok
c1 yank f0 2 s0 => len 2
c1 glue f0 s0 => ok
c1 cut s0 1 1 s1 => ok
c1 peek s1 0 1 => data x:31
c1 rmdir /logs => refused notempty
c1 try => committed 2
sys tree => tree d:/ d:/logs f:/logs/mon:4 f:/logs/tue:2 f:/logs/week:8
sys dump /logs/week => data x:6d316d3274316d31
",
        },
        stored: 12,
        status: 0,
    },
    Run {
        row: Row {
            name: "the servers of all copies go down",
            start: TWO_SERVERS,
            text: "",
            lines: "c0 begin => begun 0
c0 create /a => ok
c0 open f0 /a => ok
c0 write f0 t:ab => ok
sys down 0 => ok
c0 seek f0 set 0 => ok
c0 read f0 2 => data x:6162
sys down 1 => ok
c0 seek f0 set 0 => ok
c0 read f0 2 => fault read 1
sys down 2 => refused noserver
",
        },
        stored: 4,
        status: 5,
    },
    Run {
        row: Row {
            name: "servers go down and come up",
            start: THREE_SERVERS,
            text: "",
            lines: "c0 begin => begun 0
c0 create /a => ok
c0 open f0 /a => ok
sys down 0 => ok
c0 write f0 t:ab => ok
c0 seek f0 set 0 => ok
c0 read f0 2 => data x:6162
sys down 1 => ok
c0 write f0 t:c => fault write
sys save => fault save
sys down 2 => ok
c0 seek f0 set 0 => ok
c0 read f0 2 => fault read 2
sys up 0 => ok
sys up 1 => ok
sys up 2 => ok
c0 read f0 2 => data x:6162
c0 try => committed 1
",
        },
        stored: 5,
        status: 0,
    },
    Run {
        row: Row {
            name: "a server is down at the end",
            start: THREE_SERVERS,
            text: "",
            lines: "c0 begin => begun 0
c0 create /a => ok
c0 open f0 /a => ok
sys down 0 => ok
c0 write f0 t:ab => ok
c0 seek f0 set 0 => ok
c0 read f0 2 => data x:6162
sys down 1 => ok
c0 write f0 t:c => fault write
sys save => fault save
sys down 2 => ok
c0 seek f0 set 0 => ok
c0 read f0 2 => fault read 2
sys up 1 => ok
sys up 2 => ok
c0 read f0 2 => data x:6162
c0 try => committed 1
",
        },
        stored: 5,
        status: 5,
    },
];
