//! One client, and what it sees of files and names.

use crate::row::{DEFAULTS, Row, Run, SMALL_REGIONS};

/// A file that is one byte too long to be shown, and then is not.
pub const LONG_FILE: &str = "c0 begin => begun 0
c0 create /a => ok
c0 open f0 /a => ok
c0 seek f0 set 1048576 => ok
c0 write f0 t:x => ok
c0 try => committed 1
sys dump /a => refused long
c0 begin => begun 1
c0 open f0 /a => ok
c0 truncate f0 1048576 => ok
c0 try => committed 2
";

/// Files and names.
pub const FILES: [Run; 7] = [
    Run {
        row: Row {
            name: "nothing",
            start: DEFAULTS,
            text: "",
            lines: "",
        },
        stored: 0,
        status: 0,
    },
    Run {
        row: Row {
            name: "later bytes hide earlier ones",
            start: DEFAULTS,
            text: "abcdef",
            lines: "c0 begin => begun 1
c0 open f0 /a => ok
c0 seek f0 set 2 => ok
c0 write f0 t:XY => ok
c0 try => committed 2
sys dump /a => data x:616258596566
",
        },
        stored: 16,
        status: 0,
    },
    Run {
        row: Row {
            name: "a write across the border of a region",
            start: SMALL_REGIONS,
            text: "",
            lines: "c0 begin => begun 0
c0 create /a => ok
c0 open f0 /a => ok
c0 seek f0 set 60 => ok
c0 write f0 t:0123456789 => ok
c0 stat /a => file 70
c0 seek f0 set 58 => ok
c0 read f0 20 => data x:000030313233343536373839
c0 try => committed 1
",
        },
        stored: 20,
        status: 0,
    },
    Run {
        row: Row {
            name: "the greatest file",
            start: SMALL_REGIONS,
            text: "",
            lines: "c0 begin => begun 0
c0 create /a => ok
c0 open f0 /a => ok
c0 seek f0 set 262145 => refused range
c0 seek f0 set 262144 => ok
c0 write f0 t:x => refused toobig
c0 seek f0 back 1 => ok
c0 write f0 t:x => ok
c0 tell f0 => at 262144
c0 stat /a => file 262144
c0 append f0 t:y => refused toobig
c0 truncate f0 262145 => refused toobig
c0 seek f0 end => ok
c0 seek f0 fwd 1 => refused range
c0 seek f0 back 2 => ok
c0 read f0 4 => data x:0078
c0 try => committed 1
",
        },
        stored: 2,
        status: 0,
    },
    Run {
        row: Row {
            name: "punch and truncate",
            start: DEFAULTS,
            text: "abcdef",
            lines: "c0 begin => begun 1
c0 open f0 /a => ok
c0 seek f0 set 4 => ok
c0 punch f0 10 => ok
c0 tell f0 => at 4
c0 stat /a => file 6
c0 seek f0 set 0 => ok
c0 read f0 9 => data x:616263640000
c0 truncate f0 2 => ok
c0 truncate f0 8 => ok
c0 seek f0 set 0 => ok
c0 read f0 9 => data x:6162000000000000
c0 read f0 9 => data x:
c0 try => committed 2
",
        },
        stored: 12,
        status: 0,
    },
    Run {
        row: Row {
            name: "names, refusals and empty parts",
            start: DEFAULTS,
            text: "ab",
            lines: "c0 begin => begun 1
c0 copy /a /a => refused exists
c0 open f0 /a => ok
c0 open f0 /a => refused inuse
c0 rename /a /b => refused busy
c0 unlink /a => refused busy
c0 write f0 x: => ok
c0 yank f0 0 s0 => len 0
c0 paste f0 s1 => refused noslice
c0 peek s0 0 1 => refused range
c0 close f0 => ok
c0 close f0 => refused nohandle
c0 concat /c /a /a /a /a => ok
c0 stat /c => file 8
c0 mkdir / => refused exists
c0 rmdir / => refused root
c0 mkdir /x/y => refused noparent
c0 create /a/b => refused noparent
c0 rmdir /a => refused notdir
c0 unlink / => refused isdir
c0 list /a => refused notdir
c0 open f0 /q => refused noent
c0 mkdir /d => ok
c0 rmdir /d => ok
c0 rename /a /b => ok
c0 list / => names b c
c0 try => committed 2
sys dump /c => data x:6162616261626162
",
        },
        stored: 4,
        status: 0,
    },
    Run {
        row: Row {
            name: "a file that is too long to be shown",
            start: DEFAULTS,
            text: "",
            lines: LONG_FILE,
        },
        stored: 2,
        status: 0,
    },
];
