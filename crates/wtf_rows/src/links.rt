//! Files of several paths.

use crate::row::{DEFAULTS, Row, Run};

/// Files of several paths.
pub const LINKS: [Run; 2] = [
    Run {
        row: Row {
            name: "one file under two paths",
            start: DEFAULTS,
            text: "ab",
            lines: "c0 begin => begun 1
c0 link /a /b => ok
c0 stat /b => file 2 links 2
c0 open f0 /b => ok
c0 write f0 t:XY => ok
c0 unlink /b => refused busy
c0 unlink /a => ok
c0 stat /b =/> file 2 links 2
c0 stat /b => file 2
c0 link /q /c => refused noent
c0 link / /c => refused isdir
c0 link /b /b => refused exists
c0 link /b /x/c => refused noparent
c0 try => committed 2
sys tree => tree d:/ f:/b:2
sys dump /b => data x:5859
",
        },
        stored: 8,
        status: 0,
    },
    Run {
        row: Row {
            name: "others add a path, and write through it",
            start: DEFAULTS,
            text: "ab",
            lines: "c0 begin => begun 1
c0 stat /a => file 2
c1 begin => begun 1
c1 link /a /b => ok
c1 try => committed 2
c0 commit =/> committed 3
c0 commit => aborted 1 file 2 links 2
c0 begin => begun 2
c0 open f0 /a => ok
c0 read f0 2 => data x:6162
c1 begin => begun 2
c1 open f0 /b => ok
c1 write f0 t:cd => ok
c1 try => committed 3
c0 try =/> committed 4
c0 try => retry 2 3
c0 step => replayed 1
c0 step => aborted 2 data x:6364
",
        },
        stored: 8,
        status: 0,
    },
];
