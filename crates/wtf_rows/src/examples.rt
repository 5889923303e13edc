//! The scripts of `examples/`, with their answers.

use crate::row::{DEFAULTS, Row, Run};

/// Each script of `examples/`.
pub const EXAMPLES: [Run; 10] = [
    Run {
        row: Row {
            name: "a first script",
            start: DEFAULTS,
            text: "",
            lines: "c0 begin => begun 0
c0 create /a => ok
c0 open f0 /a => ok
c0 write f0 t:abcdef => ok
c0 seek f0 set 0 => ok
c0 read f0 9 => data x:616263646566
c0 try => committed 1
",
        },
        stored: 12,
        status: 0,
    },
    Run {
        row: Row {
            name: "two appends from one base",
            start: DEFAULTS,
            text: "",
            lines: "c0 begin => begun 0
c0 create /log => ok
c0 try => committed 1
c0 begin => begun 1
c0 open f0 /log => ok
c1 begin => begun 1
c1 open f0 /log => ok
c0 append f0 t:from-c0; => ok
c1 append f0 t:from-c1; => ok
c1 try => committed 2
c0 try => committed 3
sys dump /log => data x:66726f6d2d63313b66726f6d2d63303b
",
        },
        stored: 32,
        status: 0,
    },
    Run {
        row: Row {
            name: "a conflict that is replayed",
            start: DEFAULTS,
            text: "",
            lines: "c0 begin => begun 0
c0 create /a => ok
c0 open f0 /a => ok
c0 write f0 t:ab => ok
c0 try => committed 1
c0 begin => begun 1
c0 open f0 /a => ok
c0 read f0 2 => data x:6162
c1 begin => begun 1
c1 open f0 /a => ok
c1 append f0 t:cd => ok
c1 try => committed 2
c0 create /b => ok
c0 try => retry 1 2
c0 step => replayed 1
c0 step => replayed 2
c0 step => replayed 3
c0 try => committed 3
sys tree => tree d:/ f:/a:4 f:/b:0
",
        },
        stored: 8,
        status: 0,
    },
    Run {
        row: Row {
            name: "a conflict that is aborted",
            start: DEFAULTS,
            text: "",
            lines: "c0 begin => begun 0
c0 mkdir /jobs => ok
c0 create /jobs/a => ok
c0 try => committed 1
c0 begin => begun 1
c0 list /jobs => names a
c1 begin => begun 1
c1 create /jobs/b => ok
c1 commit => committed 2
c0 create /jobs/only-one => ok
c0 commit => aborted 1 names a b
sys tree => tree d:/ d:/jobs f:/jobs/a:0 f:/jobs/b:0
",
        },
        stored: 0,
        status: 0,
    },
    Run {
        row: Row {
            name: "appends and a length that was shown",
            start: DEFAULTS,
            text: "",
            lines: "c0 begin => begun 0
c0 mkdir /logs => ok
c0 create /logs/mon => ok
c0 try => committed 1
c0 begin => begun 1
c0 open f0 /logs/mon => ok
c1 begin => begun 1
c1 open f0 /logs/mon => ok
c0 append f0 t:ab => ok
c1 append f0 t:cd => ok
c1 try => committed 2
c0 try => committed 3
c0 begin => begun 3
c0 stat /logs/mon => file 4
c1 begin => begun 3
c1 open f0 /logs/mon => ok
c1 append f0 t:ef => ok
c1 try => committed 4
c0 try => retry 3 4
c0 step => aborted 1 file 6
sys dump /logs/mon => data x:636461626566
sys tree => tree d:/ d:/logs f:/logs/mon:6
",
        },
        stored: 12,
        status: 0,
    },
    Run {
        row: Row {
            name: "servers go down",
            start: DEFAULTS,
            text: "",
            lines: "c0 begin => begun 0
c0 create /log => ok
c0 open f0 /log => ok
c0 write f0 t:first => ok
sys down 0 => ok
c0 seek f0 set 0 => ok
c0 read f0 5 => data x:6669727374
c0 seek f0 set 5 => ok
sys down 4 => refused noserver
c0 write f0 t:second => ok
sys up 0 => ok
sys down 1 => ok
c0 seek f0 set 0 => ok
c0 read f0 11 => data x:66697273747365636f6e64
sys up 1 => ok
c0 try => committed 1
",
        },
        stored: 22,
        status: 0,
    },
    Run {
        row: Row {
            name: "a server is lost",
            start: DEFAULTS,
            text: "",
            lines: "c0 begin => begun 0
c0 create /report => ok
c0 open f0 /report => ok
c0 write f0 t:draft => ok
c0 try => committed 1
sys down 1 => ok
sys dump /report => data x:6472616674
sys down 2 => ok
sys dump /report => fault read 2
c0 begin => begun 1
c0 open f0 /report => ok
c0 append f0 t:-v2 => ok
sys down 0 => ok
c0 append f0 t:-v3 => fault write
sys up 0 => ok
c0 append f0 t:-v3 => ok
c0 try => committed 2
sys dump /report => fault read 2
sys up 2 => ok
sys dump /report => data x:64726166742d76322d7633
sys up 1 => ok
sys dump /report => data x:64726166742d76322d7633
",
        },
        stored: 25,
        status: 0,
    },
    Run {
        row: Row {
            name: "shards are joined",
            start: DEFAULTS,
            text: "",
            lines: "c0 begin => begun 0
c0 mkdir /log => ok
c0 create /log/s0 => ok
c0 create /log/s1 => ok
c0 create /log/s2 => ok
c0 try => committed 1
c0 begin => begun 1
c0 open f0 /log/s0 => ok
c1 begin => begun 1
c1 open f0 /log/s1 => ok
c2 begin => begun 1
c2 open f0 /log/s2 => ok
c0 append f0 t:a1; => ok
c1 append f0 t:b1; => ok
c2 append f0 t:c1; => ok
c0 append f0 t:a2; => ok
c2 try => committed 2
c0 try => committed 3
c1 try => committed 4
sys down 0 => ok
sys down 1 => ok
sys down 2 => ok
sys down 3 => ok
c3 begin => begun 4
c3 concat /log/all /log/s0 /log/s1 /log/s2 => ok
c3 try => committed 5
sys up 0 => ok
sys up 1 => ok
sys up 2 => ok
sys up 3 => ok
sys dump /log/all => data x:61313b61323b62313b63313b
c0 begin => begun 5
c0 open f0 /log/s0 => ok
c0 append f0 t:a3; => ok
c0 try => committed 6
sys dump /log/all => data x:61313b61323b62313b63313b
sys tree => tree d:/ d:/log f:/log/all:12 f:/log/s0:9 f:/log/s1:3 f:/log/s2:3
",
        },
        stored: 30,
        status: 0,
    },
    Run {
        row: Row {
            name: "records are sorted",
            start: DEFAULTS,
            text: "",
            lines: "c0 begin => begun 0
c0 create /in => ok
c0 open f0 /in => ok
c0 write f0 t:40dd20bb30cc10aa => ok
c0 try => committed 1
c1 begin => begun 1
c1 open f0 /in => ok
c1 yank f0 16 s0 => len 16
c1 cut s0 0 4 s1 => ok
c1 cut s0 4 4 s2 => ok
c1 cut s0 8 4 s3 => ok
c1 cut s0 12 4 s4 => ok
c1 peek s1 0 2 => data x:3430
c1 peek s2 0 2 => data x:3230
c1 peek s3 0 2 => data x:3330
c1 peek s4 0 2 => data x:3130
sys down 0 => ok
sys down 1 => ok
sys down 2 => ok
sys down 3 => ok
c1 create /sorted => ok
c1 open f1 /sorted => ok
c1 paste f1 s4 => ok
c1 paste f1 s2 => ok
c1 paste f1 s3 => ok
c1 paste f1 s1 => ok
c1 try => committed 2
sys up 0 => ok
sys up 1 => ok
sys up 2 => ok
sys up 3 => ok
sys dump /sorted => data x:31306161323062623330636334306464
sys dump /in => data x:34306464323062623330636331306161
",
        },
        stored: 32,
        status: 0,
    },
    Run {
        row: Row {
            name: "one file under two paths, and a count that others change",
            start: DEFAULTS,
            text: "",
            lines: "c0 begin => begun 0
c0 create /draft => ok
c0 open f0 /draft => ok
c0 write f0 t:one => ok
c0 link /draft /final => ok
c0 stat /final => file 3 links 2
c0 try => committed 1
c0 begin => begun 1
c0 open f0 /final => ok
c0 write f0 t:two => ok
c0 unlink /final => refused busy
c0 unlink /draft => ok
c0 stat /final => file 3
c0 try => committed 2
sys tree => tree d:/ f:/final:3
sys dump /final => data x:74776f
c0 begin => begun 2
c0 stat /final => file 3
c1 begin => begun 2
c1 link /final /copy => ok
c1 try => committed 3
c0 commit => aborted 1 file 3 links 2
",
        },
        stored: 12,
        status: 0,
    },
];
