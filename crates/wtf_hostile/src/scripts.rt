//! The scripts that are run.

/// A script, the store that it is run on, and the lines that look at what is left.
#[derive(Clone, Copy)]
pub struct Script<'a> {
    pub name: &'static str,
    pub servers: u8,
    pub replicas: u8,
    /// The size of a region, in bytes.
    pub region: u32,
    pub lines: &'a [u8],
    /// They show the whole tree, the bytes of its files and the number of installs.
    pub looks: &'static [u8],
}

const LOOKS: &[u8] = b"sys tree\nsys dump /a\nc31 begin\n";

/// Scripts that answer as they should where nothing fails.
pub const SCRIPTS: [Script<'static>; 8] = [
    Script {
        name: "a first file",
        servers: 4,
        replicas: 2,
        region: 65_536,
        lines: b"c0 begin
c0 create /a
c0 open f0 /a
c0 write f0 t:abcdef
c0 seek f0 set 0
c0 read f0 9
c0 try
",
        looks: LOOKS,
    },
    Script {
        name: "an append to a region that is full by then",
        servers: 4,
        replicas: 2,
        region: 64,
        lines: b"c0 begin
c0 create /a
c0 open f0 /a
c0 write f0 t:aaaaaaaaaaaaaaaaaaaaaaaaaaaaaaaaaaaaaaaaaaaaaaaaaaaaaaaaaaaa
c0 try
c0 begin
c0 open f0 /a
c1 begin
c1 open f0 /a
c0 append f0 t:1234
c1 append f0 t:5678
c0 try
c1 try
c1 step
c1 step
c1 try
c1 begin
c1 stat /a
c1 abort
",
        looks: LOOKS,
    },
    Script {
        name: "a collection behind two scans",
        servers: 2,
        replicas: 2,
        region: 65_536,
        lines: b"c0 begin
c0 create /a
c0 open f0 /a
c0 write f0 t:0123456789
c0 try
c0 begin
c0 open f0 /a
c0 write f0 t:abcdefghij
c0 try
sys plan j0 compact /a 0
sys put j0
sys save
sys scan
sys piece 64
sys scan
sys piece 64
sys collect 0
sys collect 1
sys collect 0
sys dump /a
",
        looks: LOOKS,
    },
    Script {
        name: "servers that go down and come up",
        servers: 3,
        replicas: 2,
        region: 65_536,
        lines: b"c0 begin
c0 create /a
c0 open f0 /a
sys down 0
c0 write f0 t:ab
c0 seek f0 set 0
c0 read f0 2
sys down 1
c0 write f0 t:c
sys save
sys down 2
c0 seek f0 set 0
c0 read f0 2
sys up 0
sys up 1
sys up 2
c0 read f0 2
c0 try
",
        looks: LOOKS,
    },
    SPILLED,
    LOG,
    LINKED,
    Script {
        name: "a save behind a save that may fail",
        servers: 1,
        replicas: 1,
        region: 65_536,
        lines: b"c0 begin
c0 create /a
c0 open f0 /a
c0 write f0 t:abcd
c0 try
sys save
c0 begin
c0 open f0 /a
c0 write f0 t:WXYZ
c0 try
sys plan j0 compact /a 0
sys put j0
sys save
sys scan
sys piece 64
sys scan
sys piece 64
sys collect 0
sys save
sys scan
sys piece 64
sys scan
sys piece 64
sys collect 0
",
        looks: LOOKS,
    },
];

/// A job that is too late, and then one that spills a region's list, which three of the lines behind have to read.
pub const SPILLED: Script<'static> = Script {
    name: "a job that is too late, and a list that is spilled",
    servers: 4,
    replicas: 2,
    region: 65_536,
    lines: b"c0 begin
c0 create /a
c0 open f0 /a
c0 write f0 t:abcdef
c0 try
sys plan j0 compact /a 0
c0 begin
c0 open f0 /a
c0 write f0 t:XY
c0 try
sys put j0
sys plan j0 spill /a 0
sys put j0
c0 begin
c0 open f0 /a
c0 append f0 t:z
c0 try
sys dump /a
sys plan j0 compact /a 0
sys put j0
sys dump /a
",
    looks: LOOKS,
};

/// Files in a directory, one of which is joined of the others.
pub const LOG: Script<'static> = Script {
    name: "a log in shards",
    servers: 4,
    replicas: 2,
    region: 65_536,
    lines: b"c0 begin
c0 mkdir /logs
c0 create /logs/mon
c0 create /logs/tue
c0 open f0 /logs/mon
c0 write f0 t:m1m2
c0 open f1 /logs/tue
c0 write f1 t:t1
c0 try
c1 begin
c1 concat /logs/week /logs/mon /logs/tue
c1 open f0 /logs/week
c1 yank f0 2 s0
c1 glue f0 s0
c1 cut s0 1 1 s1
c1 peek s1 0 1
c1 rmdir /logs
c1 try
sys tree
sys dump /logs/week
",
    looks: b"sys tree\nsys dump /logs/mon\nsys dump /logs/tue\nsys dump /logs/week\nc31 begin\n",
};

/// A file that gets paths and loses them, while another client rests on how many it has.
pub const LINKED: Script<'static> = Script {
    name: "one file under several paths",
    servers: 3,
    replicas: 2,
    region: 65_536,
    lines: b"c0 begin
c0 create /a
c0 open f0 /a
c0 write f0 t:ab
c0 link /a /b
c0 try
c0 begin
c0 stat /a
c1 begin
c1 open f0 /b
c1 write f0 t:XY
c1 link /b /c
c1 try
c0 commit
sys save
c0 begin
c0 open f0 /c
c0 append f0 t:z
c0 unlink /a
c0 unlink /b
c0 stat /c
c0 try
sys dump /c
",
    looks: b"sys tree\nsys dump /b\nsys dump /c\nc31 begin\n",
};

/// The looks at the files of a script that is made from a number.
pub const GENERATED_LOOKS: &[u8] = b"sys tree
sys dump /g0
sys dump /g1
sys dump /g2
sys dump /g3
sys dump /g4
sys dump /g5
sys dump /g6
sys dump /g7
c31 begin
";

impl<'a> Script<'a> {
    /// The same script with other lines.
    pub fn with_lines<'b>(&self, lines: &'b [u8]) -> Script<'b> {
        Script {
            name: self.name,
            servers: self.servers,
            replicas: self.replicas,
            region: self.region,
            lines,
            looks: self.looks,
        }
    }
}
