//! What a row says.

/// What a machine or a run begins with.
#[derive(Clone, Copy)]
pub struct Start {
    /// The words that ask for it.
    pub words: &'static str,
    /// The line that the output of a run begins with.
    pub line: &'static str,
    pub servers: u8,
    pub replicas: u8,
    pub region: u32,
    /// How many installs there were before.
    pub number: u64,
}

/// Lines with their answers.
#[derive(Clone, Copy)]
pub struct Row {
    pub name: &'static str,
    pub start: Start,
    /// Where it is not empty, a transaction before the lines makes `/a` with these bytes.
    pub text: &'static str,
    pub lines: &'static str,
}

/// A row, and what a run of it on empty stores which never fail comes to.
#[derive(Clone, Copy)]
pub struct Run {
    pub row: Row,
    /// How many bytes all stores hold in the end.
    pub stored: u64,
    pub status: u8,
}

pub const DEFAULTS: Start = Start {
    words: "",
    line: "wtf servers 4 replicas 2 region 65536 number 0\n",
    servers: 4,
    replicas: 2,
    region: 65_536,
    number: 0,
};

pub const SMALL_REGIONS: Start = Start {
    words: "--region 64",
    line: "wtf servers 4 replicas 2 region 64 number 0\n",
    servers: 4,
    replicas: 2,
    region: 64,
    number: 0,
};

pub const ONE_SERVER: Start = Start {
    words: "--servers 1 --replicas 1",
    line: "wtf servers 1 replicas 1 region 65536 number 0\n",
    servers: 1,
    replicas: 1,
    region: 65_536,
    number: 0,
};

pub const ONE_SMALL: Start = Start {
    words: "--servers 1 --replicas 1 --region 64",
    line: "wtf servers 1 replicas 1 region 64 number 0\n",
    servers: 1,
    replicas: 1,
    region: 64,
    number: 0,
};

pub const TWO_SERVERS: Start = Start {
    words: "--servers 2",
    line: "wtf servers 2 replicas 2 region 65536 number 0\n",
    servers: 2,
    replicas: 2,
    region: 65_536,
    number: 0,
};

pub const THREE_SERVERS: Start = Start {
    words: "--servers 3",
    line: "wtf servers 3 replicas 2 region 65536 number 0\n",
    servers: 3,
    replicas: 2,
    region: 65_536,
    number: 0,
};
