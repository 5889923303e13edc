//! What is odd about the devices of a run.

ghost use Rattle.std.specs.Prelude.{◌≤◌, ◌<◌};

/// A device of a run.
#[derive(Clone, Copy)]
pub enum Device {
    Source,
    Sink,
    /// The keeper, or the disk of the journal.
    Keeper,
    /// The store of this server.
    Store(u8),
}

/// In place of a server: that of each.
pub const EACH: u8 = 16;

/// In place of a server: that of none.
pub const NO_SERVER: u8 = 17;

impl Device {
    /// Its number: that of its server, or one of its own.
    pub fn number(self) -> u8 {
        match self {
            Device::Store(k) => k,
            Device::Source => 20,
            Device::Sink => 21,
            Device::Keeper => 22,
        }
    }

    /// What it is called.
    pub fn name(self) -> &'static str {
        match self {
            Device::Store(_) => "store",
            Device::Source => "source",
            Device::Sink => "sink",
            Device::Keeper => "keeper",
        }
    }
}

/// How a device is odd.
#[derive(Clone, Copy)]
pub enum How {
    /// So many of its calls fail, from one on.
    Calls(u64),
    /// It takes only so many bytes. A source gives, and a sink takes, one byte a call then.
    Bytes,
    /// It gives zeros in place of what it holds.
    Zeros,
    /// It is a disk under a journal, and all its calls fail, from one on; then it is stopped.
    Stops,
}

/// What is odd about a run.
#[derive(Clone, Copy)]
pub struct Fault {
    pub device: Device,
    pub how: How,
    /// From which call or byte on. Where no device is odd, which byte of a script is.
    pub at: u64,
    /// A call of the store of this server fails too, or of none: this one.
    pub server: u8,
    pub with: u64,
    /// A run counts in which so many calls fail at least.
    pub least: u64,
}

/// Nothing is odd.
pub const NONE: Fault = Fault {
    device: Device::Keeper,
    how: How::Calls(0),
    at: 0,
    server: NO_SERVER,
    with: 0,
    least: 0,
};

impl Fault {
    /// What is odd about a device.
    pub fn on(&self, device: Device) -> Fault {
        if self.device.number() == device.number() {
            return *self;
        }
        NONE
    }

    /// What is odd about the store of a server.
    pub fn on_store(&self, k: u8) -> Fault {
        if self.server == k {
            return Fault {
                at: self.with,
                ..*self
            };
        }
        if self.device.number() == EACH {
            return *self;
        }
        self.on(Device::Store(k))
    }

    /// How many calls fail.
    pub fn count(&self) -> u64 {
        match self.how {
            How::Calls(count) => count,
            _ => 0,
        }
    }

    /// Whether a call fails: so many were made before it, and so many bytes are given or taken once it is.
    pub fn is_due(&self, calls: u64, bytes: u64) -> bool {
        match self.how {
            How::Calls(count) => calls >= self.at && calls - self.at < count,
            How::Bytes => bytes > self.at,
            _ => false,
        }
    }

    /// How many bytes of so many a source gives, or a sink takes, in one call.
    pub fn most(&self, len: usize) -> usize
        ensures some { 0 < len → 0 < result }
        ensures all { result ≤ len }
    {
        match self.how {
            How::Bytes => len.min(1),
            _ => len,
        }
    }
}
