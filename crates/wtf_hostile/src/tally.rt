//! What the answers of a run say of its devices.

use crate::scripts::Script;
use crate::texts::{number_behind, text_of};

/// Which servers are down, of how many, and how many copies a slice has.
#[derive(Clone, Copy)]
struct Servers {
    down: [bool; 16],
    servers: u8,
    replicas: u8,
}

/// What the answers of a run say.
#[derive(Clone, Copy)]
pub struct Tally {
    /// How many calls of devices failed at least.
    pub faults: u64,
    /// Whether a line is bad.
    pub bad: bool,
    /// Whether a server is down at the end.
    pub down: bool,
}

impl Servers {
    /// Whether a server is down.
    fn is_down(&self, k: u8) -> bool {
        self.down.get(k as usize).copied().unwrap_or(false)
    }

    /// How many servers are down.
    fn count(&self) -> usize {
        let mut count = 0usize;
        for down in self.down.iter() {
            count = count.saturating_add(usize::from(*down));
        }
        count
    }

    /// Takes a server down, or up.
    fn set(&mut self, k: u8, down: bool) {
        if let Some(place) = self.down.get_mut(k as usize) {
            *place = down;
        }
    }

    /// Follows a line that answered `ok`.
    fn follow(&mut self, line: &str) {
        if let Some(k) = number_behind(line, "sys down ") {
            self.set(k, true);
        }
        if let Some(k) = number_behind(line, "sys up ") {
            self.set(k, false);
        }
    }

    /// How many stores failed at least in a line that answers so: those that have to be out and are not down. A write lacks
    /// servers where fewer than a slice has copies are left, a read where all that have a copy are out.
    fn failed_in(&self, answer: &str) -> usize {
        let (servers, replicas, down) = (
            self.servers as usize,
            self.replicas as usize,
            self.count(),
        );
        if answer == "fault write" {
            return servers
                .saturating_add(1)
                .saturating_sub(replicas)
                .saturating_sub(down);
        }
        if answer == "fault save" {
            return 1usize.saturating_sub(down);
        }
        if let Some(k) = number_behind(answer, "fault read ") {
            return replicas
                .saturating_sub(down)
                .max(usize::from(!self.is_down(k)));
        }
        if let Some(k) = number_behind(answer, "fault punch ") {
            return usize::from(!self.is_down(k));
        }
        0
    }
}

/// What the answers to the lines of a script say. The output has the settings before them.
pub fn tally_of(script: &Script, output: &str) -> Tally {
    let mut now = Servers {
        down: [false; 16],
        servers: script.servers,
        replicas: script.replicas,
    };
    let mut faults = 0u64;
    let mut bad = false;
    let lines = script.lines.split(|byte| *byte == b'\n');
    for (line, answer) in lines.zip(output.split('\n').skip(1)) {
        faults = faults.saturating_add(now.failed_in(answer) as u64);
        bad = bad || answer.starts_with("bad ");
        if answer == "ok" {
            now.follow(text_of(line));
        }
    }
    Tally {
        faults,
        bad,
        down: now.count() > 0,
    }
}

/// Behind how many lines the last save was answered, or 0.
pub fn last_save(output: &str) -> usize {
    let (mut at, mut last) = (0usize, 0usize);
    for answer in output.split('\n') {
        if answer.starts_with("saved ") {
            last = at;
        }
        at = at.saturating_add(1);
    }
    last
}
