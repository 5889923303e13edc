//! The servers that are up and down.

ghost use Rattle.std.specs.Prelude.{◌≡◌, ◌≢◌, ◌<◌, ℕ, true, false};

use wtf_base::Settings;

/// The servers of some settings, each up or down.
#[derive(Clone, Copy, Debug)]
pub struct Replicas {
    pub(crate) settings: Settings,
    pub(crate) down: [bool; 16],
}

impl Replicas {
    ghost use Rattle.wtf_replica.specs.Downs.{settings_of, is_down};

    /// The servers of these settings, all of them up.
    pub fn new(settings: Settings) -> Replicas
        ensures settings { settings_of result ≡ settings }
        ensures up { (k : ℕ) → is_down result k ≡ false }
    {
        Replicas {
            settings,
            down: [false; 16],
        }
    }

    /// Server `k` goes down.
    pub fn down(&mut self, k: u8)
        requires { k < (settings_of self.old).servers }
        ensures settings { settings_of self.new ≡ settings_of self.old }
        ensures down { is_down self.new k ≡ true }
        ensures others { (j : ℕ) → j ≢ k → is_down self.new j ≡ is_down self.old j }
    {
        self.down[k as usize] = true;
    }

    /// Server `k` comes up.
    pub fn up(&mut self, k: u8)
        requires { k < (settings_of self.old).servers }
        ensures settings { settings_of self.new ≡ settings_of self.old }
        ensures up { is_down self.new k ≡ false }
        ensures others { (j : ℕ) → j ≢ k → is_down self.new j ≡ is_down self.old j }
    {
        self.down[k as usize] = false;
    }

    /// Whether server `k` is down.
    pub fn is_down(&self, k: u8) -> bool
        ensures { result ≡ is_down self.now k }
    {
        match self.down.get(k as usize) {
            Some(down) => *down,
            None => false,
        }
    }
}
