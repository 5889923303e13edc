//! Which servers are lost.

ghost use Rattle.std.specs.Prelude.{◌≡◌, ◌+◌, ◌<◌, ◌≤◌, ℕ, false, List, [], ◌∷◌, MatchBool};
ghost use Rattle.wtf_image.specs.Rules.{is_lost};
ghost use Rattle.wtf_replica.specs.Downs.{settings_of, is_down};
ghost use Rattle.wtf_healer.specs.Spared.{AreSpared, IsLostOf, left_of};

use wtf_base::Settings;
use wtf_replica::Replicas;

/// The servers that are lost, of the 16 that there can be.
#[derive(Clone, Copy, Debug)]
pub(crate) struct Lost {
    /// Bit k stands for server k.
    pub(crate) mask: u16,
    /// The least number above all of theirs.
    pub(crate) above: u8,
}

impl Lost {
    /// No server.
    pub(crate) fn none() -> Lost
        ensures { IsLostOf [] result }
    {
        Lost { mask: 0, above: 0 }
    }

    /// Whether server `k` is among them.
    pub(crate) fn has(&self, k: u8) -> bool
        requires { k < 16 }
        ensures { result ≡ is_lost self.now.mask k }
    {
        (self.mask >> k) & 1 == 1
    }

    /// These and server `k`.
    pub(crate) fn and(&self, k: u8) -> Lost
        requires { k < 16 }
        ensures { (ks : List ℕ) → IsLostOf ks self.now → IsLostOf (k ∷ ks) result }
    {
        Lost {
            mask: self.mask | (1 << k),
            above: self.above.max(k + 1),
        }
    }

    /// How many of these servers are left.
    fn left_of(&self, servers: u8) -> u8
        requires { servers ≤ 16 }
        ensures { result ≡ left_of (is_lost self.now.mask) servers }
    {
        let mut left = 0;
        for k in 0..servers {
            if !self.has(k) {
                left += 1;
            }
        }
        left
    }

    /// Whether a store with these settings can do without them, where it has so many stores: each is one of its servers, as many
    /// servers are left as a slice has copies, and each server has a store.
    pub(crate) fn are_spared(&self, settings: Settings, stores: u8) -> bool
        ensures { (ks : List ℕ) → IsLostOf ks self.now →
            MatchBool result (AreSpared ks settings stores) (AreSpared ks settings stores → ⊥) }
    {
        if self.above > settings.servers {
            return false;
        }
        if stores < settings.servers {
            return false;
        }
        settings.replicas <= self.left_of(settings.servers)
    }
}

/// The servers of these settings, of which the lost ones are down.
pub(crate) fn replicas_without(settings: Settings, lost: Lost) -> Replicas
    ensures settings { settings_of result ≡ settings }
    ensures down { (k : ℕ) → k < settings.servers → is_down result k ≡ is_lost lost.mask k }
    ensures none { (k : ℕ) → settings.servers ≤ k → is_down result k ≡ false }
{
    let mut replicas = Replicas::new(settings);
    for k in 0..settings.servers {
        if lost.has(k) {
            replicas.down(k);
        }
    }
    replicas
}
