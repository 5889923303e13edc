//! The settings of a store.

ghost use Rattle.std.specs.Prelude.{◌≡◌, ◌*◌, ◌↔◌, IsSome, IfSome};
ghost use Rattle.wtf_base.specs.Limits.{AreSettings};

/// How many servers there are, how many copies each slice has, and how many bytes a region of a file has.
/// Every value keeps the limits: 1 to 16 servers, 1 to 3 replicas and at most one a server, and regions of
/// 64 to 1,048,576 bytes.
#[derive(Clone, Copy, Debug, PartialEq, Eq)]
pub struct Settings {
    pub servers: u8,
    pub replicas: u8,
    /// The size of a region, in bytes.
    pub region: u32,
    ghost limits: { AreSettings servers replicas region },
}

impl Settings {
    /// The settings with these numbers; `None` exactly where one of them is outside its limits.
    pub fn new(servers: u8, replicas: u8, region: u32) -> Option<Settings>
        ensures found { IsSome result ↔ AreSettings servers replicas region }
        ensures servers { IfSome result (λ s. s.servers ≡ servers) }
        ensures replicas { IfSome result (λ s. s.replicas ≡ replicas) }
        ensures region { IfSome result (λ s. s.region ≡ region) }
    {
        if servers < 1 || servers > 16 {
            return None;
        }
        if replicas < 1 || replicas > 3 || replicas > servers {
            return None;
        }
        if region < 64 || region > 1_048_576 {
            return None;
        }
        Some(Settings {
            servers,
            replicas,
            region,
        })
    }

    /// The greatest length of a file, in bytes: 4,096 regions.
    pub fn cap(&self) -> u64
        ensures { result ≡ 4096 * self.now.region }
    {
        4096 * self.region as u64
    }
}
