//! Where the slices of a region go.

ghost use Rattle.std.specs.Prelude.{◌≡◌, ◌<◌, length, slice_get, Some};
ghost use Rattle.wtf_ring.specs.Orders.{IsOrder};

use arrayvec::ArrayVec;
use std::marker::Model;
use wtf_base::ServerId;

/// The place of a region of a file: the servers, each once, in the order in which they are tried, and the backing file
/// on each of them.
#[derive(Debug, Drop)]
pub struct Place {
    pub(crate) servers: ArrayVec<u8, 16>,
    pub(crate) file: u8,
}

impl Model for Place {
    ghost use Rattle.std.specs.Prelude.{length, ◌<◌};
    ghost use Rattle.wtf_ring.specs.Points.{PlaceView};
    ghost use Rattle.wtf_ring.specs.Orders.{IsOrder};

    ghost Value = { PlaceView };

    ghost view = { λ p. record { servers = p.servers.items; file = p.file } };

    ghost invariant = { λ p. IsOrder (length p.servers.items) p.servers.items × (p.file < 8) };
}

impl Place {
    /// The number of servers.
    pub fn count(&self) -> u8
        ensures value { result ≡ length self.now.servers }
        ensures order { IsOrder result self.now.servers }
    {
        self.servers.len() as u8
    }

    /// The server at `i`, counted from 0, in the order in which they are tried.
    pub fn server(&self, i: u8) -> ServerId
        requires { i < length self.now.servers }
        ensures { slice_get self.now.servers i ≡ Some result.0 }
    {
        ServerId(self.servers[i as usize])
    }

    /// The backing file, 0 to 7.
    pub fn file(&self) -> u8
        ensures value { result ≡ self.now.file }
        ensures known { result < 8 }
    {
        self.file
    }
}
