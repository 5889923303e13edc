//! Where a handle stands.

ghost use Rattle.std.specs.Prelude.{◌≡◌, ◌<◌};
ghost use Rattle.std.specs.Option.{option_map};
ghost use Rattle.wtf_model.specs.declared.limits.TheConstants.{MAX_HANDLES};
ghost use Rattle.wtf_meta.specs.Sessions.{handle_in};
ghost use Rattle.wtf_steps.specs.Steps.{spot_of};

use wtf_base::InodeId;
use wtf_meta::Session;

/// The file of an open handle, and where it stands.
#[derive(Clone, Copy, Debug)]
pub struct Spot {
    /// The file.
    pub inode: InodeId,
    /// The offset, in bytes.
    pub off: u64,
}

/// Where a handle stands, if it is open.
pub fn handle_of(s: &Session, f: u8) -> Option<Spot>
    requires { f < MAX_HANDLES }
    ensures { result ≡ option_map spot_of (handle_in s.now f) }
{
    let Some(h) = s.handle(f) else {
        return None;
    };
    Some(Spot {
        inode: h.inode,
        off: h.off,
    })
}
