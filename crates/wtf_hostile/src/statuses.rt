//! Which statuses a run may end with.

ghost use Rattle.std.specs.Prelude.{◌≡◌, ◌↔◌, IsTrue};
ghost use Rattle.wtf_hostile.specs.Statuses.{MayEnd, due_status};

use crate::fault::Device;
use wtf_serve::{
    BAD_LINES, FINISHED, IMAGE_REFUSED, LOADING_FAILED, READING_FAILED, SAVING_FAILED,
    WRITING_FAILED,
};

/// The status of a run of which no device failed: whether a line was bad, and a server was down at the end.
pub fn due_status(bad: bool, down: bool) -> u8
    ensures { result ≡ due_status bad down }
{
    if down {
        return SAVING_FAILED;
    }
    if bad {
        return BAD_LINES;
    }
    FINISHED
}

/// Whether a run may end with this status where calls of this device were to fail, from this one on, and no others; and
/// where one of them failed, or none was made. `due` is the status that is due where all its lines were answered.
pub fn may_end(device: Device, call: u64, failed: bool, due: u8, status: u8) -> bool
    ensures { IsTrue result ↔ MayEnd device call failed due status }
{
    if !failed {
        return status == due;
    }
    match device {
        Device::Source => return status == READING_FAILED,
        Device::Sink => return status == WRITING_FAILED,
        Device::Keeper => {
            if call == 0 {
                return status == LOADING_FAILED;
            }
            return status == due || status == SAVING_FAILED;
        }
        Device::Store(_) => return status == due || status == SAVING_FAILED,
    }
}

/// Whether a run over any stores may end with this status, where its source, its sink and its keeper never fail.
pub fn is_named(status: u8) -> bool {
    status == FINISHED || status == BAD_LINES || status == SAVING_FAILED || status == IMAGE_REFUSED
}
