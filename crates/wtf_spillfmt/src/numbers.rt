//! Numbers at the front of bytes, each with the bytes behind it.

ghost use Rattle.std.specs.Prelude.{◌≡◌};
ghost use Rattle.std.specs.Int.{w32, w64};
ghost use Rattle.wtf_overlay.specs.Reading.{byte_at, number_at};
ghost use Rattle.wtf_spillfmt.specs.Parses.{Parses};

use crate::ListError;

/// The byte at the front of bytes, and the bytes behind it.
pub fn u8_at(bytes: &[u8]) -> Result<(u8, &[u8]), ListError>
    ensures { Parses (λ x. (x.0, x.1.now)) result (byte_at bytes.now) }
{
    match bytes {
        [] => Err(ListError::NotAList),
        [byte, rest @ ..] => Ok((*byte, rest)),
    }
}

/// The number in the four bytes at the front, and the bytes behind them.
#[tactic(auto, unfolding(wtf_overlay::specs::Reading::number_at))]
pub fn u32_at(bytes: &[u8]) -> Result<(u32, &[u8]), ListError>
    ensures { Parses (λ x. (x.0, x.1.now)) result (number_at w32 bytes.now) }
{
    if bytes.len() < 4 {
        return Err(ListError::NotAList);
    }
    let (front, rest) = bytes.split_at(4);
    let number = u32::from_be_bytes([front[0], front[1], front[2], front[3]]);
    Ok((number, rest))
}

/// The number in the eight bytes at the front, and the bytes behind them.
#[tactic(auto, unfolding(wtf_overlay::specs::Reading::number_at))]
pub fn u64_at(bytes: &[u8]) -> Result<(u64, &[u8]), ListError>
    ensures { Parses (λ x. (x.0, x.1.now)) result (number_at w64 bytes.now) }
{
    if bytes.len() < 8 {
        return Err(ListError::NotAList);
    }
    let (front, rest) = bytes.split_at(8);
    let number = u64::from_be_bytes([
        front[0], front[1], front[2], front[3], front[4], front[5], front[6], front[7],
    ]);
    Ok((number, rest))
}
