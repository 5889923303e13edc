//! Pieces that are added to a region.

ghost use Rattle.std.specs.Prelude.{◌≡◌, ◌-◌, ◌<◌, ◌^◌, min, IfOk};
ghost use Rattle.wtf_overlay.specs.Origin.{pieces_len};

use std::alloc::Global;
use std::marker::Model;
use wtf_base::OutOfMemory;
use wtf_overlay::Piece;

/// Consecutive pieces, seen as their list.
#[derive(Debug, Drop)]
pub struct Pieces {
    kept: OneOrMany,
}

/// How pieces are kept. A single one, as an append has, stands in place and takes no memory of its
/// own. Any other number of them stands in a list, with its number of bytes beside it, so that this
/// is told without a walk over them. It stops at 2^64 - 1, far above the size of a region.
#[derive(Debug, Drop)]
enum OneOrMany {
    One(Piece),
    Many(Vec<Piece>, u64),
}

impl Model for Pieces {
    ghost use Rattle.std.specs.Prelude.{List};
    ghost use Rattle.wtf_overlay.specs.declared.part.Piece.{Piece};

    ghost Value = { List Piece };

    ghost use Rattle.wtf_overlay.specs.contracts.part.Piece as piece;
    ghost use Rattle.std.specs.Coded.{coded_list};

    ghost coded = { coded_list piece.the_row.coded };

    ghost use Rattle.wtf_values.specs.Pieces.{pieces_in, IsCounted};

    ghost view = { λ p. pieces_in p.kept };

    ghost invariant = { λ p. IsCounted p.kept };
}

impl Pieces {
    /// These pieces.
    pub fn of(alloc: Global, parts: &[Piece]) -> Result<Pieces, OutOfMemory>
        ensures { IfOk result (λ pieces. pieces ≡ parts.now) }
    {
        let kept = match parts {
            [piece] => OneOrMany::One(*piece),
            _ => OneOrMany::Many(Vec::from_slice(alloc, parts)?, bytes_of(parts)),
        };
        Ok(Pieces { kept })
    }

    /// The pieces, in order.
    pub fn as_slice(&self) -> &[Piece]
        ensures { result.now ≡ self.now }
    {
        match &self.kept {
            OneOrMany::One(piece) => std::slice::from_ref(piece),
            OneOrMany::Many(list, _) => list.as_slice(),
        }
    }

    /// The number of bytes; 2^64 - 1 where there are more.
    pub fn bytes(&self) -> u64
        ensures { result ≡ min (pieces_len self.now) (2 ^ 64 - 1) }
    {
        match &self.kept {
            OneOrMany::One(piece) => len_of(piece),
            OneOrMany::Many(_, bytes) => *bytes,
        }
    }
}

fn bytes_of(parts: &[Piece]) -> u64
    ensures { result ≡ min (pieces_len parts.now) (2 ^ 64 - 1) }
{
    let mut sum = 0u64;
    for piece in parts {
        sum = sum.saturating_add(piece.len);
    }
    sum
}

// The length of a piece. Its clause says that it fits 64 bits, which the proof of `bytes` does not
// see of a piece inside a variant.
fn len_of(piece: &Piece) -> u64
    ensures len { result ≡ piece.now.len }
    ensures fits { result < 2 ^ 64 }
{
    piece.len
}
