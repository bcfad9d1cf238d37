//! Bodies whose summary of a block goes into at most four numbers of 32 bits.
ghost use Rattle.std.specs.Prelude.{◌≡◌, ℕ, ◌≤◌, List};
ghost use Rattle.lv_bodies.specs.Parts.{AreParts, HasParts, low_32, widened};

use crate::singles::Single;

/// A body of one kind, whose summary of eight elements of 16 bits (-32768 to 32767) fits one to four numbers of 32 bits, its parts. The parts of
/// another summary may say less than it does.
pub trait Parted: Single {
    ghost PARTS: { ℕ };

    /// How many parts a summary has: 1 to 4.
    const PARTS: u32;

    ghost some: { (1 ≤ PARTS) × (PARTS ≤ 4) };

    ghost parts_of: { Self.S → List ℕ };

    ghost whole_of: { List ℕ → Self.S };

    // Four numbers of 32 bits; those from `PARTS` on are 0.
    ghost are_parts: { AreParts PARTS parts_of };

    /// The `PARTS` parts of a summary; the rest are 0.
    fn to_parts(s: Self::S) -> [u32; 4]
        ensures { result ≡ parts_of s };

    /// The summary that has these parts, if they are those of eight elements of 16 bits.
    fn of_parts(parts: [u32; 4]) -> Self::S
        ensures { result ≡ whole_of parts };

    /// The summary of eight elements of 16 bits is that of its parts.
    ghost has_parts: { (b : Self) → HasParts parts_of whole_of (Self.operations b) };
}

/// The low 32 bits of a number, as those of two's complement.
#[inline(always)]
pub(crate) fn low_bits(x: i128) -> u32
    ensures { result ≡ low_32 x }
{
    (x.cast_unsigned() % (1 << 32)) as u32
}

/// A part, widened with its sign.
#[inline(always)]
pub(crate) fn with_sign(part: u32) -> i128
    ensures { result ≡ widened part }
{
    i128::from(part.cast_signed())
}
