ghost use Rattle.std.specs.Prelude.{◌≡◌, ◌^◌, ◌-◌, ◌/◌, neg_ℤ, pos};
ghost use Rattle.px_ctypes.specs.Types.{bits, greatest, is_signed, least, rank};

use px_base::CType;

/// The bytes of a type on LP64; `bint` has those of `int`.
pub fn size_of(t: CType) -> u8
    ensures { result ≡ bits t / 8 }
{
    match t {
        CType::SChar | CType::UChar | CType::Char => 1,
        CType::Short | CType::UShort => 2,
        CType::Int | CType::UInt | CType::Bint => 4,
        CType::Long
        | CType::ULong
        | CType::LongLong
        | CType::ULongLong
        | CType::SsizeT
        | CType::SizeT => 8,
    }
}

pub(crate) fn is_signed(t: CType) -> bool
    ensures { result ≡ is_signed t }
{
    match t {
        CType::UChar
        | CType::UShort
        | CType::UInt
        | CType::ULong
        | CType::ULongLong
        | CType::SizeT => false,
        CType::SChar
        | CType::Char
        | CType::Short
        | CType::Int
        | CType::Long
        | CType::LongLong
        | CType::SsizeT
        | CType::Bint => true,
    }
}

/// The conversion rank (ISO C11 6.3.1.1).
pub(crate) fn rank(t: CType) -> u8
    ensures { result ≡ rank t }
{
    match t {
        CType::Bint => 0,
        CType::SChar | CType::UChar | CType::Char => 1,
        CType::Short | CType::UShort => 2,
        CType::Int | CType::UInt => 3,
        CType::Long | CType::ULong | CType::SsizeT | CType::SizeT => 4,
        CType::LongLong | CType::ULongLong => 5,
    }
}

/// A word of all the type's bits: 2^width - 1.
pub(crate) fn mask(t: CType) -> u64
    ensures { result ≡ 2 ^ bits t - 1 }
{
    match t {
        CType::SChar | CType::UChar | CType::Char => 0xff,
        CType::Short | CType::UShort => 0xffff,
        CType::Int | CType::UInt | CType::Bint => 0xffff_ffff,
        CType::Long
        | CType::ULong
        | CType::LongLong
        | CType::ULongLong
        | CType::SsizeT
        | CType::SizeT => 0xffff_ffff_ffff_ffff,
    }
}

/// The sign bit of a signed type: 2^(width - 1), which is as far as the least value lies below 0. An unsigned type has 0.
pub(crate) fn sign_bit(t: CType) -> u64
    ensures { neg_ℤ (pos result) ≡ least t }
{
    match t {
        CType::SChar | CType::Char => 0x80,
        CType::Short => 0x8000,
        CType::Int | CType::Bint => 0x8000_0000,
        CType::Long | CType::LongLong | CType::SsizeT => 0x8000_0000_0000_0000,
        CType::UChar
        | CType::UShort
        | CType::UInt
        | CType::ULong
        | CType::ULongLong
        | CType::SizeT => 0,
    }
}

// The range is computed from these words, since LLVM makes a table of a `match` of words, but indirect jumps of one of
// 128-bit numbers.

/// The least value of a type.
pub(crate) fn least(t: CType) -> i128
    ensures { result ≡ least t }
{
    -(sign_bit(t) as i128)
}

/// The greatest value of a type.
#[tactic(auto, using(crate::proofs::WrapLaws::greatest_is, crate::proofs::WrapLaws::modulus_fits))]
pub(crate) fn greatest(t: CType) -> i128
    ensures { result ≡ greatest t }
{
    mask(t) as i128 - sign_bit(t) as i128
}
