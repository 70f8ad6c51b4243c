//! Variable-length numbers.
//!
//! | Form | Groups of seven bits | Last possible byte | Meaning | Source |
//! |---|---|---|---|---|
//! | varint | 1 to 5 | at most 0x0f | zigzag, 32 bits | Kafka protocol guide, VARINT |
//! | varlong | 1 to 10 | at most 0x01 | zigzag, 64 bits | Kafka protocol guide, VARLONG |
//! | unsigned varint | 1 to 5 | at most 0x0f | 32 bits | KIP-482 |
//!
//! The least group comes first, and each byte but the last has its high bit set. Longer spellings than the shortest
//! are read.

ghost use Rattle.std.specs.Prelude.{◌≡◌, ◌≤◌, ◌<◌, ◌*◌, ◌^◌, pos, length, Some, IfSome};
ghost use Rattle.eos_wire.specs.Varint.{groups_at, unzigzag, IsVarint, IsVarlong, IsUvarint, ReadsFront, varint_at, varlong_at, uvarint_at};
ghost use Rattle.eos_wire.specs.steps.Varint.{FitsWord};

/// The most groups of a number of 32 bits.
const MOST_32: usize = 5;

/// The greatest value of the last of so many groups: 4 bits are left for it.
const TOP_32: u8 = 0x0f;

/// The most groups of a number of 64 bits.
const MOST_64: usize = 10;

/// The greatest value of the last of so many groups: 1 bit is left for it.
const TOP_64: u8 = 0x01;

/// A group at its place, from the least up.
fn placed(group: u8, place: usize) -> u64
    requires small { group < 128 }
    requires last { place ≡ 9 → group ≤ 1 }
    requires place { place ≤ 9 }
    ensures { result ≡ group * 2 ^ (7 * place) }
{
    u64::from(group) << (7 * place)
}

/// The number at the front, and how many bytes it takes. It has at most `most` groups, and the last of so many is at
/// most `top`.
fn groups(bytes: &[u8], most: usize, top: u8) -> Option<(u64, usize)>
    requires most { FitsWord most top }
    ensures value { result ≡ groups_at most top bytes.now }
    ensures within { IfSome result (λ found. found.1 ≤ length bytes.now) }
{
    let mut value = 0u64;
    for (i, b) in bytes.iter().enumerate() {
        if i + 1 == most {
            if *b > top {
                return None;
            }
            return Some((value + placed(*b, i), i + 1));
        }
        if *b < 128 {
            return Some((value + placed(*b, i), i + 1));
        }
        value += placed(*b - 128, i);
    }
    None
}

fn unzigzag_32(n: u32) -> i32
    ensures { result ≡ unzigzag n }
{
    let half = (n / 2) as i32;
    if n % 2 == 0 { half } else { -half - 1 }
}

fn unzigzag_64(n: u64) -> i64
    ensures { result ≡ unzigzag n }
{
    let half = (n / 2) as i64;
    if n % 2 == 0 { half } else { -half - 1 }
}

/// The number at the front, where it takes one byte and isn't below 0. Most lengths do, and need no loop.
#[inline(always)]
#[tactic(auto, using(crate::proofs::SmallVarints::small_varint, crate::proofs::SmallVarints::small_varlong))]
pub(crate) fn small(bytes: &[u8]) -> Option<u8>
    ensures varint { IfSome result (λ n. varint_at bytes.now ≡ Some (pos n, 1)) }
    ensures varlong { IfSome result (λ n. varlong_at bytes.now ≡ Some (pos n, 1)) }
    ensures within { IfSome result (λ n. 1 ≤ length bytes.now) }
{
    if bytes.is_empty() {
        return None;
    }
    let first = bytes[0];
    if first < 128 && first % 2 == 0 {
        Some(first / 2)
    } else {
        None
    }
}

/// The unsigned varint at the front, and how many bytes it takes. `None` where no bytes at the front are one: the last
/// group is missing, or the number passes 5 bytes or 32 bits.
#[tactic(auto, unfolding(crate::specs::Varint::uvarint_at))]
pub fn read_uvarint(bytes: &[u8]) -> Option<(u32, usize)>
    ensures value { result ≡ uvarint_at bytes.now }
    ensures within { IfSome result (λ r. r.1 ≤ length bytes.now) }
    ensures text { ReadsFront IsUvarint bytes.now result }
{
    let (number, len) = groups(bytes, MOST_32, TOP_32)?;
    Some((number as u32, len))
}

/// The varint at the front, and how many bytes it takes. `None` where no bytes at the front are one: the last group is
/// missing, or the number passes 5 bytes or 32 bits.
#[tactic(auto, unfolding(crate::specs::Varint::uvarint_at, crate::specs::Varint::varint_at))]
pub fn read_varint(bytes: &[u8]) -> Option<(i32, usize)>
    ensures value { result ≡ varint_at bytes.now }
    ensures within { IfSome result (λ r. r.1 ≤ length bytes.now) }
    ensures text { ReadsFront IsVarint bytes.now result }
{
    let (number, len) = read_uvarint(bytes)?;
    Some((unzigzag_32(number), len))
}

/// The varlong at the front, and how many bytes it takes. `None` where no bytes at the front are one: the last group is
/// missing, or the number passes 10 bytes or 64 bits.
#[tactic(auto, unfolding(crate::specs::Varint::varlong_at))]
pub fn read_varlong(bytes: &[u8]) -> Option<(i64, usize)>
    ensures value { result ≡ varlong_at bytes.now }
    ensures within { IfSome result (λ r. r.1 ≤ length bytes.now) }
    ensures text { ReadsFront IsVarlong bytes.now result }
{
    let (number, len) = groups(bytes, MOST_64, TOP_64)?;
    Some((unzigzag_64(number), len))
}
