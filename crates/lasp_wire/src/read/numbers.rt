//! Numbers, and bytes that tell which of some forms follows.

ghost use Rattle.std.specs.Prelude.{◌≡◌, ◌≤◌, IfOk, length};
ghost use Rattle.lasp_wire.specs.Prelude.{w8, w16, w32, w64, bytes_at, number_at, ranged_at, kind_at, between, signed_at, Gives};

use crate::refused::ReadError;
use model_wire::WireWhy;

/// So many bytes.
pub fn bytes_at(bytes: &[u8], n: usize) -> Result<(&[u8], &[u8]), ReadError>
    ensures exact { Gives (λ x. (x.0.now, x.1.now)) result (bytes_at n bytes.now) }
    ensures long { IfOk result (λ x. length x.0.now ≡ n) }
{
    if bytes.len() < n {
        return Err(ReadError::At(bytes.len(), WireWhy::Short));
    }
    Ok(bytes.split_at(n))
}

/// A number of 8 bits.
pub fn u8_at(bytes: &[u8]) -> Result<(u8, &[u8]), ReadError>
    ensures { Gives (λ x. (x.0, x.1.now)) result (number_at w8 bytes.now) }
{
    let (field, rest) = bytes_at(bytes, 1)?;
    Ok((field[0], rest))
}

/// A number of 16 bits.
pub fn u16_at(bytes: &[u8]) -> Result<(u16, &[u8]), ReadError>
    ensures { Gives (λ x. (x.0, x.1.now)) result (number_at w16 bytes.now) }
{
    let (field, rest) = bytes_at(bytes, 2)?;
    Ok((u16::from_be_bytes([field[0], field[1]]), rest))
}

/// A number of 32 bits.
pub fn u32_at(bytes: &[u8]) -> Result<(u32, &[u8]), ReadError>
    ensures { Gives (λ x. (x.0, x.1.now)) result (number_at w32 bytes.now) }
{
    let (field, rest) = bytes_at(bytes, 4)?;
    Ok((
        u32::from_be_bytes([field[0], field[1], field[2], field[3]]),
        rest,
    ))
}

/// A number of 64 bits.
pub fn u64_at(bytes: &[u8]) -> Result<(u64, &[u8]), ReadError>
    ensures { Gives (λ x. (x.0, x.1.now)) result (number_at w64 bytes.now) }
{
    let (field, rest) = bytes_at(bytes, 8)?;
    let number = u64::from_be_bytes([
        field[0], field[1], field[2], field[3], field[4], field[5], field[6], field[7],
    ]);
    Ok((number, rest))
}

/// A number with a sign, in two's complement.
pub fn i64_at(bytes: &[u8]) -> Result<(i64, &[u8]), ReadError>
    ensures { Gives (λ x. (x.0, x.1.now)) result (signed_at bytes.now) }
{
    let (n, rest) = u64_at(bytes)?;
    Ok((n.cast_signed(), rest))
}

/// A number of 8 bits within a range.
pub fn u8_in(bytes: &[u8], least: u8, most: u8) -> Result<(u8, &[u8]), ReadError>
    ensures exact { Gives (λ x. (x.0, x.1.now)) result (ranged_at w8 least most bytes.now) }
    ensures within { IfOk result (λ x. (least ≤ x.0) × (x.0 ≤ most)) }
{
    let (n, rest) = u8_at(bytes)?;
    if least <= n && n <= most {
        Ok((n, rest))
    } else {
        Err(ReadError::At(bytes.len(), WireWhy::Range))
    }
}

/// A number of 16 bits within a range.
pub fn u16_in(bytes: &[u8], least: u16, most: u16) -> Result<(u16, &[u8]), ReadError>
    ensures exact { Gives (λ x. (x.0, x.1.now)) result (ranged_at w16 least most bytes.now) }
    ensures within { IfOk result (λ x. (least ≤ x.0) × (x.0 ≤ most)) }
{
    let (n, rest) = u16_at(bytes)?;
    if least <= n && n <= most {
        Ok((n, rest))
    } else {
        Err(ReadError::At(bytes.len(), WireWhy::Range))
    }
}

/// A number of 32 bits within a range.
pub fn u32_in(bytes: &[u8], least: u32, most: u32) -> Result<(u32, &[u8]), ReadError>
    ensures exact { Gives (λ x. (x.0, x.1.now)) result (ranged_at w32 least most bytes.now) }
    ensures within { IfOk result (λ x. (least ≤ x.0) × (x.0 ≤ most)) }
{
    let (n, rest) = u32_at(bytes)?;
    if least <= n && n <= most {
        Ok((n, rest))
    } else {
        Err(ReadError::At(bytes.len(), WireWhy::Range))
    }
}

/// A number of 64 bits within a range.
pub fn u64_in(bytes: &[u8], least: u64, most: u64) -> Result<(u64, &[u8]), ReadError>
    ensures exact { Gives (λ x. (x.0, x.1.now)) result (ranged_at w64 least most bytes.now) }
    ensures within { IfOk result (λ x. (least ≤ x.0) × (x.0 ≤ most)) }
{
    let (n, rest) = u64_at(bytes)?;
    if least <= n && n <= most {
        Ok((n, rest))
    } else {
        Err(ReadError::At(bytes.len(), WireWhy::Range))
    }
}

/// A byte that tells which of some forms follows.
pub fn kind_in(bytes: &[u8], least: u8, most: u8) -> Result<(u8, &[u8]), ReadError>
    ensures exact { Gives (λ x. (x.0, x.1.now)) result (kind_at least most bytes.now) }
    ensures within { IfOk result (λ x. (least ≤ x.0) × (x.0 ≤ most)) }
{
    let (n, rest) = u8_at(bytes)?;
    if least <= n && n <= most {
        Ok((n, rest))
    } else {
        Err(ReadError::At(bytes.len(), WireWhy::Kind))
    }
}
