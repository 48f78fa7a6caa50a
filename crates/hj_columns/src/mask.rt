//! Masks of 64 keys that stand one after another: bit k of a mask is about the key at `from + k`.

ghost use Rattle.std.specs.Prelude.{◌≡◌, ℕ, ◌+◌, ◌*◌, ◌^◌, ◌<◌, ◌≤◌, ◌==◌, nat_le, length, map, slice_index, if◌then◌else◌};
ghost use Rattle.std.specs.Int.{bit_at};
ghost use Rattle.std.specs.Simd.Lanes.{chunk, mask_l};
ghost use Rattle.hj_columns.specs.Masks.{is_in};

use hj_rows::KeyRange;
use std::simd::prelude::*;

/// Tells which of the 64 keys from `from` on lie in a range.
#[inline(always)]
pub(crate) fn within(keys: &[u64], from: usize, range: KeyRange) -> u64
    requires { from + 64 ≤ length keys.now }
    ensures { (k : ℕ) → k < 64 → bit_at result k ≡ (if is_in range (slice_index keys.now (from + k)) then 1 else 0) }
{
    if range.low == range.high {
        return equal(keys, from, range.low);
    }
    if range.high == u64::MAX {
        return at_least(keys, from, range.low);
    }
    if range.low == 0 {
        return at_most(keys, from, range.high);
    }
    between(keys, from, range)
}

/// Tells which of the 64 keys from `from` on are this one.
#[inline(always)]
fn equal(keys: &[u64], from: usize, wanted: u64) -> u64
    requires { from + 64 ≤ length keys.now }
    ensures { result ≡ mask_l (map (λ key. key == wanted) (chunk from 64 keys.now)) }
{
    joined(
        equal16(keys, from, wanted),
        equal16(keys, from + 16, wanted),
        equal16(keys, from + 32, wanted),
        equal16(keys, from + 48, wanted),
    )
}

/// Tells which of the 64 keys from `from` on lie between both ends of a range.
// The two masks of 16 keys are put together at once, so that the keys stay in registers for both comparisons.
#[inline(always)]
fn between(keys: &[u64], from: usize, range: KeyRange) -> u64
    requires { from + 64 ≤ length keys.now }
    ensures { result ≡ mask_l (map (is_in range) (chunk from 64 keys.now)) }
{
    joined(
        between16(keys, from, range),
        between16(keys, from + 16, range),
        between16(keys, from + 32, range),
        between16(keys, from + 48, range),
    )
}

/// Tells which of the 64 keys from `from` on are at least `low`.
#[inline(always)]
fn at_least(keys: &[u64], from: usize, low: u64) -> u64
    requires { from + 64 ≤ length keys.now }
    ensures { result ≡ mask_l (map (nat_le low) (chunk from 64 keys.now)) }
{
    joined(
        at_least16(keys, from, low),
        at_least16(keys, from + 16, low),
        at_least16(keys, from + 32, low),
        at_least16(keys, from + 48, low),
    )
}

/// Tells which of the 64 keys from `from` on are at most `high`.
#[inline(always)]
fn at_most(keys: &[u64], from: usize, high: u64) -> u64
    requires { from + 64 ≤ length keys.now }
    ensures { result ≡ mask_l (map (λ key. nat_le key high) (chunk from 64 keys.now)) }
{
    joined(
        at_most16(keys, from, high),
        at_most16(keys, from + 16, high),
        at_most16(keys, from + 32, high),
        at_most16(keys, from + 48, high),
    )
}

/// Tells which of the 16 keys from `from` on are this one.
#[inline(always)]
fn equal16(keys: &[u64], from: usize, wanted: u64) -> u64
    requires { from + 16 ≤ length keys.now }
    ensures mask { result ≡ mask_l (map (λ key. key == wanted) (chunk from 16 keys.now)) }
    ensures small { result < 2 ^ 16 }
{
    u64x16::from_slice(&keys[from..])
        .simd_eq(u64x16::splat(wanted))
        .to_bitmask()
}

/// Tells which of the 16 keys from `from` on lie between both ends of a range.
#[inline(always)]
fn between16(keys: &[u64], from: usize, range: KeyRange) -> u64
    requires { from + 16 ≤ length keys.now }
    ensures mask { result ≡ mask_l (map (is_in range) (chunk from 16 keys.now)) }
    ensures small { result < 2 ^ 16 }
{
    at_least16(keys, from, range.low) & at_most16(keys, from, range.high)
}

/// Tells which of the 16 keys from `from` on are at least `low`.
#[inline(always)]
fn at_least16(keys: &[u64], from: usize, low: u64) -> u64
    requires { from + 16 ≤ length keys.now }
    ensures mask { result ≡ mask_l (map (nat_le low) (chunk from 16 keys.now)) }
    ensures small { result < 2 ^ 16 }
{
    u64x16::from_slice(&keys[from..])
        .simd_ge(u64x16::splat(low))
        .to_bitmask()
}

/// Tells which of the 16 keys from `from` on are at most `high`.
#[inline(always)]
fn at_most16(keys: &[u64], from: usize, high: u64) -> u64
    requires { from + 16 ≤ length keys.now }
    ensures mask { result ≡ mask_l (map (λ key. nat_le key high) (chunk from 16 keys.now)) }
    ensures small { result < 2 ^ 16 }
{
    u64x16::from_slice(&keys[from..])
        .simd_le(u64x16::splat(high))
        .to_bitmask()
}

/// Joins four masks of 16 keys to one of 64.
#[inline(always)]
fn joined(first: u64, second: u64, third: u64, fourth: u64) -> u64
    requires first { first < 2 ^ 16 }
    requires second { second < 2 ^ 16 }
    requires third { third < 2 ^ 16 }
    requires fourth { fourth < 2 ^ 16 }
    ensures { result ≡ first + 65536 * (second + 65536 * (third + 65536 * fourth)) }
{
    first + (second << 16) + (third << 32) + (fourth << 48)
}
