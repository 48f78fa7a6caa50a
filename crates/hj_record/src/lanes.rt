ghost use Rattle.std.specs.Prelude.{◌≡◌, ◌==◌, ◌+◌, ◌<◌, ◌≤◌, ℕ, List, Bool, not, length, map, take, drop, slice_index, All};
ghost use Rattle.std.specs.List.{prefix_len};
ghost use Rattle.std.specs.Simd.Lanes.{mask_l};
ghost use Rattle.hj_record.specs.Plain.{IsBare, IsNoQuote, is_special};

use crate::{CARRIAGE_RETURN, COMMA, LINE_FEED, QUOTE};
use std::simd::prelude::*;

/// How many bytes are looked at in one step.
pub(crate) const LANES: usize = 16;

/// Returns how many of the next bytes can stand in a field without quotes, up to the first that can't.
#[inline(always)]
pub(crate) fn bare_ahead(text: &[u8], at: usize) -> usize
    requires { at + 16 ≤ length text.now }
    ensures within { result ≤ 16 }
    ensures bare { All IsBare (take result (drop at text.now)) }
{
    first_set(specials(u8x16::from_slice(&text[at..])))
}

/// Returns how many of the next bytes stand in front of the first quote.
#[inline(always)]
pub(crate) fn unquoted_ahead(text: &[u8], at: usize) -> usize
    requires { at + 16 ≤ length text.now }
    ensures within { result ≤ 16 }
    ensures unquoted { All IsNoQuote (take result (drop at text.now)) }
    ensures quote { result < 16 → slice_index text.now (at + result) ≡ 34 }
{
    first_set(quotes(u8x16::from_slice(&text[at..])))
}

/// Returns a bit for each of 16 bytes: whether it can't stand in a field without quotes.
#[inline(always)]
fn specials(lanes: u8x16) -> u64
    ensures { result ≡ mask_l (map is_special lanes) }
{
    let found = lanes.simd_eq(u8x16::splat(COMMA))
        | lanes.simd_eq(u8x16::splat(QUOTE))
        | lanes.simd_eq(u8x16::splat(CARRIAGE_RETURN))
        | lanes.simd_eq(u8x16::splat(LINE_FEED));
    found.to_bitmask()
}

/// Returns a bit for each of 16 bytes: whether it is a quote.
#[inline(always)]
fn quotes(lanes: u8x16) -> u64
    ensures { result ≡ mask_l (map (λ byte. byte == 34) lanes) }
{
    lanes.simd_eq(u8x16::splat(QUOTE)).to_bitmask()
}

/// Returns how many bits stand below the lowest that is set, or 16.
#[inline(always)]
fn first_set(mask: u64) -> usize
    ensures { (test : ℕ → Bool) (lanes : List ℕ) → length lanes ≡ 16 → mask ≡ mask_l (map test lanes)
        → result ≡ prefix_len (λ byte. not (test byte)) lanes }
{
    if mask == 0 {
        LANES
    } else {
        mask.trailing_zeros() as usize
    }
}
