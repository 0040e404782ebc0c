// Copies of a text by moves of a fixed size.
ghost use Rattle.std.specs.Prelude.{◌≡◌, ◌+◌, ◌≤◌, length, take};
ghost use Rattle.rx_text.specs.Places.{IsPlaced};

use std::simd::Simd;

/// Copies the first N bytes of a text, in one move.
#[inline(always)]
fn place_front<const N: usize>(bytes: &mut [u8], at: usize, text: &[u8]) -> usize
    requires long { N ≤ length text.now }
    requires room { at + N ≤ length bytes.old }
    ensures { IsPlaced bytes.old bytes.new at (take N text.now) result }
{
    Simd::<u8, N>::from_slice(text).copy_to_slice(&mut bytes[at..]);
    at + N
}

/// Copies a text of N bytes or more, and at most twice as many: its first N and its last N, which may overlap.
#[inline(always)]
fn place_ends<const N: usize>(bytes: &mut [u8], at: usize, text: &[u8]) -> usize
    requires long { (N ≤ length text.now) × (length text.now ≤ N + N) }
    requires room { at + length text.now ≤ length bytes.old }
    ensures { IsPlaced bytes.old bytes.new at text.now result }
{
    let rest = text.len() - N;
    place_front::<N>(bytes, at, text);
    place_front::<N>(bytes, at + rest, &text[rest..])
}

/// Copies a text of 32 bytes or more: 32 of them at a time, and then the last 32.
#[inline(always)]
fn place_long(bytes: &mut [u8], at: usize, text: &[u8]) -> usize
    requires long { 32 ≤ length text.now }
    requires room { at + length text.now ≤ length bytes.old }
    ensures { IsPlaced bytes.old bytes.new at text.now result }
{
    let mut done = 0;
    while text.len() - done > 64 {
        place_front::<32>(bytes, at + done, &text[done..]);
        done += 32;
    }
    place_ends::<32>(bytes, at + done, &text[done..])
}

/// Writes the first `len` bytes of a text by one move of N bytes, behind the first `at` bytes, and answers the place behind
/// them. Those bytes stay, and what stands behind the text is left open. Takes no memory, and constant time.
#[inline(always)]
pub fn place_part<const N: usize>(bytes: &mut [u8], at: usize, text: &[u8], len: usize) -> usize
    requires part { (len ≤ N) × (N ≤ length text.now) }
    requires room { at + N ≤ length bytes.old }
    ensures { IsPlaced bytes.old bytes.new at (take len text.now) result }
{
    let _whole = place_front::<N>(bytes, at, text);
    at + len
}

/// Writes a text behind the first `at` bytes, and answers the place behind it. Those bytes stay, and what stands behind the
/// text is left open. Takes no memory, and time that grows with the text: one of at most 32 bytes takes two moves.
#[inline(always)]
pub fn place_text(bytes: &mut [u8], at: usize, text: &[u8]) -> usize
    requires { at + length text.now ≤ length bytes.old }
    ensures { IsPlaced bytes.old bytes.new at text.now result }
{
    let len = text.len();
    if len > 32 {
        place_long(bytes, at, text)
    } else if len >= 16 {
        place_ends::<16>(bytes, at, text)
    } else if len >= 8 {
        place_ends::<8>(bytes, at, text)
    } else if len >= 4 {
        place_ends::<4>(bytes, at, text)
    } else if len >= 2 {
        place_ends::<2>(bytes, at, text)
    } else if len == 1 {
        place_front::<1>(bytes, at, text)
    } else {
        at
    }
}
