//! Copies of bytes to a place in a buffer. Where they don't fit, nothing is copied.

ghost use Rattle.std.specs.Prelude.{◌≡◌, ◌≤◌, ◌+◌, length, take};
ghost use Rattle.pua_texts.specs.Copied.{Copied};

use std::simd::Simd;

/// Copies bytes to a place, and answers where they end, which is the place where they don't fit.
#[inline(always)]
pub(crate) fn copy_all(buffer: &mut [u8], at: usize, bytes: &[u8]) -> usize
    ensures { at + length bytes.now ≤ length buffer.old →
        Copied buffer.old buffer.new at bytes.now result }
{
    let len = bytes.len();
    if len > buffer.len() || at > buffer.len() - len {
        return at;
    }
    let end = at + len;
    buffer[at..end].copy_from_slice(bytes);
    end
}

/// Copies bytes over as many others. Few of them are two copies of so many as the program knows
/// beforehand, which may overlap: such a copy is quick.
#[inline(always)]
pub(crate) fn overwrite(place: &mut [u8], bytes: &[u8])
    ensures { length bytes.now ≡ length place.old → place.new ≡ bytes.now }
{
    let len = bytes.len();
    if len < 4 || len > 64 {
        copy_all(place, 0, bytes);
    } else if len <= 8 {
        overwrite_ends::<4>(place, bytes);
    } else if len <= 16 {
        overwrite_ends::<8>(place, bytes);
    } else if len <= 32 {
        overwrite_ends::<16>(place, bytes);
    } else {
        overwrite_ends::<32>(place, bytes);
    }
}

/// Copies bytes over as many others, the first N of them and the last N.
#[inline(always)]
fn overwrite_ends<const N: usize>(place: &mut [u8], bytes: &[u8])
    ensures { length bytes.now ≡ length place.old → N ≤ length bytes.now →
        length bytes.now ≤ N + N → place.new ≡ bytes.now }
{
    let len = bytes.len();
    if N > len {
        return;
    }
    copy_front::<N>(place, 0, bytes);
    copy_front::<N>(place, len - N, &bytes[len - N..]);
}

/// Copies the first N bytes to a place.
#[inline(always)]
pub(crate) fn copy_front<const N: usize>(buffer: &mut [u8], at: usize, bytes: &[u8])
    ensures { at + N ≤ length buffer.old → N ≤ length bytes.now →
        Copied buffer.old buffer.new at (take N bytes.now) (at + N) }
{
    if N <= bytes.len() && N <= buffer.len() && at <= buffer.len() - N {
        Simd::<u8, N>::from_slice(bytes).copy_to_slice(&mut buffer[at..]);
    }
}
