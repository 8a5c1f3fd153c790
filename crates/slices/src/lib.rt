// Total functions on slices and numbers. Nothing of flash.
#![tactic(auto)]

ghost use Rattle.std.specs.Prelude.{◌≡◌, ◌+◌, ◌%◌, get_or, take, drop, replicate};
ghost use Rattle.slices.specs.Changed.{map_at, window, put, stored};
ghost use Rattle.slices.specs.Bytes.{word, word_at, long_at};

// The remainder; by 0 it is the number itself.
pub fn rest(a: usize, b: usize) -> usize
    ensures { result ≡ a % b }
{
    a.checked_rem(b).unwrap_or(a)
}

// Byte `i`, and 0 past the end.
pub fn byte_at(s: &[u8], i: usize) -> u8
    ensures { result ≡ get_or s.now i 0 }
{
    s.get(i).copied().unwrap_or(0)
}

// The first `n` bytes, as far as there are any.
pub fn front(s: &[u8], n: usize) -> &[u8]
    ensures { result.now ≡ take n s.now }
{
    s.get(..n).unwrap_or(s)
}

// The bytes past the first `n`, as far as there are any.
pub fn after(s: &[u8], n: usize) -> &[u8]
    ensures { result.now ≡ drop n s.now }
{
    s.get(n..).unwrap_or(&[])
}

// The `N` bytes from `at` on; those past the end are 0.
fn bytes_at<const N: usize>(s: &[u8], at: usize) -> [u8; N]
    ensures { result ≡ map_at (get_or (drop at s.now)) (replicate N 0) }
{
    let rest = after(s, at);
    if let Some(bytes) = rest.first_chunk() {
        return *bytes;
    }
    let mut bytes = [0; N];
    copy(&mut bytes, rest);
    bytes
}

// The little-endian number of the four bytes from `at` on; those past the end are 0.
pub fn word_at(s: &[u8], at: usize) -> u32
    ensures { result ≡ word_at s.now at }
{
    let bytes: [u8; 4] = bytes_at(s, at);
    u32::from_le_bytes(bytes)
}

// The little-endian number of the eight bytes from `at` on; those past the end are 0.
pub fn long_at(s: &[u8], at: usize) -> u64
    ensures { result ≡ long_at s.now at }
{
    let bytes: [u8; 8] = bytes_at(s, at);
    u64::from_le_bytes(bytes)
}

// Every byte becomes `v`.
pub fn fill(s: &mut [u8], v: u8)
    ensures { s.new ≡ map_at (put v) s.old }
{
    s.fill(v);
}

// Each byte becomes the one of `src` at its place, where `src` has one.
pub fn copy(out: &mut [u8], src: &[u8])
    ensures { out.new ≡ map_at (get_or src.now) out.old }
{
    // a loop: the compiler makes `memcpy` of it, and of `copy_from_slice` `memmove`, which the archive for C then asks for
    let n = out.len().min(src.len());
    for (i, byte) in src[..n].iter().enumerate() {
        out[i] = *byte;
    }
}

// `count` bytes from `from` on become `v`, as far as there are any.
pub fn fill_part(s: &mut [u8], from: usize, count: usize, v: u8)
    ensures { s.new ≡ map_at (window from (from + count) (put v)) s.old }
{
    let start = from.min(s.len());
    let end = start + count.min(s.len() - start);
    fill(&mut s[start..end], v);
}

// The bytes from `at` on become those of `src`, as far as there are any.
pub fn store(out: &mut [u8], at: usize, src: &[u8])
    ensures { out.new ≡ map_at (stored at src.now) out.old }
{
    let start = at.min(out.len());
    copy(&mut out[start..], src);
}

// The bytes from `at` on become a number's four, little-endian, as far as there are any.
pub fn store_word(out: &mut [u8], at: usize, n: u32)
    ensures { out.new ≡ map_at (stored at (word n)) out.old }
{
    store(out, at, &n.to_le_bytes());
}
