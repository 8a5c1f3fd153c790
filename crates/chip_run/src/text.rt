// What a script's words say, and the front of a slice printed.
use show::print_bytes;
use slices::front;
use std::io;

// A word of a step, parted by spaces; no bytes where it has no such word.
pub(crate) fn word(step: &[u8], k: usize) -> &[u8] {
    step.split(|c| *c == b' ').nth(k).unwrap_or(&[])
}

// The value of a hexadecimal digit; what is none counts as 0.
fn digit(c: u8) -> u32 {
    char::from(c).to_digit(16).unwrap_or(0)
}

// The number that hexadecimal digits write.
pub(crate) fn number(digits: &[u8]) -> u32 {
    digits.iter().fold(0, |n, c| (n << 4) | digit(*c))
}

// The same as a byte: what is above it is cut off.
pub(crate) fn byte(digits: &[u8]) -> u8 {
    (number(digits) % 256) as u8
}

// Whether it is 1.
pub(crate) fn yes(digits: &[u8]) -> bool {
    number(digits) == 1
}

// The bytes that pairs of digits write, put at the start of `out` as far as it has room.
pub(crate) fn bytes<'a>(digits: &[u8], out: &'a mut [u8]) -> &'a [u8] {
    for (x, pair) in out.iter_mut().zip(digits.chunks_exact(2)) {
        *x = byte(pair);
    }
    front(out, digits.len() / 2)
}

// Prints the first `n` bytes in hexadecimal: a dash where there are none, and 16 with two dots where there are more.
pub(crate) fn print_front(rt: &impl Print, s: &[u8], n: usize) -> io::Result<()> {
    let first = front(s, n);
    if first.is_empty() {
        return rt.write_all(b"-");
    }
    print_bytes(rt, front(first, 16))?;
    show::print_choice(rt, first.len() <= 16, b"", b"..")
}
