// What the programs of the gate print: bytes, and one of two texts; and whether bytes are all the same.
#![tactic(auto)]

use std::io;

// Prints bytes in hexadecimal.
pub fn print_bytes(rt: &impl Print, s: &[u8]) -> io::Result<()> {
    for x in s {
        print!(rt; "{x:02x}")?;
    }
    Ok(())
}

// Whether each byte from `from` on is `v`.
pub fn all_are(s: &[u8], from: usize, v: u8) -> bool {
    s.iter().skip(from).all(|x| *x == v)
}

// Prints the first text where a test holds, else the second.
pub fn print_choice(rt: &impl Print, test: bool, yes: &[u8], no: &[u8]) -> io::Result<()> {
    rt.write_all(if test { yes } else { no })
}
