// The transaction that is too long for a script.
use crate::entries::{Case, Entry};
use crate::steps::print_byte;
use std::io;

// 65,536 bytes, a read from 000000 on: executed, 65,532 driven, rolling over 15 times; the last is that of 000FFB, and the response byte after it is untouched.
pub(crate) fn longest(rt: &impl Print) -> io::Result<()> {
    let mut sent = [0; 65_536];
    sent[0] = 3;
    let mut a = [0; 4096];
    let mut b = [0; 4096];
    let mut r = [0; 65_537];
    let mut s = [0; 65_537];
    let mut case = Case::begin(
        rt,
        b"n-65536",
        0,
        Entry::on(&mut a, &mut r),
        Entry::on(&mut b, &mut s),
    )?;
    case.exchange(rt, b"\x02\x00\x0F\xFB\x77", 0, true)?;
    case.set(false, 0, true);
    case.exchange(rt, &sent, 0, true)?;
    print_byte(rt, case.by_value.response, 65_535)?;
    print_byte(rt, case.by_value.response, 65_536)?;
    case.finish(rt)
}
