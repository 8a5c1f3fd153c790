// The protected area of each BP, found by erasing at both ends of each sector.
ghost use Rattle.std.specs.Prelude.{◌<◌, ◌^◌};

use crate::entries::{Case, Entry, settings};
use chip::lent::transact_lent;
use device::Device;
use std::io;

// The sectors of a part: how many, and how many bytes each has.
#[derive(Clone, Copy)]
pub(crate) struct Sectors {
    pub(crate) count: u32,
    pub(crate) bytes: u32,
}

// Erases the sector of an address through both entries: a dot where both execute it, P where both give 17.
fn letter(case: &mut Case<'_>, d: Device, at: u32) -> u8 {
    let [_, high, middle, low] = at.to_be_bytes();
    let sent = [0xD8, high, middle, low];
    let x = &mut case.by_value;
    let y = &mut case.lent;
    let mut e = d;
    let one = chip::transact(d, x.array, &sent, 0, true, x.response).answer;
    let other = transact_lent(&mut e, y.array, &sent, 0, true, y.response);
    match (one.number, other.number) {
        (0, 0) => b'.',
        (17, 17) => b'P',
        _ => b'?',
    }
}

// Prints the letter of each sector: that of its first byte, or a question mark where its last byte differs.
fn row(rt: &impl Print, case: &mut Case<'_>, d: Device, sectors: Sectors) -> io::Result<()> {
    for sector in 0..sectors.count {
        let start = sector.wrapping_mul(sectors.bytes);
        let end = start.wrapping_add(sectors.bytes);
        let first = letter(case, d, start);
        let last = letter(case, d, end.wrapping_sub(1));
        rt.write_all(&[if first == last { first } else { b'?' }])?;
    }
    Ok(())
}

// A part's rows on one line, one for each BP from 0 on: the BP, a colon and the letters.
pub(crate) fn table<const BYTES: usize>(
    rt: &impl Print,
    name: &[u8],
    part: u32,
    sectors: Sectors,
    count: u8,
) -> io::Result<()>
    requires { BYTES < 2 ^ 63 }
{
    // a clause of each array of `BYTES` bytes; of a length written out each byte would be computed
    let mut a = [0; BYTES];
    let mut b = [0; BYTES];
    let mut r = [0; 4];
    let mut s = [0; 4];
    let mut case = Case::begin(
        rt,
        name,
        part,
        Entry::on(&mut a, &mut r),
        Entry::on(&mut b, &mut s),
    )?;
    let d = case.by_value.device;
    for bp in 0..count {
        print!(rt; " {bp}:")?;
        row(rt, &mut case, settings(d, false, bp, true), sectors)?;
    }
    rt.write_all(b"\n")
}
