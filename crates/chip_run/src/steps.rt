// One case at a time, run side by side through the entry by value and through the entry that takes the record lent.
//
// A script is a run of steps parted by semicolons, each of words parted by spaces, numbers in hexadecimal:
//   x W bits hex   one transaction: prints the answer (number, first, count, bits missing), the response, and three marks:
//                  r the record changed, a the array changed, b the response changed from byte n on
//   y W bits head byte last   the same of 261 bytes: five of the head, 255 times the byte, the last
//   w t            waits t ticks: prints the answer, and a where the array changed
//   p              powers up: prints the same
//   l mask yes     power is lost and comes back, with this byte in each place of the mask, and yes for 1: prints the same
//   a address      prints the array byte there
//   s              prints the status byte and the mode
//   = S B L        a cycle that runs is completed, and SRWD, BP and the latch are set, in standby: prints nothing
// The response holds 55 in each byte before a transaction. The line ends with `same` where answers, records, arrays and responses of both entries were the same at each step.
ghost use Rattle.std.specs.Prelude.{◌<◌, ◌^◌};

use crate::entries::{Case, Entry};
use crate::text::{byte, bytes, number, word, yes};
use device::{Device, Mode};
use slices::byte_at;
use std::io;

// A transaction of a script.
fn send(rt: &impl Print, case: &mut Case<'_>, step: &[u8]) -> io::Result<()> {
    let mut sent = [0; 32];
    let sent = bytes(word(step, 3), &mut sent);
    case.exchange(rt, sent, number(word(step, 2)), yes(word(step, 1)))
}

// A transaction of 261 bytes.
fn send_long(rt: &impl Print, case: &mut Case<'_>, step: &[u8]) -> io::Result<()> {
    let mut sent = [byte(word(step, 4)); 261];
    bytes(word(step, 3), &mut sent);
    sent[260] = byte(word(step, 5));
    case.exchange(rt, &sent, number(word(step, 2)), yes(word(step, 1)))
}

// A wait.
fn wait(rt: &impl Print, case: &mut Case<'_>, step: &[u8]) -> io::Result<()> {
    let ticks = number(word(step, 1));
    case.timed(rt, b" wait", |d: Device, a: &mut [u8]| d.wait(a, ticks))
}

// A power loss.
fn lose(rt: &impl Print, case: &mut Case<'_>, step: &[u8]) -> io::Result<()> {
    let mask = [byte(word(step, 1)); 256];
    let whole = yes(word(step, 2));
    case.timed(
        rt,
        b" loss",
        |d: Device, a: &mut [u8]| d.loss(a, &mask, whole),
    )
}

// The settings of a script.
fn set(case: &mut Case<'_>, step: &[u8]) {
    case.set(yes(word(step, 1)), byte(word(step, 2)), yes(word(step, 3)));
}

// Prints an array byte.
pub(crate) fn print_byte(rt: &impl Print, array: &[u8], at: usize) -> io::Result<()> {
    let x = byte_at(array, at);
    print!(rt; " {at:06x} is {x:02x}")
}

// Prints the status byte and the mode. A `match`: the mode is another crate's type, and no Display of this one's.
fn print_status(rt: &impl Print, d: Device) -> io::Result<()> {
    print!(rt; " status {:02x}", d.status())?;
    match d.mode {
        Mode::Standby => rt.write_all(b" standby"),
        Mode::Busy(left) => print!(rt; " busy {left}"),
        Mode::Deep => rt.write_all(b" deep"),
    }
}

// One step of a script, by its letter: a script is text.
fn take(rt: &impl Print, case: &mut Case<'_>, step: &[u8]) -> io::Result<()> {
    match byte_at(step, 0) {
        b'x' => send(rt, case, step),
        b'y' => send_long(rt, case, step),
        b'w' => wait(rt, case, step),
        b'p' => case.timed(rt, b" power", |d: Device, a: &mut [u8]| d.power_up(a)),
        b'l' => lose(rt, case, step),
        b'a' => print_byte(rt, case.by_value.array, number(word(step, 1)) as usize),
        b's' => print_status(rt, case.by_value.device),
        b'=' => {
            set(case, step);
            Ok(())
        }
        _ => Ok(()),
    }
}

// The steps of a script.
fn take_all(rt: &impl Print, case: &mut Case<'_>, script: &[u8]) -> io::Result<()> {
    for step in script.split(|c| *c == b';') {
        take(rt, case, step)?;
    }
    Ok(())
}

// A whole case on a part with an array of so many bytes, delivered with durations 3, 5, 9, 2, then the latch set.
pub(crate) fn case<const BYTES: usize>(
    rt: &impl Print,
    name: &[u8],
    part: u32,
    script: &[u8],
) -> io::Result<()>
    requires { BYTES < 2 ^ 63 }
{
    // a clause of each array of `BYTES` bytes; of a length written out each byte would be computed
    let mut a = [0; BYTES];
    let mut b = [0; BYTES];
    let mut r = [0; 300];
    let mut s = [0; 300];
    let mut case = Case::begin(
        rt,
        name,
        part,
        Entry::on(&mut a, &mut r),
        Entry::on(&mut b, &mut s),
    )?;
    take_all(rt, &mut case, script)?;
    case.finish(rt)
}
