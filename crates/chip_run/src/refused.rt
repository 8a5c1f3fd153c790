// What the host side refuses: deliveries, and calls whose lengths a script cannot have.
use crate::entries::{Case, Entry};
use device::cycle::Cycle;
use device::{Checked, Device};
use std::io;

// Prints a delivery's answer, whether the record is the all-zero one, and what became of the array.
fn print_given(rt: &impl Print, name: &[u8], x: Checked, a: &[u8]) -> io::Result<()> {
    rt.write_all(name)?;
    print!(rt; " {}", x.answer)?;
    show::print_choice(rt, x.device == Device::zero(), b" zero", b" given")?;
    show::print_choice(rt, show::all_are(a, 0, 0x33), b" kept", b" changed")?;
    show::print_choice(
        rt,
        show::all_are(a, 0, 0xFF),
        b" erased\n",
        b" not erased\n",
    )
}

// A delivery on an array of 33s.
fn delivery(
    rt: &impl Print,
    name: &[u8],
    part: u32,
    a: &mut [u8],
    program: u32,
    write_status: u32,
) -> io::Result<()> {
    slices::fill(a, 0x33);
    let x = chip::deliver(part, a, program, 5, 9, write_status);
    print_given(rt, name, x, a)
}

// Deliveries that are refused, in the order of the checks 1, 2, 7, and one that is not.
pub(crate) fn deliveries(rt: &impl Print) -> io::Result<()> {
    let mut a = [0; 4096];
    let mut short = [0; 4095];
    // part above 6: 1
    delivery(rt, b"delivery-part-7", 7, &mut a, 3, 2)?;
    // a part number that is a known one in its low byte: 1
    delivery(rt, b"delivery-part-256", 256, &mut a, 3, 2)?;
    // the array's length differs from the part's: 2
    delivery(rt, b"delivery-part-6", 6, &mut a, 3, 2)?;
    delivery(rt, b"delivery-length", 0, &mut short, 3, 2)?;
    delivery(rt, b"delivery-other-part", 1, &mut a, 3, 2)?;
    // a duration outside 1 to 1,000,000: 7
    delivery(rt, b"delivery-duration-0", 0, &mut a, 0, 2)?;
    delivery(rt, b"delivery-duration-1000001", 0, &mut a, 3, 1_000_001)?;
    // 1 before 2, 2 before 7
    delivery(rt, b"delivery-part-first", 7, &mut short, 0, 2)?;
    delivery(rt, b"delivery-length-next", 0, &mut short, 0, 2)?;
    // both ends of the durations: 0
    delivery(rt, b"delivery-ends", 0, &mut a, 1, 1_000_000)
}

// An array that is one byte short: 2, before the 4 of eight further pulses.
pub(crate) fn array_length(rt: &impl Print) -> io::Result<()> {
    let mut a = [0; 4096];
    let mut b = [0; 4096];
    let mut short_a = [0; 4095];
    let mut short_b = [0; 4095];
    let mut r = [0; 4];
    let mut s = [0; 4];
    let begun = Case::begin(
        rt,
        b"array-length",
        0,
        Entry::on(&mut a, &mut r),
        Entry::on(&mut b, &mut s),
    )?;
    let mut case = begun.with_arrays(&mut short_a, &mut short_b);
    case.exchange(rt, b"\x05\x00", 8, true)?;
    case.finish(rt)
}

// A response of three bytes: eight further pulses give 4, four bytes sent give 5, three are executed.
pub(crate) fn response_short(rt: &impl Print) -> io::Result<()> {
    let mut a = [0; 4096];
    let mut b = [0; 4096];
    let mut r = [0; 3];
    let mut s = [0; 3];
    let mut case = Case::begin(
        rt,
        b"response-short",
        0,
        Entry::on(&mut a, &mut r),
        Entry::on(&mut b, &mut s),
    )?;
    case.exchange(rt, b"\x05\x00\x00\x00", 8, true)?;
    case.exchange(rt, b"\x05\x00\x00\x00", 0, true)?;
    case.exchange(rt, b"\x05\x00\x00", 0, true)?;
    case.finish(rt)
}

// 65,537 bytes: 3, before the 4 of eight further pulses and the 5 of a short response.
pub(crate) fn too_many(rt: &impl Print) -> io::Result<()> {
    let sent = [5; 65_537];
    let mut a = [0; 4096];
    let mut b = [0; 4096];
    let mut r = [0; 1];
    let mut s = [0; 1];
    let mut case = Case::begin(
        rt,
        b"n-65537",
        0,
        Entry::on(&mut a, &mut r),
        Entry::on(&mut b, &mut s),
    )?;
    case.exchange(rt, &sent, 8, true)?;
    case.finish(rt)
}

// A call of time or power that is refused: its answer, and whether record and array are as they were.
fn refused<F: Fn(Device, &mut [u8]) -> Checked>(
    rt: &impl Print,
    name: &[u8],
    d: Device,
    a: &mut [u8],
    call: F,
) -> io::Result<()>
    requires { F.IsAlwaysCallable call }
{
    let x = call(d, a);
    rt.write_all(name)?;
    print!(rt; " {}", x.answer)?;
    show::print_choice(rt, x.device == d, b" same", b" changed")?;
    show::print_choice(rt, show::all_are(a, 0, 0x33), b" kept\n", b" touched\n")
}

// A power loss with such a mask.
fn refused_loss(
    rt: &impl Print,
    name: &[u8],
    d: Device,
    a: &mut [u8],
    mask: &[u8],
) -> io::Result<()> {
    refused(
        rt,
        name,
        d,
        a,
        |d: Device, a: &mut [u8]| d.loss(a, mask, true),
    )
}

// One byte of the array too few: 2, of a loss before the 41 of a mask that is too short.
fn short_array(rt: &impl Print, d: Device, a: &mut [u8]) -> io::Result<()> {
    refused(
        rt,
        b"wait-length",
        d,
        a,
        |d: Device, a: &mut [u8]| d.wait(a, 9),
    )?;
    refused(rt, b"power-up-length", d, a, |d: Device, a: &mut [u8]| {
        d.power_up(a)
    })?;
    refused_loss(rt, b"loss-length", d, a, &[0; 255])
}

// Masks of 255 and 257 bytes: 41.
fn other_masks(rt: &impl Print, d: Device, a: &mut [u8]) -> io::Result<()> {
    refused_loss(rt, b"loss-mask-255", d, a, &[0; 255])?;
    refused_loss(rt, b"loss-mask-257", d, a, &[0; 257])
}

// What waiting, power-up and power loss refuse, on an array of 33s: in a bulk erase, and 41 outside a cycle, too.
pub(crate) fn time_and_power(rt: &impl Print) -> io::Result<()> {
    let mut a = [0x33; 4096];
    let mut short = [0x33; 4095];
    let idle = Device::delivered(0, 3, 5, 9, 2);
    let busy = idle.started(Cycle::all(), 9);
    short_array(rt, busy, &mut short)?;
    other_masks(rt, busy, &mut a)?;
    other_masks(rt, idle, &mut a)
}
