// The calls on a row that is lent and updated there.
ghost use Rattle.std.specs.Prelude.{◌≡◌, ◌≤◌, length};
ghost use Rattle.chip.specs.Outcome.{Meets};
ghost use Rattle.bus.specs.Calls.{wait_number, bused, Bused, bus_waited, AllWaited};
ghost use Rattle.bus.specs.Found.{partly};

use crate::{accepts_turn, accepts_wait, bytes_in, bytes_of};
use chip::{Answer, Done};
use device::Device;

// One transaction on the bytes `from` up to `to` of the array: `chip::transact`, with a clause for the whole array.
fn transact_part(
    device: Device,
    from: usize,
    to: usize,
    array: &mut [u8],
    sent: &[u8],
    pulses: u32,
    w: bool,
    response: &mut [u8],
) -> Done
    requires { (from ≤ to) × (to ≤ length array.old) }
    ensures { Meets (partly from to device array.old sent.now pulses w response.old) result.answer result.device array.new response.new }
{
    chip::transact(device, &mut array[from..to], sent, pulses, w, response)
}

// One transaction with one chip of a lent row: its record is replaced, and the others do nothing.
pub fn transact_lent(
    row: &mut [Device],
    chip: usize,
    array: &mut [u8],
    sent: &[u8],
    pulses: u32,
    w: bool,
    response: &mut [u8],
) -> Answer
    ensures { Bused (bused row.old array.old chip sent.now pulses w response.old) result row.new array.new response.new }
{
    if let Err(refusal) = accepts_turn(row, chip, array.len()) {
        return Answer::bare(refusal.into());
    }
    let device = row[chip];
    let from = bytes_in(&row[..chip]);
    let to = from + bytes_of(device);
    let done = transact_part(device, from, to, array, sent, pulses, w, response);
    row[chip] = done.device;
    done.answer
}

// Each chip of a whole row waits, on its own bytes.
fn wait_all(row: &mut [Device], array: &mut [u8], ticks: u32)
    requires { wait_number row.old (length array.old) ≡ 0 }
    ensures { AllWaited (bus_waited row.old array.old ticks) 0 row.new array.new }
{
    // `from` by hand: of the parts that `split_at_mut` cuts off in a loop, nothing is known after it
    let mut from = 0;
    for device in row.iter_mut() {
        let to = from + bytes_of(*device);
        *device = device.wait(&mut array[from..to], ticks).device;
        from = to;
    }
}

// Every chip of a lent row waits `ticks`: their records are replaced.
// The answer by its number: `bus_waited`, of which the theorems speak, gives it so.
pub fn wait_lent(row: &mut [Device], array: &mut [u8], ticks: u32) -> u8
    ensures { AllWaited (bus_waited row.old array.old ticks) result row.new array.new }
{
    if let Err(refusal) = accepts_wait(row, array.len()) {
        return refusal.into();
    }
    wait_all(row, array, ticks);
    0
}
