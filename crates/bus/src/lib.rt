// Several chips on one bus: a row of records beside one array that holds the chips' bytes in row order.
#![tactic(auto)]

ghost use Rattle.std.specs.Prelude.{◌≡◌, ◌≤◌, ◌<◌, length, take, drop};
ghost use Rattle.refusals.specs.Numbers.{answer_of};
ghost use Rattle.bus.specs.Bus.{bytes_of, sum_of, all_sound};
ghost use Rattle.bus.specs.Calls.{whole_number, wait_number, bus_number, bused, Turns, bus_waited, Passes};

// The row lent, and updated there.
pub mod lent;

use chip::Answer;
use device::Device;
use parts::Figures;
use refusals::Refusal;

// The places of a row that is passed by value: one more than a bus has chips, so that a row that is too long can be passed too.
pub const PLACES: usize = 9;

// The most chips that a bus has.
const CHIPS: usize = 8;

// A transaction's answer, and the row as it is then.
#[derive(Clone, Copy)]
pub struct Turned {
    pub answer: Answer,
    pub row: [Device; PLACES],
}

// A wait's answer, and the row as it is then.
// The number as it is: `bus_waited`, of which the theorems speak, gives it so.
#[derive(Clone, Copy)]
pub struct Passed {
    pub answer: u8,
    pub row: [Device; PLACES],
}

// How many bytes the part of a record has.
fn bytes_of(device: Device) -> usize
    ensures { result ≡ bytes_of device }
{
    Figures::of(device.part).bytes
}

// How many bytes the chips of a row have together.
fn bytes_in(row: &[Device]) -> usize
    requires { length row.now ≤ 8 }
    ensures { result ≡ sum_of row.now }
{
    row.iter().map(|device| bytes_of(*device)).sum()
}

// Whether every record of a row is sound.
fn all_sound(row: &[Device]) -> bool
    ensures { result ≡ all_sound row.now }
{
    row.iter().all(|device| device.sound())
}

// A row is whole where every record is sound and the array has the bytes of the parts together.
fn accepts_row(row: &[Device], array: usize) -> Result<(), Refusal>
    requires { length row.now ≤ 8 }
    ensures { answer_of result ≡ whole_number row.now array }
{
    if !all_sound(row) {
        return Err(Refusal::NotSound);
    }
    if array != bytes_in(row) {
        return Err(Refusal::RowArrayLength);
    }
    Ok(())
}

// Whether a row of one to eight chips may wait.
fn accepts_wait(row: &[Device], array: usize) -> Result<(), Refusal>
    ensures { answer_of result ≡ wait_number row.now array }
{
    if row.is_empty() || CHIPS < row.len() {
        return Err(Refusal::OddRow);
    }
    accepts_row(row, array)
}

// Whether one chip of a row may be asked; the chip itself may still refuse.
fn accepts_turn(row: &[Device], chip: usize, array: usize) -> Result<(), Refusal>
    ensures { answer_of result ≡ bus_number row.now array chip }
{
    if row.is_empty() || CHIPS < row.len() {
        return Err(Refusal::OddRow);
    }
    if row.len() <= chip {
        return Err(Refusal::NoSuchChip);
    }
    accepts_row(row, array)
}

// One transaction with one chip of a row that is the first n places; the others do nothing.
// The nine places with n beside them: `Turns` and `Passes` promise of such a row. `lent` takes a slice. Bytes, pulses and W each by itself, as `bused` takes them and C hands them.
pub fn transact(
    mut row: [Device; PLACES],
    n: usize,
    chip: usize,
    array: &mut [u8],
    sent: &[u8],
    pulses: u32,
    w: bool,
    response: &mut [u8],
) -> Turned
    ensures { Turns n row (bused (take n row) array.old chip sent.now pulses w response.old) result.answer result.row array.new response.new }
{
    let chips = &mut row[..n.min(PLACES)];
    let answer = lent::transact_lent(chips, chip, array, sent, pulses, w, response);
    Turned { answer, row }
}

// Every chip of a row that is the first n places waits `ticks`, each on its own bytes.
pub fn wait(mut row: [Device; PLACES], n: usize, array: &mut [u8], ticks: u32) -> Passed
    ensures { Passes n row (bus_waited (take n row) array.old ticks) result.answer result.row array.new }
{
    let answer = lent::wait_lent(&mut row[..n.min(PLACES)], array, ticks);
    Passed { answer, row }
}
