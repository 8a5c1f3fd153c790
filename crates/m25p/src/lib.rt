// What the C calls do: delivery, transaction, wait, power-up, power loss, raw pins, a batch and a report over the packed bytes of a record; images; and a bus over the packed bytes of a row of records.
#![tactic(auto)]

ghost use Rattle.std.specs.Prelude.{◌≡◌, ◌≤◌, ◌<◌};
ghost use Rattle.memory.specs.Missing.{most_missing};
ghost use Rattle.slices.specs.Chosen.{on_zero};
ghost use Rattle.slices.specs.Changed.{map_at, stored};
ghost use Rattle.device.specs.Packing.{pack_of};
ghost use Rattle.device.specs.Chip.{Chip};
ghost use Rattle.device.specs.Time.{Timed, wait_call, power_up_call, loss_call};
ghost use Rattle.m25p.specs.Calls.{packed_answer, transacted_c, Called, high, Does, Keeps, timed_c, CalledOn, DeliveredC};
ghost use Rattle.m25p.specs.Pins.{RanC};
ghost use Rattle.m25p.specs.Batch.{BatchedC};
ghost use Rattle.m25p.specs.Report.{ReportedC};
ghost use Rattle.m25p.specs.Image.{with_blocks, WrittenC, ReadC, SalvagedC};
ghost use Rattle.m25p.specs.Bus.{bused_c, BusedC, bus_waited_c, BusWaitedC};
ghost use Rattle.chip.specs.Outcome;

// Rows of packed records.
mod rows;

use chip::{Answer, Done};
use device::packing::{LENGTH, unpack};
use device::{Checked, Device};
use image::Reply;
use refusals::Refusal;

// The four numbers of an answer in 64 bits.
fn packed_answer(answer: Answer) -> u64
    requires { answer.missing ≤ most_missing }
    ensures { result ≡ packed_answer answer }
{
    let seen = u64::from(answer.number)
        + 256 * u64::from(answer.first)
        + 65536 * u64::from(answer.count);
    seen + 281_474_976_710_656 * u64::from(answer.missing)
}

// An answer with nothing driven and no bits missing.
fn bare(number: u8) -> u64
    ensures { result ≡ packed_answer (Outcome.bare number) }
{
    packed_answer(Answer::bare(number))
}

// The next record is written over the packed bytes where the answer is 0.
fn store(number: u8, next: Device, packed: &mut [u8])
    ensures { packed.new ≡ on_zero number (map_at (stored 0 (pack_of next)) packed.old) packed.old }
{
    if number == 0 {
        device::packing::write(next, packed);
    }
}

// A call that answers a number alone: its record stored, its answer packed.
fn checked(done: Checked, packed: &mut [u8]) -> u64
    ensures bytes { packed.new ≡ on_zero done.answer (map_at (stored 0 (pack_of done.device)) packed.old) packed.old }
    ensures number { result ≡ packed_answer (Outcome.bare done.answer) }
{
    store(done.answer, done.device, packed);
    bare(done.answer)
}

// A call that answers as a transaction does: its record stored, its answer packed.
fn carried(done: Done, packed: &mut [u8]) -> u64
    requires { done.answer.missing ≤ most_missing }
    ensures bytes { packed.new ≡ on_zero done.answer.number (map_at (stored 0 (pack_of done.device)) packed.old) packed.old }
    ensures number { result ≡ packed_answer done.answer }
{
    store(done.answer.number, done.device, packed);
    packed_answer(done.answer)
}

// Delivers a part: the packed record is written and the array becomes FF.
pub fn m25p_deliver(
    packed: &mut [u8],
    part: u32,
    array: &mut [u8],
    program: u32,
    sector_erase: u32,
    bulk_erase: u32,
    write_status: u32,
) -> u64
    ensures { DeliveredC packed.old part array.old program sector_erase bulk_erase write_status result packed.new array.new }
{
    if packed.len() != LENGTH {
        return bare(Refusal::PackedLength.into());
    }
    let done = chip::deliver(part, array, program, sector_erase, bulk_erase, write_status);
    checked(done, packed)
}

// One transaction: W is low for 0, else high.
// Each call on one record begins so, and not by a `Result` of the record, which would be copied on the way; those that are lent the array alone are one function, `timed`, and a closure that is lent one to three buffers more would be no plainer.
pub fn m25p_transact(
    packed: &mut [u8],
    array: &mut [u8],
    sent: &[u8],
    pulses: u32,
    w: u32,
    response: &mut [u8],
) -> u64
    ensures { Called (transacted_c packed.old array.old sent.now pulses w response.old) packed.old result packed.new array.new response.new }
{
    let came = unpack(packed);
    if came.answer != 0 {
        return bare(came.answer);
    }
    carried(
        chip::transact(came.device, array, sent, pulses, w != 0, response),
        packed,
    )
}

// A call on the record and the array: refused where the packed bytes are of no sound record, and the next record is stored where it answers 0.
fn timed<F: FnOnce(Device, &mut [u8]) -> Checked>(
    packed: &mut [u8],
    array: &mut [u8],
    call: F,
) -> u64
    requires { F.IsAlwaysCallable call }
    ensures { (meant : Chip → Timed) → Does F.FnOnce call meant → Keeps meant → CalledOn (timed_c meant packed.old array.old) packed.old result packed.new array.new }
{
    let came = unpack(packed);
    if came.answer != 0 {
        return bare(came.answer);
    }
    checked(call(came.device, array), packed)
}

// Waits `ticks`: on the last tick of a cycle its effect comes.
pub fn m25p_wait(packed: &mut [u8], array: &mut [u8], ticks: u32) -> u64
    ensures { CalledOn (timed_c (λ c. wait_call c ticks) packed.old array.old) packed.old result packed.new array.new }
{
    timed(packed, array, |device, array| device.wait(array, ticks))
}

// Powers up: a cycle is completed.
pub fn m25p_power_up(packed: &mut [u8], array: &mut [u8]) -> u64
    ensures { CalledOn (timed_c power_up_call packed.old array.old) packed.old result packed.new array.new }
{
    timed(packed, array, |device, array| device.power_up(array))
}

// Power is lost and comes back: a cycle is cut as the mask says; a settings write is complete on yes, which is any number but 0.
pub fn m25p_loss(packed: &mut [u8], array: &mut [u8], mask: &[u8], yes: u32) -> u64
    ensures { CalledOn (timed_c (λ c. loss_call c mask.now (high yes)) packed.old array.old) packed.old result packed.new array.new }
{
    timed(
        packed,
        array,
        |device, array| device.loss(array, mask, yes != 0),
    )
}

// A run over samples of the pins: the transactions carried out in order, the bits missing in them, and one output byte for each sample.
pub fn m25p_pins(packed: &mut [u8], array: &mut [u8], samples: &[u8], output: &mut [u8]) -> u64
    ensures { RanC packed.old array.old samples.now output.old result packed.new array.new output.new }
{
    let came = unpack(packed);
    if came.answer != 0 {
        return bare(came.answer);
    }
    carried(pins::run(came.device, array, samples, output), packed)
}

// A batch: its items carried out in order, or nothing at all.
pub fn m25p_batch(
    packed: &mut [u8],
    array: &mut [u8],
    items: &[u8],
    responses: &mut [u8],
    answers: &mut [u8],
    missing: &mut [u8],
) -> u64
    ensures { BatchedC packed.old array.old items.now responses.old answers.old missing.old result packed.new array.new responses.new answers.new missing.new }
{
    let came = unpack(packed);
    if came.answer != 0 {
        return bare(came.answer);
    }
    checked(
        batch::run(came.device, array, items, responses, answers, missing),
        packed,
    )
}

// A report: a batch carried out and counted, or nothing at all.
pub fn m25p_report(
    packed: &mut [u8],
    array: &mut [u8],
    items: &[u8],
    responses: &mut [u8],
    answers: &mut [u8],
    totals: &mut [u8],
) -> u64
    ensures { ReportedC packed.old array.old items.now responses.old answers.old totals.old result packed.new array.new responses.new answers.new totals.new }
{
    let came = unpack(packed);
    if came.answer != 0 {
        return bare(came.answer);
    }
    checked(
        report::run(came.device, array, items, responses, answers, totals),
        packed,
    )
}

// An answer with a number of blocks where a transaction has its driven count.
fn blocks_answer(reply: Reply) -> u64
    requires { reply.blocks < 4294967296 }
    ensures { result ≡ packed_answer (with_blocks reply) }
{
    packed_answer(Answer {
        count: reply.blocks as u32,
        ..Answer::bare(reply.answer)
    })
}

// Writes the image of an array.
pub fn m25p_image_write(part: u32, array: &[u8], image: &mut [u8]) -> u64
    ensures { WrittenC part array.now image.old result image.new }
{
    bare(image::write(part, array, image))
}

// Reads the array of an image whose blocks are all good.
pub fn m25p_image_read(part: u32, image: &[u8], array: &mut [u8]) -> u64
    ensures { ReadC part image.now array.old result array.new }
{
    blocks_answer(image::read(part, image, array))
}

// Salvages an image, and lists the blocks that were bad.
pub fn m25p_image_salvage(part: u32, image: &mut [u8], list: &mut [u8]) -> u64
    ensures { SalvagedC part image.old list.old result image.new list.new }
{
    blocks_answer(image::salvage(part, image, list))
}

// One transaction with one chip of a row: its packed record is written anew, and the others' stay.
pub fn m25p_bus_transact(
    row: &mut [u8],
    array: &mut [u8],
    chip: u32,
    sent: &[u8],
    pulses: u32,
    w: u32,
    response: &mut [u8],
) -> u64
    ensures { BusedC (bused_c row.old array.old chip sent.now pulses w response.old) row.old result row.new array.new response.new }
{
    let n = row.len() / LENGTH;
    if row.len() % LENGTH != 0 {
        return bare(Refusal::PackedLength.into());
    }
    let at = chip as usize;
    let records = rows::read(row);
    let done = bus::transact(records, n, at, array, sent, pulses, w != 0, response);
    let answer = done.answer;
    if answer.number != 0 {
        return packed_answer(answer);
    }
    rows::write(&done.row[at..at + 1], at, row);
    packed_answer(answer)
}

// Every chip of a row waits `ticks`, each on its own bytes. It begins as the call above: for these lines a function of both would be no plainer.
pub fn m25p_bus_wait(row: &mut [u8], array: &mut [u8], ticks: u32) -> u64
    ensures { BusWaitedC (bus_waited_c row.old array.old ticks) row.old result row.new array.new }
{
    let n = row.len() / LENGTH;
    if row.len() % LENGTH != 0 {
        return bare(Refusal::PackedLength.into());
    }
    let records = rows::read(row);
    let done = bus::wait(records, n, array, ticks);
    if done.answer != 0 {
        return bare(done.answer);
    }
    rows::write(&done.row[..n], 0, row);
    bare(0)
}
