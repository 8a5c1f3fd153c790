// A day's transactions in one call: items in bytes, carried out in order.
#![tactic(auto)]

ghost use Rattle.std.specs.Prelude.{◌≡◌, ◌+◌, ◌≤◌, min, true, cond, length, IfOk};
ghost use Rattle.device.specs.Chip.{chip};
ghost use Rattle.chip.specs.Events.{Good};
ghost use Rattle.refusals.specs.Numbers.{answer_of};
ghost use Rattle.batch.specs.Items.{length_in, good_item, items_of, all_good, event_in, events_of};
ghost use Rattle.batch.specs.Batch.{room_of, room_for, batch_number, Batched};
ghost use Rattle.batch.specs.Found.{event_of, SizesAre, OneDone, carried_from, CarriedAs};

mod reading;

use chip::{Answer, Done};
use device::{Checked, Device};
use parts::Figures;
use reading::good;
pub use reading::{EachItem, Item, WAIT, size};
use refusals::Refusal;

// The bytes of the sum of the bits missing.
pub const MISSING: usize = 8;

// How many response bytes an item needs.
fn room(item: &[u8]) -> usize
    ensures { result ≡ room_of (event_in item.now) }
{
    match Item::of(item) {
        Item::Transaction { sent, .. } => sent.len(),
        Item::Wait(_) => 0,
    }
}

// What a first pass over good items finds: the response bytes they need, and how many they are.
#[derive(Clone, Copy)]
struct Sizes {
    room: usize,
    count: usize,
}

// The first pass: 9 where an item is not good.
fn measure(items: &[u8]) -> Result<Sizes, Refusal>
    ensures number { answer_of result ≡ cond (all_good (items_of items.now)) 0 9 }
    ensures sizes { IfOk result (SizesAre items.now) }
{
    let mut sizes = Sizes { room: 0, count: 0 };
    for item in EachItem::of(items) {
        if !good(item) {
            return Err(Refusal::BadItem);
        }
        sizes.room += room(item);
        sizes.count += 1;
    }
    Ok(sizes)
}

// Carries out one item, with as many response bytes as it needs.
fn carry_one(device: Device, array: &mut [u8], item: &[u8], response: &mut [u8]) -> Done
    requires { (good_item item.now ≡ true) × (length response.old ≡ room_of (event_in item.now)) × Good (chip device array.old) }
    ensures { OneDone (event_in item.now) (chip device array.old) result array.new response.new }
{
    match Item::of(item) {
        Item::Transaction { sent, pulses, w } => {
            chip::transact(device, array, sent, pulses, w, response)
        }
        Item::Wait(ticks) => {
            let rested = device.wait(array, ticks);
            let answer = Answer::bare(rested.answer);
            let device = rested.device;
            Done { answer, device }
        }
    }
}

// A record after the items, and the bits missing in them. `pins` has one in 32 bits; a generic one would have to lie in `chip`, which adds nothing up.
#[derive(Clone, Copy)]
struct Tally {
    device: Device,
    missing: u64,
}

// The second pass: carries out the items in order, and adds up the bits missing.
fn carry_all(
    device: Device,
    array: &mut [u8],
    items: &[u8],
    responses: &mut [u8],
    answers: &mut [u8],
) -> Tally
    requires { Good (chip device array.old) × (all_good (items_of items.now) ≡ true) × (room_for (events_of items.now) ≤ length responses.old) × (length (events_of items.now) ≤ length answers.old) }
    ensures { CarriedAs (carried_from (events_of items.now) (chip device array.old) 0 responses.old 0 answers.old 0) result array.new responses.new answers.new }
{
    let mut tally = Tally { device, missing: 0 };
    // `from` by hand, and the answers by the index: of what `split_at_mut` cuts off in a loop, and of a `zip` with `iter_mut`, nothing is known after it
    let mut from = 0;
    for (k, item) in EachItem::of(items).enumerate() {
        let end = from + room(item);
        let done = carry_one(tally.device, array, item, &mut responses[from..end]);
        let answer = done.answer;
        tally.device = done.device;
        tally.missing = tally.missing.wrapping_add(u64::from(answer.missing));
        answers[k] = answer.number;
        from = end;
    }
    tally
}

// Whether a batch is carried out: else 6, 2, 9 or 10. Here as in `chip`, `device` and `pins` 6 and 2 stand in the check itself, as `batch_number` has them.
#[tactic(auto, unfolding(crate::specs::Batch::batch_number))]
pub fn accepts(
    device: Device,
    array: usize,
    items: &[u8],
    responses: usize,
    answers: usize,
    missing: usize,
) -> Result<(), Refusal>
    ensures { answer_of result ≡ batch_number device array items.now responses answers missing }
{
    if !device.sound() {
        return Err(Refusal::NotSound);
    }
    if array != Figures::of(device.part).bytes {
        return Err(Refusal::ArrayLength);
    }
    let sizes = measure(items)?;
    if responses < sizes.room || answers < sizes.count || missing < MISSING {
        return Err(Refusal::BufferShort);
    }
    Ok(())
}

// The same by its number, as docs/PROMISES.md names it: 0 where the batch is carried out.
pub fn batch_number(
    device: Device,
    array: usize,
    items: &[u8],
    responses: usize,
    answers: usize,
    missing: usize,
) -> u8
    ensures { result ≡ batch_number device array items.now responses answers missing }
{
    refusals::number(accepts(device, array, items, responses, answers, missing))
}

// A batch: the items carried out in order, or nothing at all. The sum of the bits missing is set in the first bytes of `missing`.
pub fn run(
    device: Device,
    array: &mut [u8],
    items: &[u8],
    responses: &mut [u8],
    answers: &mut [u8],
    missing: &mut [u8],
) -> Checked
    ensures { Batched device array.old items.now responses.old answers.old missing.old result array.new responses.new answers.new missing.new }
{
    if let Err(refusal) = accepts(
        device,
        array.len(),
        items,
        responses.len(),
        answers.len(),
        missing.len(),
    ) {
        return Checked {
            answer: refusal.into(),
            device,
        };
    }
    let all = carry_all(device, array, items, responses, answers);
    slices::store(missing, 0, &all.missing.to_le_bytes());
    Checked {
        answer: 0,
        device: all.device,
    }
}
