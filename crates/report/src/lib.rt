// A report over the week's batches: a batch carried out, and what its transactions did added to running totals.
#![tactic(auto)]

ghost use Rattle.std.specs.Prelude.{◌≡◌, true, false, [], ◌∷◌, ◌≤◌, ◌<◌, ◌+◌, length, get_or, IfOk};
ghost use Rattle.parts.specs.Parts.{figures_of};
ghost use Rattle.device.specs.Device.{sound};
ghost use Rattle.refusals.specs.Numbers.{answer_of};
ghost use Rattle.batch.specs.Items.{good_item, items_of, all_good, event_in, events_of};
ghost use Rattle.report.specs.Totals.{totals, largest, exceeds, added};
ghost use Rattle.report.specs.Report.{report_number, Reported};
ghost use Rattle.report.specs.Found.{Spare, Raised, Grown, Seen, Counted};

use batch::{EachItem, Item};
use chip::Answer;
use device::{Checked, Device};
use refusals::Refusal;

// How many totals there are; executed transactions by first byte come first.
const TOTALS: usize = 353;

// Where the answers by number begin.
const ANSWERS: usize = 256;

// Where the driven bytes stand.
const DRIVEN: usize = 288;

// Where the executed page programs by sector begin.
const PROGRAMS: usize = 289;

// The code of a page program.
const PROGRAM: u8 = 2;

// Number `i` becomes more by `n`.
fn raise(counts: &mut [u64; TOTALS], i: usize, n: u64)
    requires { (i < length counts.old) × (get_or counts.old i 0 + n ≤ largest) }
    ensures { Raised i n counts.old counts.new }
{
    counts[i] += n;
}

// Counts one transaction.
fn count(counts: &mut [u64; TOTALS], part: u8, sent: &[u8], answer: Answer)
    requires { Spare counts.old (3 + answer.count) × (answer.number < 32) }
    ensures { Grown (figures_of part) (record { sent = sent.now; answer = answer } ∷ []) counts.old counts.new }
{
    raise(counts, ANSWERS + usize::from(answer.number), 1);
    raise(counts, DRIVEN, u64::from(answer.count));
    if answer.number == 0 {
        let code = slices::byte_at(sent, 0);
        raise(counts, usize::from(code), 1);
        if code == PROGRAM {
            raise(counts, PROGRAMS + chip::sector_in(part, sent), 1);
        }
    }
}

// One item foreseen and counted: the record that it would leave.
fn foresee_one(
    device: Device,
    array: usize,
    part: u8,
    item: &[u8],
    counts: &mut [u64; TOTALS],
) -> Device
    requires { (good_item item.now ≡ true) × (sound device ≡ true) × (array ≡ (figures_of device.part).bytes) × Spare counts.old (length item.now) }
    ensures { Seen (event_in item.now) device array part counts.old result counts.new }
{
    match Item::of(item) {
        Item::Transaction { sent, pulses, w } => {
            let done = chip::foreseen(device, array, sent, pulses, w, sent.len());
            count(counts, part, sent, done.answer);
            done.device
        }
        Item::Wait(ticks) => {
            let rested = device.wait_foreseen(array, ticks);
            rested.device
        }
    }
}

// The pass that touches nothing: what the items would give.
fn foresee_all(device: Device, array: usize, items: &[u8]) -> [u64; TOTALS]
    requires { (sound device ≡ true) × (array ≡ (figures_of device.part).bytes) × (all_good (items_of items.now) ≡ true) }
    ensures { Counted (events_of items.now) device array result }
{
    let part = device.part;
    let mut device = device;
    let mut counts: [u64; TOTALS] = [0; TOTALS];
    for item in EachItem::of(items) {
        device = foresee_one(device, array, part, item, &mut counts);
    }
    counts
}

// Whether some sum is more than 64 bits hold.
fn exceeding(counts: &[u64; TOTALS], held: &[u8]) -> bool
    ensures { result ≡ exceeds (λ i. get_or counts.now i 0) held.now }
{
    // by the place: past the end of `held` the totals are 0, as `exceeds` has it
    for (i, n) in counts.iter().enumerate() {
        if u64::MAX - slices::long_at(held, 8 * i) < *n {
            return true;
        }
    }
    false
}

// Adds to each total.
fn add_all(counts: &[u64; TOTALS], held: &mut [u8])
    requires { exceeds (λ i. get_or counts.now i 0) held.old ≡ false }
    ensures { held.new ≡ added (λ i. get_or counts.now i 0) held.old }
{
    // by the place: what `chunks_exact_mut` lends out leaves nothing known of the slice
    for (i, n) in counts.iter().enumerate() {
        let at = 8 * i;
        let sum = slices::long_at(held, at) + *n;
        slices::store(held, at, &sum.to_le_bytes());
    }
}

// What a report adds to the totals, if it is carried out: else 6, 2, 9, 10 or 71.
fn accepts(
    device: Device,
    array: &[u8],
    items: &[u8],
    responses: &[u8],
    answers: &[u8],
    held: &[u8],
) -> Result<[u64; TOTALS], Refusal>
    ensures number { answer_of result ≡ report_number device array.now items.now (length responses.now) (length answers.now) held.now }
    ensures sums { IfOk result (Counted (events_of items.now) device (length array.now)) }
{
    // fewer than 8 bytes for each total are refused as those for a batch's bits missing are
    let each = held.len() / TOTALS;
    batch::accepts(
        device,
        array.len(),
        items,
        responses.len(),
        answers.len(),
        each,
    )?;
    let counts = foresee_all(device, array.len(), items);
    if exceeding(&counts, held) {
        return Err(Refusal::TotalsFull);
    }
    Ok(counts)
}

// A report: the items carried out in order and counted, or nothing at all.
pub fn run(
    device: Device,
    array: &mut [u8],
    items: &[u8],
    responses: &mut [u8],
    answers: &mut [u8],
    totals: &mut [u8],
) -> Checked
    ensures { Reported device array.old items.now responses.old answers.old totals.old result array.new responses.new answers.new totals.new }
{
    let counts = match accepts(device, array, items, responses, answers, totals) {
        Ok(counts) => counts,
        Err(refusal) => {
            return Checked {
                answer: refusal.into(),
                device,
            };
        }
    };
    let mut missing: [u8; batch::MISSING] = [0; batch::MISSING];
    let done = batch::run(device, array, items, responses, answers, &mut missing);
    add_all(&counts, totals);
    done
}
