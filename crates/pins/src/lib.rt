// Raw pins: the transactions in a probe's samples carried out in order, and one output byte for each sample.
#![tactic(auto)]

ghost use Rattle.std.specs.Prelude.{◌≡◌, false, ◌≤◌, ◌<◌, length, take};
ghost use Rattle.refusals.specs.Numbers.{answer_of};
ghost use Rattle.chip.specs.Table.{longest};
ghost use Rattle.pins.specs.Pins.{odd_samples, too_long};
ghost use Rattle.pins.specs.Run.{run_answer, Ran};
ghost use Rattle.chip.specs.Outcome.{transacted};
ghost use Rattle.chip.specs.Events.{left};
ghost use Rattle.pins.specs.Counted.{pins_of, next_count, CarriedOut, CarriedAll};

mod levels;
mod underway;

use chip::{Answer, Done};
use device::Device;
use levels::{Kept, Levels};
use parts::Figures;
use refusals::Refusal;
use underway::Underway;

// Before the first sample Chip Select, W and Hold are high, the others low.
const REST: u8 = 25;

// The bits of 65,537 whole bytes.
const LONG: usize = 524_296;

// Whether some sample has one of the bits 5 to 7 set.
fn odd_samples(samples: &[u8]) -> bool
    ensures { result ≡ odd_samples samples.now }
{
    let mut odd = false;
    for sample in samples {
        odd = odd | (32 <= *sample);
    }
    odd
}

// The bits of the transaction under way, after a sample; `pins` are those before it.
#[tactic(auto, unfolding(crate::specs::Counted::next_count))]
fn next_count(count: usize, pins: Kept, levels: Levels) -> usize
    requires { count < 18446744073709551615 }
    ensures { result ≡ next_count count (pins_of pins) levels }
{
    let count = if pins.changes(levels) { 0 } else { count };
    if pins.on_select(levels).takes(levels) {
        return count + 1;
    }
    count
}

// Whether some transaction, thrown away and unfinished ones too, is above 65,536 bytes.
fn too_long(samples: &[u8]) -> bool
    ensures { result ≡ too_long samples.now }
{
    let mut before = REST;
    let mut holding = false;
    let mut count = 0;
    let mut long = false;
    for sample in samples {
        let pins = Kept::after(before, holding);
        let levels = Levels::of(*sample);
        count = next_count(count, pins, levels);
        long = long | (LONG <= count);
        let next = pins.on_select(levels).on_hold(levels);
        holding = next.holding;
        before = *sample;
    }
    long
}

// Whether a run is carried out: else 6, 2, 21, 22 or 23.
#[tactic(auto, unfolding(crate::specs::Run::run_answer))]
fn accepts(device: Device, array: usize, samples: &[u8], output: usize) -> Result<(), Refusal>
    ensures { answer_of result ≡ run_answer device array samples.now output }
{
    if !device.sound() {
        return Err(Refusal::NotSound);
    }
    if array != Figures::of(device.part).bytes {
        return Err(Refusal::ArrayLength);
    }
    if odd_samples(samples) {
        return Err(Refusal::OddSample);
    }
    if too_long(samples) {
        return Err(Refusal::RunTooLong);
    }
    if output < samples.len() {
        return Err(Refusal::OutputShort);
    }
    Ok(())
}

// A record after transactions, and the bits missing in them.
#[derive(Clone, Copy)]
struct Tally {
    device: Device,
    missing: u32,
}

// Carries out the transaction under way, which ends with this sample.
fn carry_out(
    device: Device,
    array: &mut [u8],
    levels: Levels,
    under: Underway,
    sent: &[u8],
    response: &mut [u8],
) -> Tally
    requires { under.whole ≤ length sent.now }
    ensures { CarriedOut (left (transacted device array.old (take under.whole sent.now) under.pulses levels.w response.old)) (transacted device array.old (take under.whole sent.now) under.pulses levels.w response.old).answer.missing result array.new }
{
    let n = under.whole;
    let done = chip::transact(device, array, &sent[..n], under.pulses, levels.w, response);
    let answer = done.answer;
    let device = done.device;
    Tally {
        device,
        missing: answer.missing,
    }
}

// Carries out the transactions in order, adds up the bits missing, and writes the output. Never inlined: amid what its caller holds, the loop would have too few registers.
#[inline(never)]
fn carry_all(
    device: Device,
    array: &mut [u8],
    samples: &[u8],
    output: &mut [u8],
    sent: &mut [u8],
    response: &mut [u8],
) -> Tally
    requires { (too_long samples.now ≡ false) × (length samples.now ≤ length output.old) × (longest ≤ length sent.old) × (longest ≤ length response.old) }
    ensures { CarriedAll device array.old samples.now output.old result array.new output.new }
{
    let mut device = device;
    let mut missing = 0;
    // the sample before and not the pins: one byte from sample to sample, as in `too_long`
    let mut before = REST;
    let mut holding = false;
    let mut under = Underway::none();
    // the output by the index: a `zip` with `output.iter_mut()` leaves nothing known of it
    for (i, sample) in samples.iter().enumerate() {
        let mut pins = Kept::after(before, holding);
        let levels = Levels::of(*sample);
        if pins.changes(levels) {
            // here and not in `carry_out`: else the record is copied where nothing ends
            if pins.ends(levels) {
                let done = carry_out(device, array, levels, under, sent, response);
                device = done.device;
                missing += done.missing;
            }
            under = Underway::none();
            pins = pins.on_select(levels);
        }
        // no change to it: so that the compiler reads it from this sample alone
        pins.select = levels.select;
        under = under.clocked(device, array, sent, pins, levels);
        pins = pins.on_hold(levels);
        output[i] = under.output(pins);
        holding = pins.holding;
        before = *sample;
    }
    Tally { device, missing }
}

// A run over samples: the transactions carried out in order, the bits missing in them, and one output byte for each sample.
pub fn run(device: Device, array: &mut [u8], samples: &[u8], output: &mut [u8]) -> Done
    ensures { Ran device array.old samples.now output.old result array.new output.new }
{
    if let Err(refusal) = accepts(device, array.len(), samples, output.len()) {
        let answer = Answer::bare(refusal.into());
        return Done { answer, device };
    }
    let mut sent = [0u8; chip::LONGEST];
    let mut response = [0u8; chip::LONGEST];
    let all = carry_all(device, array, samples, output, &mut sent, &mut response);
    let answer = Answer {
        missing: all.missing,
        ..Answer::bare(0)
    };
    let device = all.device;
    Done { answer, device }
}
