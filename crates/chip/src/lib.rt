// The chip: a transaction on a record, a lent array and a lent response; delivery; and the entry that takes the record lent.
#![tactic(auto)]

ghost use Rattle.std.specs.Prelude.{◌≡◌, ◌≤◌, length, IfOk};
ghost use Rattle.parts.specs.Parts.{figures_of};
ghost use Rattle.refusals.specs.Numbers.{answer_of};
ghost use Rattle.chip.specs.Table.{longest, sector_in, instruction_in};
ghost use Rattle.chip.specs.Answers.{delivery_answer};
ghost use Rattle.chip.specs.Outcome.{bare, executed_with, outcome_of, Meets, Transacted, Foreseen, Delivered};
ghost use Rattle.chip.specs.declared.answers.Verdict.TheVariants.{Executed};

pub mod answers;
mod change;
pub mod lent;
pub mod line;
mod table;

use answers::Verdict;
use device::{Checked, Device, ranged};
use line::Span;
use parts::Figures;
use refusals::Refusal;
use table::Instruction;

// The most bytes that a transaction has.
pub const LONGEST: usize = 65_536;

// An answer: its number, the first driven position and the driven count; and the bits that a program wanted 1 and the array had 0.
// The number as it is: `outcome_of`, of which the theorems speak, gives it so.
#[derive(Clone, Copy, Debug, PartialEq, Eq)]
pub struct Answer {
    pub number: u8,
    pub first: u32,
    pub count: u32,
    pub missing: u32,
}

// A transaction's answer, and the next record.
#[derive(Clone, Copy, Debug, PartialEq, Eq)]
pub struct Done {
    pub answer: Answer,
    pub device: Device,
}

impl Answer {
    // An answer with nothing driven and no bits missing.
    pub fn bare(number: u8) -> Self
        ensures { result ≡ bare number }
    {
        Answer {
            number,
            first: 0,
            count: 0,
            missing: 0,
        }
    }
}

impl Done {
    // A call that does nothing to the record: the number alone.
    fn bare(number: u8, device: Device) -> Self
        ensures { result ≡ record { answer = bare number; device = device } }
    {
        Done {
            answer: Answer::bare(number),
            device,
        }
    }
}

// An executed transaction's answer and next record.
fn executed(device: Device, asked: Instruction, span: Span, missing: u32, sent: &[u8]) -> Done
    requires { (span.first ≤ longest) × (span.count ≤ longest) }
    ensures { result ≡ executed_with device asked span missing sent.now }
{
    let answer = Answer {
        first: span.first as u32,
        count: span.count as u32,
        missing,
        ..Answer::bare(0)
    };
    Done {
        answer,
        device: change::next_record(device, asked, sent),
    }
}

// Executes a transaction: the line, the bits missing, the record. The array is read only: a cycle that is started changes it at its end.
#[tactic(auto, using(crate::proofs::Laws::span_bounds), unfolding(crate::specs::Outcome::outcome_of))]
fn execute(
    device: Device,
    asked: Instruction,
    array: &[u8],
    sent: &[u8],
    response: &mut [u8],
) -> Done
    requires asked { asked ≡ instruction_in device sent.now }
    requires short { length sent.now ≤ longest }
    ensures { Meets (outcome_of Executed device array.now sent.now response.old) result.answer result.device array.now response.new }
{
    let span = line::respond(device, asked, array, sent, response);
    let missing = change::missing_of(asked, sent, array);
    executed(device, asked, span, missing, sent)
}

// One transaction: the bytes sent, the further pulses, and the level of W as Chip Select rises. No transaction changes a byte of the array: a cycle does, at its end.
// The bytes, the pulses and W each by itself, here and below: `Transacted`, `Foreseen`, `bused` and `Jobbed` take them so, and C hands them so.
#[tactic(auto, using(crate::proofs::Laws::executed_short), unfolding(crate::specs::Outcome::transacted, crate::specs::Outcome::outcome_of, crate::specs::Answers::verdict_of))]
pub fn transact(
    device: Device,
    array: &mut [u8],
    sent: &[u8],
    pulses: u32,
    w: bool,
    response: &mut [u8],
) -> Done
    ensures { Transacted device array.old sent.now pulses w response.old result.answer result.device array.new response.new }
{
    let asked = Instruction::read(device, sent);
    let (size, n, room) = (array.len(), sent.len(), response.len());
    match answers::judge(device, asked, size, n, pulses, w, room) {
        Verdict::Refused(number) => Done::bare(number, device),
        Verdict::Ignored(number) => {
            slices::fill_part(response, 0, n, 0xFF);
            Done::bare(number, device)
        }
        Verdict::Executed => execute(device, asked, array, sent, response),
    }
}

// What a transaction would answer on an array and a response of these lengths, and the record that it would leave. Nothing is touched. Bits missing are not foreseen: the array alone tells them, and the answer has 0.
#[tactic(auto, using(crate::proofs::Laws::executed_short), unfolding(crate::specs::Outcome::transacted, crate::specs::Outcome::outcome_of, crate::specs::Answers::verdict_of))]
pub fn foreseen(
    device: Device,
    array: usize,
    sent: &[u8],
    pulses: u32,
    w: bool,
    response: usize,
) -> Done
    ensures { Foreseen device array sent.now pulses w response result.answer result.device }
{
    let asked = Instruction::read(device, sent);
    let n = sent.len();
    match answers::judge(device, asked, array, n, pulses, w, response) {
        Verdict::Refused(number) | Verdict::Ignored(number) => Done::bare(number, device),
        Verdict::Executed => {
            let span = line::span_driven(device, asked, n);
            executed(device, asked, span, 0, sent)
        }
    }
}

// The sector that a transaction addresses on a part.
#[tactic(auto, unfolding(crate::specs::Table::sector_in))]
pub fn sector_in(part: u8, sent: &[u8]) -> usize
    ensures { result ≡ sector_in (figures_of part) sent.now }
{
    let figures = Figures::of(part);
    device::locks::sector_of(figures, table::address(figures, sent))
}

// Whether a part is delivered so, with its number as a byte: the refusals in their order, 1, 2, 7.
#[tactic(auto, unfolding(crate::specs::Answers::delivery_answer))]
fn delivery_accepts(
    part: u32,
    array: usize,
    program: u32,
    sector_erase: u32,
    bulk_erase: u32,
    write_status: u32,
) -> Result<u8, Refusal>
    ensures number { answer_of result ≡ delivery_answer part array program sector_erase bulk_erase write_status }
    ensures same { IfOk result (λ small. small ≡ part) }
{
    let small = u8::try_from(part).map_err(|_| Refusal::UnknownPart)?;
    if !parts::known(small) {
        return Err(Refusal::UnknownPart);
    }
    if array != Figures::of(small).bytes {
        return Err(Refusal::ArrayLength);
    }
    if !(ranged(program) && ranged(sector_erase) && ranged(bulk_erase) && ranged(write_status)) {
        return Err(Refusal::OddDuration);
    }
    Ok(small)
}

// Delivers a part with the given durations: the array becomes FF. The four each by itself: `Delivered` takes them so, and C hands them so.
pub fn deliver(
    part: u32,
    array: &mut [u8],
    program: u32,
    sector_erase: u32,
    bulk_erase: u32,
    write_status: u32,
) -> Checked
    ensures { Delivered part array.old program sector_erase bulk_erase write_status result array.new }
{
    let n = array.len();
    match delivery_accepts(part, n, program, sector_erase, bulk_erase, write_status) {
        Err(refusal) => Checked {
            answer: refusal.into(),
            device: Device::zero(),
        },
        Ok(small) => {
            memory::erase_all(array);
            Checked {
                answer: 0,
                device: Device::delivered(small, program, sector_erase, bulk_erase, write_status),
            }
        }
    }
}
