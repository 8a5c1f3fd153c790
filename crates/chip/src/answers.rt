// The answer numbers: the first that applies.
ghost use Rattle.std.specs.Prelude.{◌≡◌, cond, not, ◌&&◌};
ghost use Rattle.refusals.specs.Numbers.{answer_of};
ghost use Rattle.parts.specs.Parts.{figures_of};
ghost use Rattle.chip.specs.Answers.{host_number, writes_settings, in_protected, protected_at, protected_any, guarded_in, guarded, frozen, as_needed, chip_number, decided};

use crate::LONGEST;
use crate::table::{Instruction, Row, Turn};
use device::cycle::{Kind, Uses};
use device::locks::{any_stops, freezes, lock_of, sector_of, stops};
use device::{Device, is_busy, is_deep};
use parts::Figures;
use refusals::Refusal;

// What becomes of a transaction: refused by the host side, ignored by the chip, each with its number, or executed.
// By numbers: `verdict_of`, of which the theorems speak, gives them so.
#[derive(Clone, Copy, Debug, PartialEq, Eq)]
pub enum Verdict {
    Refused(u8),
    Ignored(u8),
    Executed,
}

// Whether the host side takes a transaction: the refusals in their order, 6, 2, 3, 4, 5. Lengths and pulses each by itself, here and below, as `host_number` and `chip_number` have them.
// Inlined, as `chip_accepts`: the record by value would be copied for each of the two.
#[tactic(auto, unfolding(crate::specs::Answers::host_number))]
#[inline(always)]
pub fn host_accepts(
    device: Device,
    array: usize,
    n: usize,
    pulses: u32,
    response: usize,
) -> Result<(), Refusal>
    ensures { answer_of result ≡ host_number device array n pulses response }
{
    if !device.sound() {
        return Err(Refusal::NotSound);
    }
    if array != Figures::of(device.part).bytes {
        return Err(Refusal::ArrayLength);
    }
    if LONGEST < n {
        return Err(Refusal::TooManyBytes);
    }
    if 7 < pulses {
        return Err(Refusal::TooManyPulses);
    }
    if response < n {
        return Err(Refusal::ResponseShort);
    }
    Ok(())
}

// The same by its number, as docs/PROMISES.md names it: 0 where the host side takes the transaction.
pub fn host_number(device: Device, array: usize, n: usize, pulses: u32, response: usize) -> u8
    ensures { result ≡ host_number device array n pulses response }
{
    refusals::number(host_accepts(device, array, n, pulses, response))
}

// Whether the sector of an address is among the protected ones.
#[tactic(auto, unfolding(crate::specs::Answers::in_protected))]
fn in_protected(figures: Figures, bp: u8, at: u32) -> bool
    ensures { result ≡ in_protected figures bp at }
{
    let few = parts::protected(figures.sectors, bp);
    figures.sectors.saturating_sub(few) <= sector_of(figures, at)
}

// Whether the sector of an address is protected, by BP or by its lock register.
#[tactic(auto, unfolding(crate::specs::Answers::protected_at))]
fn protected_at(device: Device, at: u32) -> bool
    ensures { result ≡ protected_at (figures_of device.part) device at }
{
    let figures = Figures::of(device.part);
    in_protected(figures, device.bp, at) || stops(lock_of(figures, device.locks, at))
}

// Whether any sector is: BP above 0, or a write lock set.
#[tactic(auto, unfolding(crate::specs::Answers::protected_any))]
fn protected_any(device: Device) -> bool
    ensures { result ≡ protected_any device }
{
    0 < device.bp || any_stops(device.locks)
}

// What guards a cycle: the protected sector that it would write in; of a bulk erase any.
fn is_guarded(kind: Kind, device: Device, at: u32) -> bool
    ensures { result ≡ guarded_in kind (figures_of device.part) device at }
{
    match kind {
        Kind::Idle | Kind::Settings => false,
        Kind::All => protected_any(device),
        Kind::Page | Kind::Sector | Kind::PageWrite | Kind::PageErase | Kind::Subsector => {
            protected_at(device, at)
        }
    }
}

// Whether nothing guards an instruction: 17 where its cycle is guarded, 18 and 19 where the settings or the lock register are frozen.
fn guard_accepts(turn: Turn, device: Device, w: bool, at: u32) -> Result<(), Refusal>
    ensures { answer_of result ≡ cond (guarded turn (figures_of device.part) device at) 17 (cond (writes_settings turn && device.srwd && not w) 18 (cond (frozen turn (figures_of device.part) device at) 19 0)) }
{
    match turn {
        Turn::Start(kind) => {
            if is_guarded(kind, device, at) {
                return Err(Refusal::Protected);
            }
            let uses = Uses::of(kind);
            if uses.settings && device.srwd && !w {
                return Err(Refusal::SettingsFrozen);
            }
            Ok(())
        }
        Turn::Lock => {
            if freezes(lock_of(Figures::of(device.part), device.locks, at)) {
                return Err(Refusal::LockFrozen);
            }
            Ok(())
        }
        _ => Ok(()),
    }
}

impl Row {
    // Whether n and the further pulses are as needed.
    #[tactic(auto, unfolding(crate::specs::Answers::as_needed))]
    fn as_needed(self, n: usize, pulses: u32) -> bool
        ensures { result ≡ as_needed self n pulses }
    {
        self.least <= n && n <= self.most && (!self.no_pulses || pulses == 0)
    }
}

// Whether the chip takes an instruction: what it ignores in its order, 11, 14, 12, 13, 15, 16, 17, 18, 19.
#[tactic(auto, unfolding(crate::specs::Answers::chip_number))]
#[inline(always)]
fn chip_accepts(
    device: Device,
    row: Row,
    n: usize,
    pulses: u32,
    w: bool,
    at: u32,
) -> Result<(), Refusal>
    ensures { answer_of result ≡ chip_number device row n pulses w at }
{
    if n == 0 {
        return Err(Refusal::NoBytes);
    }
    if !row.known {
        return Err(Refusal::UnknownCode);
    }
    if is_busy(device.mode) && !row.busy {
        return Err(Refusal::WhileBusy);
    }
    if is_deep(device.mode) && !row.deep {
        return Err(Refusal::WhileDeep);
    }
    if !row.as_needed(n, pulses) {
        return Err(Refusal::OddLength);
    }
    if row.latch && !device.latch {
        return Err(Refusal::LatchReset);
    }
    guard_accepts(row.turn, device, w, at)
}

// What becomes of a transaction of n bytes with an array and a response of these lengths.
#[tactic(auto, using(refusals::proofs::Laws::refusal_some), unfolding(crate::specs::Answers::decided))]
pub(crate) fn judge(
    device: Device,
    asked: Instruction,
    array: usize,
    n: usize,
    pulses: u32,
    w: bool,
    response: usize,
) -> Verdict
    ensures { result ≡ decided (host_number device array n pulses response) (chip_number device asked.row n pulses w asked.address) }
{
    if let Err(refusal) = host_accepts(device, array, n, pulses, response) {
        return Verdict::Refused(refusal.into());
    }
    if let Err(refusal) = chip_accepts(device, asked.row, n, pulses, w, asked.address) {
        return Verdict::Ignored(refusal.into());
    }
    Verdict::Executed
}
