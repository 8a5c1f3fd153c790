// The device record: its changes, when it is sound, and its status byte.
#![tactic(auto)]

ghost use Rattle.std.specs.Prelude.{◌≡◌};
ghost use Rattle.refusals.specs.Numbers.{number_of};
ghost use Rattle.device.specs.Device.{latch_at, moded, latched, settled, remembering, locked, running, started, ended, zero_record, delivered, ranged_of, mode_sound, sound, is_busy, is_deep, status_byte};

// The cycle that is remembered, what it does, and how long it takes.
pub mod cycle;

// The lock registers.
pub mod locks;

// The bytes that a record is packed in.
pub mod packing;

// Waiting, power-up and power loss.
pub mod time;

use cycle::Cycle;
use locks::{REGISTERS, locks_sound};
use parts::Figures;
use refusals::Refusal;

// What the chip is doing: nothing, a cycle with so many ticks left, or deep power-down.
#[derive(Clone, Copy, Debug, PartialEq, Eq)]
pub enum Mode {
    Standby,
    Busy(u32),
    Deep,
}

// A chip between two transactions. The four after the mode are how many ticks each kind of cycle takes; then the cycle that runs, and the lock register of each sector of an M25PE part, zero on the others.
// The part is a number, since a record whose part is none is refused as not sound (`sound`); the four are no struct of their own, since `delivered` and `fields_of` have these fields.
#[derive(Clone, Copy, Debug, PartialEq, Eq)]
pub struct Device {
    pub part: u8,
    pub bp: u8,
    pub srwd: bool,
    pub latch: bool,
    pub mode: Mode,
    pub program: u32,
    pub sector_erase: u32,
    pub bulk_erase: u32,
    pub write_status: u32,
    pub cycle: Cycle,
    pub locks: [u8; REGISTERS],
}

// The answer of a call that checks its record, and the record handed back.
// The answer is a number: `unpack_of` and `Handed`, of which the theorems speak, have it so.
#[derive(Clone, Copy, Debug, PartialEq, Eq)]
pub struct Checked {
    pub answer: u8,
    pub device: Device,
}

impl Checked {
    // A refused call, with the record that it hands back.
    pub(crate) fn refused(refusal: Refusal, device: Device) -> Self
        ensures { result ≡ record { answer = number_of refusal; device = device } }
    {
        Checked {
            answer: refusal.into(),
            device,
        }
    }
}

// The latch of a cycle with `t` ticks left.
fn latch_at(t: u32) -> bool
    ensures { result ≡ latch_at t }
{
    1 < t
}

// Whether a duration or a number of ticks left is 1 to 1,000,000.
pub fn ranged(x: u32) -> bool
    ensures { result ≡ ranged_of x }
{
    (1..=1_000_000).contains(&x)
}

// Whether a mode is sound with this latch, on a part that sleeps or not.
fn mode_sound(mode: Mode, latch: bool, sleeps: bool) -> bool
    ensures { result ≡ mode_sound mode latch sleeps }
{
    match mode {
        Mode::Standby => true,
        Mode::Busy(left) => ranged(left) && latch == latch_at(left),
        Mode::Deep => sleeps,
    }
}

// Whether a cycle runs.
pub fn is_busy(mode: Mode) -> bool
    ensures { result ≡ is_busy mode }
{
    matches!(mode, Mode::Busy(_))
}

// Whether it is deep power-down.
pub fn is_deep(mode: Mode) -> bool
    ensures { result ≡ is_deep mode }
{
    matches!(mode, Mode::Deep)
}

impl Device {
    // Another latch and mode.
    pub fn moded(self, latch: bool, mode: Mode) -> Self
        ensures { result ≡ moded self latch mode }
    {
        Device {
            latch,
            mode,
            ..self
        }
    }

    // Another latch.
    pub fn latched(self, on: bool) -> Self
        ensures { result ≡ latched self on }
    {
        Device { latch: on, ..self }
    }

    // Other settings.
    pub fn settled(self, srwd: bool, bp: u8) -> Self
        ensures { result ≡ settled self srwd bp }
    {
        Device { bp, srwd, ..self }
    }

    // Another remembered cycle.
    fn remembering(self, cycle: Cycle) -> Self
        ensures { result ≡ remembering self cycle }
    {
        Device { cycle, ..self }
    }

    // Other lock registers.
    pub fn locked(self, locks: [u8; REGISTERS]) -> Self
        ensures { result ≡ locked self locks }
    {
        Device { locks, ..self }
    }

    // Busy with `t` ticks left.
    fn running(self, t: u32) -> Self
        ensures { result ≡ running self t }
    {
        self.moded(latch_at(t), Mode::Busy(t))
    }

    // A cycle begins that takes `t` ticks.
    pub fn started(self, cycle: Cycle, t: u32) -> Self
        ensures { result ≡ started self cycle t }
    {
        self.remembering(cycle).running(t)
    }

    // Standby, with the latch reset and no cycle.
    fn ended(self) -> Self
        ensures { result ≡ ended self }
    {
        self.remembering(Cycle::none()).moded(false, Mode::Standby)
    }

    // The all-zero record, which is not sound.
    pub fn zero() -> Self
        ensures { result ≡ zero_record }
    {
        Device::delivered(0, 0, 0, 0, 0)
    }

    // The record as delivered.
    pub fn delivered(
        part: u8,
        program: u32,
        sector_erase: u32,
        bulk_erase: u32,
        write_status: u32,
    ) -> Self
        ensures { result ≡ delivered part program sector_erase bulk_erase write_status }
    {
        Device {
            part,
            bp: 0,
            srwd: false,
            latch: false,
            mode: Mode::Standby,
            program,
            sector_erase,
            bulk_erase,
            write_status,
            cycle: Cycle::none(),
            locks: [0; REGISTERS],
        }
    }

    // Whether the record is sound. Inlined, here and below, where a record by value would be copied for a look at it.
    #[inline(always)]
    pub fn sound(self) -> bool
        ensures { result ≡ sound self }
    {
        let figures = Figures::of(self.part);
        parts::known(self.part)
            && self.bp <= figures.highest_bp
            && ranged(self.program)
            && ranged(self.sector_erase)
            && ranged(self.bulk_erase)
            && ranged(self.write_status)
            && mode_sound(self.mode, self.latch, figures.sleeps)
            && self.cycle.sound(figures, is_busy(self.mode))
            && locks_sound(figures, self.locks)
    }

    // The status byte: bit 7 SRWD, bits 4 to 2 BP, bit 1 the latch, bit 0 set while busy.
    pub fn status(self) -> u8
        ensures { result ≡ status_byte self }
    {
        128 * u8::from(self.srwd)
            + 4 * (self.bp % 8)
            + 2 * u8::from(self.latch)
            + u8::from(is_busy(self.mode))
    }
}
