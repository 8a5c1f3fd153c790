// The transaction under way: its bits as numbers, the byte that is driven after them, and the bit that shows.
#![tactic(auto, unfolding(crate::specs::Pins::shifted, crate::specs::Counted::none_yet, crate::specs::Counted::shown_on))]

ghost use Rattle.std.specs.Prelude.{◌≡◌, true, cond, ◌||◌, ◌<◌, length};
ghost use Rattle.pins.specs.Pins.{shifted, takes};
ghost use Rattle.pins.specs.Counted.{pins_of, none_yet, bit_now, level, shown_on, Taken, Clocked};

use crate::levels::{Kept, Levels};
use device::Device;

// A bit that shows, with its output byte: low, high, or nothing where none does.
#[derive(Clone, Copy, Debug, PartialEq, Eq)]
pub enum Bit {
    Low = 0,
    High = 1,
    Nothing = 2,
}

// The output byte.
impl From<Bit> for u8 {
    ghost from_gives = { λ bit number. number ≡ level bit };

    fn from(bit: Bit) -> u8 {
        bit as u8
    }
}

// Whole bytes, further pulses and the register that the data is shifted into; the byte that is driven after the whole bytes, if one is; the bit that shows since the last fall of the clock.
#[derive(Clone, Copy, Debug, PartialEq, Eq)]
pub struct Underway {
    pub whole: usize,
    pub pulses: u32,
    pub register: u32,
    pub driven: Option<u8>,
    pub bit: Bit,
}

// The register with one bit more.
fn shift_in(register: u32, bit: bool) -> u32
    ensures { result ≡ shifted register bit }
{
    let up = register % 128 * 2;
    if bit { up + 1 } else { up }
}

// Bit 7 - k of a driven byte. That pulses are fewer than 8 is a clause here and below: `none_yet`, `shown_on` and `Taken` build and read the plain record.
fn bit_now(driven: Option<u8>, k: u32) -> Bit
    requires { k < 8 }
    ensures { result ≡ bit_now driven k }
{
    match driven {
        None => Bit::Nothing,
        Some(byte) if (byte >> (7 - k)) % 2 == 1 => Bit::High,
        Some(_) => Bit::Low,
    }
}

impl Underway {
    // No bit taken, nothing driven.
    pub(crate) fn none() -> Self
        ensures { result ≡ none_yet }
    {
        Underway {
            whole: 0,
            pulses: 0,
            register: 0,
            driven: None,
            bit: Bit::Nothing,
        }
    }

    // One bit more: the eighth makes a whole byte, which is stored, and asks for the next one to drive.
    fn bit_taken(self, device: Device, array: &[u8], sent: &mut [u8], bit: bool) -> Self
        requires { (self.pulses < 8) × (self.pulses ≡ 7 → self.whole < length sent.old) }
        ensures { Taken self device array.now sent.old bit result sent.new }
    {
        let register = shift_in(self.register, bit);
        if self.pulses != 7 {
            return Underway {
                pulses: self.pulses + 1,
                register,
                ..self
            };
        }
        let whole = self.whole;
        sent[whole] = register as u8;
        let n = whole + 1;
        Underway {
            whole: n,
            pulses: 0,
            register,
            driven: chip::line::driven_byte(device, array, &sent[..n]),
            ..self
        }
    }

    // The output moves on.
    fn moved_on(self) -> Self
        requires { self.pulses < 8 }
        ensures { result ≡ shown_on self }
    {
        Underway {
            bit: bit_now(self.driven, self.pulses),
            ..self
        }
    }

    // The clock, with Chip Select taken in `pins`.
    pub(crate) fn clocked(
        self,
        device: Device,
        array: &[u8],
        sent: &mut [u8],
        pins: Kept,
        levels: Levels,
    ) -> Self
        requires { (self.pulses < 8) × (takes (pins_of pins) levels ≡ true → self.pulses ≡ 7 → self.whole < length sent.old) }
        ensures { Clocked self device array.now sent.old (pins_of pins) levels result sent.new }
    {
        // first, in one test: neither takes nor moves anything then
        if pins.select | pins.holding {
            return self;
        }
        if pins.takes(levels) {
            return self.bit_taken(device, array, sent, levels.data);
        }
        if pins.moves(levels) {
            return self.moved_on();
        }
        self
    }

    // The output after a sample: the bit that shows, and none in a hold or with Chip Select high.
    pub(crate) fn output(self, pins: Kept) -> u8
        ensures { result ≡ cond (pins.select || pins.holding) 2 (level self.bit) }
    {
        if pins.select || pins.holding {
            return u8::from(Bit::Nothing);
        }
        u8::from(self.bit)
    }
}
