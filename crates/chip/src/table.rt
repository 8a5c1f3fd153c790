// The instruction table: a row for each code, and the address in a transaction.
ghost use Rattle.std.specs.Prelude.{◌≡◌};
ghost use Rattle.chip.specs.Table.{order, reading, write, unknown, also_busy, also_deep, only_if, release, row_of, address_of, instruction_in};

use crate::LONGEST;
use device::Device;
use device::cycle::Kind;
use parts::Figures;

// What an instruction does: keep the record, set or reset the latch, start a cycle, go to deep power-down, leave it, write a lock register.
#[derive(Clone, Copy, Debug, PartialEq, Eq)]
pub enum Turn {
    Keep,
    Enable,
    Disable,
    Start(Kind),
    Sleep,
    Wake,
    Lock,
}

// What an instruction drives.
#[derive(Clone, Copy, Debug, PartialEq, Eq)]
pub enum Drive {
    Nothing,
    Identification,
    Status,
    Array,
    Signature,
    Register,
}

// A row: what is needed (n from least to most, no further pulses, the latch), whether it is taken while busy and in deep power-down, what it does, what it drives from which byte on.
// `known` and not an `Option` of a row: `row_of`, of which the theorems speak, has a row for every code.
#[derive(Clone, Copy, Debug, PartialEq, Eq)]
pub struct Row {
    pub known: bool,
    pub least: usize,
    pub most: usize,
    pub no_pulses: bool,
    pub latch: bool,
    pub busy: bool,
    pub deep: bool,
    pub turn: Turn,
    pub drive: Drive,
    pub from: usize,
}

impl Row {
    // Not an instruction of the part; what the rows below begin with.
    fn unknown() -> Self
        ensures { result ≡ unknown }
    {
        Row {
            known: false,
            least: 1,
            most: LONGEST,
            no_pulses: false,
            latch: false,
            busy: false,
            deep: false,
            turn: Turn::Keep,
            drive: Drive::Nothing,
            from: 1,
        }
    }

    // n = 1, no further pulses.
    fn order(turn: Turn) -> Self
        ensures { result ≡ order turn }
    {
        Row {
            known: true,
            most: 1,
            no_pulses: true,
            turn,
            ..Row::unknown()
        }
    }

    // n from `least` on, further pulses allowed, driven from byte `from` on.
    fn reading(least: usize, drive: Drive, from: usize, turn: Turn) -> Self
        ensures { result ≡ reading least drive from turn }
    {
        Row {
            known: true,
            least,
            turn,
            drive,
            from,
            ..Row::unknown()
        }
    }

    // n from `least` to `most`, no further pulses, the latch.
    fn write(least: usize, most: usize, turn: Turn) -> Self
        ensures { result ≡ write least most turn }
    {
        Row {
            known: true,
            least,
            most,
            no_pulses: true,
            latch: true,
            turn,
            ..Row::unknown()
        }
    }

    // The row, taken while busy too.
    fn also_busy(self) -> Self
        ensures { result ≡ also_busy self }
    {
        Row { busy: true, ..self }
    }

    // The row, taken in deep power-down too.
    fn also_deep(self) -> Self
        ensures { result ≡ also_deep self }
    {
        Row { deep: true, ..self }
    }

    // The row where a test holds, else as for an unknown code.
    pub(crate) fn only_if(self, test: bool) -> Self
        ensures { result ≡ only_if test self }
    {
        if test { self } else { Row::unknown() }
    }
}

// The row of AB.
fn release(figures: Figures) -> Row
    ensures { result ≡ release figures }
{
    if figures.pe {
        Row::order(Turn::Wake).also_deep()
    } else {
        Row::reading(1, Drive::Signature, 4, Turn::Wake).also_deep()
    }
}

// The row of a code.
#[tactic(auto, unfolding(crate::specs::Table::row_of))]
fn decode(figures: Figures, code: u8) -> Row
    ensures { result ≡ row_of figures code }
{
    match code {
        0x06 => Row::order(Turn::Enable),
        0x04 => Row::order(Turn::Disable),
        0x9F => Row::reading(1, Drive::Identification, 1, Turn::Keep).only_if(figures.identifies),
        0x05 => Row::reading(1, Drive::Status, 1, Turn::Keep).also_busy(),
        0x01 => Row::write(2, 2, Turn::Start(Kind::Settings)),
        0x03 => Row::reading(4, Drive::Array, 4, Turn::Keep),
        0x0B => Row::reading(5, Drive::Array, 5, Turn::Keep),
        0x02 => Row::write(5, LONGEST, Turn::Start(Kind::Page)),
        0xD8 => Row::write(4, 4, Turn::Start(Kind::Sector)),
        0xC7 => Row::write(1, 1, Turn::Start(Kind::All)),
        0xB9 => Row::order(Turn::Sleep).only_if(figures.sleeps),
        0xAB => release(figures).only_if(figures.sleeps),
        0x0A => Row::write(5, LONGEST, Turn::Start(Kind::PageWrite)).only_if(figures.pe),
        0xDB => Row::write(4, 4, Turn::Start(Kind::PageErase)).only_if(figures.pe),
        0x20 => Row::write(4, 4, Turn::Start(Kind::Subsector)).only_if(figures.pe),
        0xE5 => Row::write(5, 5, Turn::Lock).only_if(figures.pe),
        0xE8 => Row::reading(4, Drive::Register, 4, Turn::Keep).only_if(figures.pe),
        _ => Row::unknown(),
    }
}

// The address in a transaction, within the part: 24 bits, high byte first.
#[tactic(auto, unfolding(crate::specs::Table::address_of))]
pub(crate) fn address(figures: Figures, sent: &[u8]) -> u32
    ensures { result ≡ address_of figures sent.now }
{
    let high = slices::byte_at(sent, 1);
    let middle = slices::byte_at(sent, 2);
    let low = slices::byte_at(sent, 3);
    let at = u32::from_be_bytes([0, high, middle, low]);
    slices::rest(at as usize, figures.bytes) as u32
}

// The instruction of a transaction: the part's figures, the row of its first byte, its address.
#[derive(Clone, Copy, Debug, PartialEq, Eq)]
pub struct Instruction {
    pub figures: Figures,
    pub row: Row,
    pub address: u32,
}

impl Instruction {
    // The instruction that is sent.
    pub(crate) fn read(device: Device, sent: &[u8]) -> Self
        ensures { result ≡ instruction_in device sent.now }
    {
        let figures = Figures::of(device.part);
        Instruction {
            figures,
            row: decode(figures, slices::byte_at(sent, 0)),
            address: address(figures, sent),
        }
    }
}
