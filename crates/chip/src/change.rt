// What an executed instruction does: the cycle that it starts, the bits missing, and the record.
ghost use Rattle.std.specs.Prelude.{◌≡◌, drop};
ghost use Rattle.chip.specs.Change.{bp_in, cycle_of, missing_in, missing_of, turned};

use crate::table::{Instruction, Turn};
use device::cycle::{Cycle, Kind};
use device::locks::relocked;
use device::{Device, Mode};
use parts::Figures;

// BP of a settings byte.
#[tactic(auto, unfolding(crate::specs::Change::bp_in))]
fn bp_in(figures: Figures, b: u8) -> u8
    ensures { result ≡ bp_in figures b }
{
    if figures.highest_bp == 3 {
        b / 4 % 4
    } else {
        b / 4 % 8
    }
}

// The data of a program or a page write: from byte 4 on.
fn data(sent: &[u8]) -> &[u8]
    ensures { result.now ≡ drop 4 sent.now }
{
    let from = sent.len().min(4);
    &sent[from..]
}

// The cycle of a kind that a transaction starts.
#[tactic(auto, unfolding(crate::specs::Change::cycle_of))]
fn cycle_of(kind: Kind, figures: Figures, at: u32, sent: &[u8]) -> Cycle
    ensures { result ≡ cycle_of kind figures at sent.now }
{
    match kind {
        Kind::Idle => Cycle::none(),
        Kind::Page => Cycle::page(at, memory::page_latch(data(sent), at)),
        Kind::All => Cycle::all(),
        Kind::Settings => {
            let b = slices::byte_at(sent, 1);
            Cycle::settings(b >= 128, bp_in(figures, b))
        }
        Kind::PageWrite => {
            let named = data(sent).len().min(256);
            Cycle::write(at, memory::page_latch(data(sent), at), named as u32)
        }
        Kind::Sector | Kind::PageErase | Kind::Subsector => Cycle::erase(kind, at),
    }
}

// How many bits a program wants 1 that are 0 in the array; 0 for every other kind of cycle.
fn missing_in(kind: Kind, at: u32, sent: &[u8], array: &[u8]) -> u32
    ensures { result ≡ missing_in kind at sent.now array.now }
{
    match kind {
        Kind::Page => memory::missing(array, at, data(sent)),
        _ => 0,
    }
}

// How many bits an instruction misses; 0 where it starts no cycle.
#[tactic(auto, unfolding(crate::specs::Change::missing_of))]
pub(crate) fn missing_of(asked: Instruction, sent: &[u8], array: &[u8]) -> u32
    ensures { result ≡ missing_of asked.row.turn asked.address sent.now array.now }
{
    match asked.row.turn {
        Turn::Start(kind) => missing_in(kind, asked.address, sent, array),
        _ => 0,
    }
}

// The record after an executed instruction: a cycle that is started is remembered; a lock register takes byte 4, and the latch is reset.
#[tactic(auto, unfolding(crate::specs::Change::turned))]
pub(crate) fn next_record(device: Device, asked: Instruction, sent: &[u8]) -> Device
    ensures { result ≡ turned asked.row.turn asked.figures device asked.address sent.now }
{
    match asked.row.turn {
        Turn::Keep => device,
        Turn::Enable => device.latched(true),
        Turn::Disable => device.latched(false),
        Turn::Start(kind) => {
            let cycle = cycle_of(kind, asked.figures, asked.address, sent);
            device.started(cycle, device.duration(kind))
        }
        Turn::Sleep => device.moded(device.latch, Mode::Deep),
        Turn::Wake => device.moded(device.latch, Mode::Standby),
        Turn::Lock => {
            let b = slices::byte_at(sent, 4);
            let next = relocked(asked.figures, device.locks, asked.address, b);
            device.locked(next).latched(false)
        }
    }
}
