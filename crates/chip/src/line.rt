// The response line: what the chip drives, from which byte on, and how many.
ghost use Rattle.std.specs.Prelude.{◌≡◌, [], ◌∷◌, ◌+◌, ◌%◌, ◌<◌, length, get_or};
ghost use Rattle.slices.specs.Changed.{map_at};
ghost use Rattle.device.specs.Device.{status_byte};
ghost use Rattle.chip.specs.Line.{kth, on_line, line_byte, heard, driven, span_of, from_on, Responded};
ghost use Rattle.chip.specs.Table.{only_if, instruction_in};

use crate::table::{Drive, Instruction, Row};
use device::locks::lock_of;
use device::{Device, is_busy, is_deep};
use parts::Figures;

// The three identification bytes.
fn identification(figures: Figures) -> [u8; 3]
    ensures { result ≡ figures.maker ∷ figures.memory_type ∷ figures.capacity ∷ [] }
{
    [figures.maker, figures.memory_type, figures.capacity]
}

// What is driven, over the whole of `out`.
// Not `kth_byte` at each place: the array goes out in straight runs, and what is driven again and again in one fill.
fn put_driven(how: Drive, figures: Figures, device: Device, array: &[u8], at: u32, out: &mut [u8])
    ensures { out.new ≡ map_at (λ k x. on_line (kth how figures (status_byte device) device.locks array.now at k)) out.old }
{
    match how {
        Drive::Nothing => slices::fill(out, 0xFF),
        Drive::Identification => {
            slices::fill(out, 0);
            slices::copy(out, &identification(figures));
        }
        Drive::Status => slices::fill(out, device.status()),
        Drive::Array => memory::read_rolling(array, at as usize, out),
        Drive::Signature => slices::fill(out, figures.signature),
        Drive::Register => slices::fill(out, lock_of(figures, device.locks, at)),
    }
}

// Where something is driven, of n bytes: the first place, and how many.
#[derive(Clone, Copy, Debug, PartialEq, Eq)]
pub struct Span {
    pub first: usize,
    pub count: usize,
}

// From a place on, of n bytes.
fn from_on(from: usize, n: usize) -> Span
    ensures { result ≡ from_on from n }
{
    if from < n {
        Span {
            first: from,
            count: n - from,
        }
    } else {
        Span { first: 0, count: 0 }
    }
}

// Where a row drives.
fn span_of(how: Drive, from: usize, n: usize) -> Span
    ensures { result ≡ span_of how from n }
{
    match how {
        Drive::Nothing => Span { first: 0, count: 0 },
        _ => from_on(from, n),
    }
}

impl Row {
    // Whether the instruction is taken at all.
    #[tactic(auto, unfolding(crate::specs::Line::heard))]
    fn is_heard(self, device: Device) -> bool
        ensures { result ≡ heard device self }
    {
        self.known && (!is_busy(device.mode) || self.busy) && (!is_deep(device.mode) || self.deep)
    }

    // The row that the chip goes by: an instruction that is not taken at all is as an unknown one.
    fn heard(self, device: Device) -> Self
        ensures { result ≡ only_if (heard device self) self }
    {
        self.only_if(self.is_heard(device))
    }
}

// Where a transaction of n bytes drives, which no byte of the array changes.
pub(crate) fn span_driven(device: Device, asked: Instruction, n: usize) -> Span
    ensures { result ≡ span_of (only_if (heard device asked.row) asked.row).drive (only_if (heard device asked.row) asked.row).from n }
{
    let row = asked.row.heard(device);
    span_of(row.drive, row.from, n)
}

// The response line.
pub(crate) fn respond(
    device: Device,
    asked: Instruction,
    array: &[u8],
    sent: &[u8],
    response: &mut [u8],
) -> Span
    requires { asked ≡ instruction_in device sent.now }
    ensures { Responded device array.now sent.now response.old result response.new }
{
    let row = asked.row.heard(device);
    let n = sent.len().min(response.len());
    let start = row.from.min(n);
    slices::fill_part(response, 0, start, 0xFF);
    put_driven(
        row.drive,
        asked.figures,
        device,
        array,
        asked.address,
        &mut response[start..n],
    );
    span_of(row.drive, row.from, sent.len())
}

// Byte `i` of the array, rolling over; FF where there is no array.
fn array_byte(array: &[u8], i: usize) -> u8
    ensures { result ≡ get_or array.now (i % length array.now) 255 }
{
    let at = slices::rest(i, array.len());
    array.get(at).copied().unwrap_or(0xFF)
}

// Driven byte k, counted from the first.
fn kth_byte(
    how: Drive,
    figures: Figures,
    device: Device,
    array: &[u8],
    at: u32,
    k: usize,
) -> Option<u8>
    requires { at + k < 18446744073709551616 }
    ensures { result ≡ line_byte (kth how figures (status_byte device) device.locks array.now at k) }
{
    match how {
        Drive::Nothing => None,
        Drive::Identification => Some(slices::byte_at(&identification(figures), k)),
        Drive::Status => Some(device.status()),
        Drive::Array => Some(array_byte(array, at as usize + k)),
        Drive::Signature => Some(figures.signature),
        Drive::Register => Some(lock_of(figures, device.locks, at)),
    }
}

// What is driven during the byte that comes after the bytes before; `None` where nothing is.
#[tactic(auto, unfolding(crate::specs::Line::driven, crate::specs::Line::by_row, crate::specs::Line::heard_row))]
pub fn driven_byte(device: Device, array: &[u8], before: &[u8]) -> Option<u8>
    ensures { result ≡ line_byte (driven device array.now before.now) }
{
    let asked = Instruction::read(device, before);
    let row = asked.row.heard(device);
    if before.len() < row.from {
        return None;
    }
    let k = before.len() - row.from;
    kth_byte(row.drive, asked.figures, device, array, asked.address, k)
}
