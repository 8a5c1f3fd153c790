// The record packed in bytes, and read back.
ghost use Rattle.std.specs.Prelude.{◌≡◌, ◌&&◌, ◌++◌, ◌+◌, ◌≤◌, take, drop};
ghost use Rattle.slices.specs.Bytes.{same_bytes, word};
ghost use Rattle.slices.specs.Changed.{map_at, stored};
ghost use Rattle.device.specs.Packing.{packed_length, front_length, named_place, mode_number, ticks_of, mode_of, head_of, cycle_head, front_of, pack_of, cycle_at, fields_of, Packed, unpack_of};

use crate::cycle::{Cycle, Kind};
use crate::locks::REGISTERS;
use crate::{Checked, Device, Mode};
use refusals::Refusal;

// How many bytes a packing has.
pub const LENGTH: usize = 304;

// How many of them come before the slots.
const FRONT: usize = 36;

// Where the number of bytes named stands, behind the slots.
const NAMED: usize = 292;

// Where the lock registers stand.
const LOCKS: usize = 296;

// The mode byte. No conversion of a mode as a whole: its ticks stand elsewhere in a packing.
fn mode_number(mode: Mode) -> u8
    ensures { result ≡ mode_number mode }
{
    match mode {
        Mode::Standby => 0,
        Mode::Busy(_) => 1,
        Mode::Deep => 2,
    }
}

// The ticks left, 0 unless busy.
fn ticks_of(mode: Mode) -> u32
    ensures { result ≡ ticks_of mode }
{
    if let Mode::Busy(left) = mode { left } else { 0 }
}

// The mode of a mode byte and of ticks left.
fn mode_of(number: u8, ticks: u32) -> Mode
    ensures { result ≡ mode_of number ticks }
{
    match number {
        1 => Mode::Busy(ticks),
        2 => Mode::Deep,
        _ => Mode::Standby,
    }
}

// The first eight bytes: part, BP, SRWD, latch, mode, three zero bytes.
fn head_bytes(d: Device) -> [u8; 8]
    ensures { result ≡ head_of d }
{
    [
        d.part,
        d.bp,
        u8::from(d.srwd),
        u8::from(d.latch),
        mode_number(d.mode),
        0,
        0,
        0,
    ]
}

// Bytes 28 to 31: the cycle's kind, its new BP and SRWD, a zero byte.
fn cycle_bytes(cycle: Cycle) -> [u8; 4]
    ensures { result ≡ cycle_head cycle }
{
    [u8::from(cycle.kind), cycle.bp, u8::from(cycle.srwd), 0]
}

// What comes before the slots written to the front of `out`, part by part.
fn write_front(d: Device, out: &mut [u8])
    ensures { out.new ≡ map_at (stored 0 (front_of d)) out.old }
{
    slices::store(out, 0, &head_bytes(d));
    slices::store_word(out, 8, ticks_of(d.mode));
    slices::store_word(out, 12, d.program);
    slices::store_word(out, 16, d.sector_erase);
    slices::store_word(out, 20, d.bulk_erase);
    slices::store_word(out, 24, d.write_status);
    slices::store(out, 28, &cycle_bytes(d.cycle));
    slices::store_word(out, 32, d.cycle.address);
}

// What comes from the slots on written to its place in `out`: the slots, the number of bytes named, the lock registers.
fn write_rest(d: Device, out: &mut [u8])
    ensures { out.new ≡ map_at (stored front_length (d.cycle.slots ++ (word d.cycle.named ++ d.locks))) out.old }
{
    slices::store(out, FRONT, &d.cycle.slots);
    slices::store_word(out, NAMED, d.cycle.named);
    slices::store(out, LOCKS, &d.locks);
}

// The packing written to the front of `out`, whatever the record: what comes before the slots, then the rest.
pub fn write(d: Device, out: &mut [u8])
    ensures { out.new ≡ map_at (stored 0 (pack_of d)) out.old }
{
    write_front(d, out);
    write_rest(d, out);
}

// As many bytes of a packing as a field has, from a place on. Nothing is filled up here, as `slices::word_at` does.
fn part_in<const N: usize>(b: &[u8; LENGTH], from: usize) -> [u8; N]
    requires { from + N ≤ packed_length }
    ensures { result ≡ take N (drop from b.now) }
{
    let mut part = [0; N];
    part.copy_from_slice(&b[from..from + N]);
    part
}

// The cycle whose fields stand in the bytes, whether they are a packing or not. A byte that is no kind's is read as none.
fn cycle_in(b: &[u8; LENGTH]) -> Cycle
    ensures { result ≡ cycle_at b.now }
{
    Cycle {
        kind: Kind::try_from(b[28]).unwrap_or(Kind::Idle),
        address: slices::word_at(b, 32),
        slots: part_in(b, FRONT),
        bp: b[29],
        srwd: b[30] == 1,
        named: slices::word_at(b, NAMED),
    }
}

// The record whose fields stand in the bytes, whether they are a packing or not.
fn fields(b: &[u8; LENGTH]) -> Device
    ensures { result ≡ fields_of b.now }
{
    Device {
        part: b[0],
        bp: b[1],
        srwd: b[2] == 1,
        latch: b[3] == 1,
        mode: mode_of(b[4], slices::word_at(b, 8)),
        program: slices::word_at(b, 12),
        sector_erase: slices::word_at(b, 16),
        bulk_erase: slices::word_at(b, 20),
        write_status: slices::word_at(b, 24),
        cycle: cycle_in(b),
        locks: part_in(b, LOCKS),
    }
}

// Whether bytes agree with the packing of a record, but for its slots and lock registers.
fn agrees(d: Device, b: &[u8; LENGTH]) -> bool
    ensures { result ≡ (same_bytes (take front_length b.now) (front_of d) && same_bytes (take 4 (drop named_place b.now)) (word d.cycle.named)) }
{
    let mut front = [0; FRONT];
    write_front(d, &mut front);
    // arrays and not slices: their lengths are known, and the compiler compares them in place
    let begun: [u8; FRONT] = part_in(b, 0);
    let named: [u8; 4] = part_in(b, NAMED);
    begun == front && named == d.cycle.named.to_le_bytes()
}

// Packs a record. The answer is a number, as `Packed` has it: 8 where `out` is not of `LENGTH` bytes, 6 where the record is not sound, with nothing written; else 0.
// Inlined: where the caller's bytes are an array, the compiler then writes each field in place.
#[inline(always)]
pub fn pack(d: Device, out: &mut [u8]) -> u8
    ensures { Packed d out.old result out.new }
{
    if out.len() != LENGTH {
        return Refusal::PackedLength.into();
    }
    if !d.sound() {
        return Refusal::NotSound.into();
    }
    write(d, out);
    0
}

// Unpacks a record: 8 where there are not `LENGTH` bytes, 6 where they are not the packing of a sound record, with the all-zero record; else 0.
pub fn unpack(packed: &[u8]) -> Checked
    ensures { result ≡ unpack_of packed.now }
{
    let Ok(b) = <&[u8; LENGTH]>::try_from(packed) else {
        return Checked::refused(Refusal::PackedLength, Device::zero());
    };
    // not a `Result` on the way: the record would be copied once more
    let d = fields(b);
    if agrees(d, b) && d.sound() {
        Checked {
            answer: 0,
            device: d,
        }
    } else {
        Checked::refused(Refusal::NotSound, Device::zero())
    }
}
