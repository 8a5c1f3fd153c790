// Packs and unpacks records of each part and mode, and records and bytes that are refused, and writes the answers and the bytes.
#![tactic(auto)]

use device::cycle::{Cycle, Kind};
use device::packing::LENGTH;
use device::{Device, Mode, packing};
use std::io;

// A record with durations 1,000,000, 1, 258 and 65,536.
fn record(part: u8, bp: u8, srwd: bool, latch: bool, mode: Mode) -> Device {
    let delivered = Device::delivered(part, 1_000_000, 1, 258, 65_536);
    let settled = delivered.settled(srwd, bp);
    settled.moded(latch, mode)
}

// The bench part in standby.
fn standby() -> Device {
    record(0, 0, false, false, Mode::Standby)
}

// A part in a cycle with so many ticks left, and the latch that belongs to them.
fn running(part: u8, bp: u8, srwd: bool, cycle: Cycle, ticks: u32) -> Device {
    let idle = record(part, bp, srwd, false, Mode::Standby);
    idle.started(cycle, ticks)
}

// The M25P40 in a bulk erase with as many ticks left as there may be.
fn busy() -> Device {
    running(2, 7, false, Cycle::all(), 1_000_000)
}

// The bench part in the last tick of a sector erase at 000B0A, its latch reset.
fn last_tick() -> Device {
    running(0, 2, true, Cycle::erase(Kind::Sector, 0x0B0A), 1)
}

// The bench part in a program at the last address: FF in each slot but two.
fn programming() -> Device {
    let mut slots = [0xFF; 256];
    slots[0] = 0x5A;
    slots[255] = 0xA5;
    running(0, 1, true, Cycle::page(4095, slots), 3)
}

// The M25P128 in a write of SRWD 1 and BP 5.
fn writing() -> Device {
    running(4, 2, false, Cycle::settings(true, 5), 66_051)
}

// The M25P32 in deep power-down.
fn deep() -> Device {
    record(3, 5, true, true, Mode::Deep)
}

// The M25PE40 in deep power-down, with lock registers of each value.
fn locked() -> Device {
    let d = record(6, 7, false, true, Mode::Deep);
    d.locked([0, 1, 2, 3, 0, 0, 0, 3])
}

// The M25PE40 in a page write at 0001FE of 11, 22 and 33, with so many bytes named, and sector 7 locked.
fn page_writing(named: u32) -> Device {
    let mut slots = [0xFF; 256];
    slots[254] = 0x11;
    slots[255] = 0x22;
    slots[0] = 0x33;
    let d = running(6, 0, false, Cycle::write(0x01FE, slots, named), 3);
    d.locked([0, 0, 0, 0, 0, 0, 0, 1])
}

// A part in an erase of a kind at an address, with two ticks left.
fn erasing(part: u8, kind: Kind, at: u32) -> Device {
    running(part, 0, false, Cycle::erase(kind, at), 2)
}

// The M25PE40 in a program that names a byte, as a page write does.
fn naming() -> Device {
    let mut cycle = Cycle::page(0, [0; 256]);
    cycle.named = 1;
    running(6, 0, false, cycle, 2)
}

// Prints slots; those that are all the same byte as that byte and two dots.
fn print_slots(rt: &impl Print, slots: &[u8]) -> io::Result<()> {
    let first = slices::byte_at(slots, 0);
    if show::all_are(slots, 0, first) {
        print!(rt; " {first:02x}..")
    } else {
        rt.write_all(b" ")?;
        show::print_bytes(rt, slots)
    }
}

// Prints a packing: 36 bytes, the slots, and what stands behind them.
fn print_packing(rt: &impl Print, bytes: &[u8]) -> io::Result<()> {
    let (head, rest) = bytes.split_at(bytes.len().min(36));
    let (slots, behind) = rest.split_at(rest.len().min(256));
    rt.write_all(b" ")?;
    show::print_bytes(rt, head)?;
    print_slots(rt, slots)?;
    rt.write_all(b" ")?;
    show::print_bytes(rt, behind)
}

// Packs a record over bytes of 55, unpacks the bytes and packs what came: the three answers, the bytes, and whether both packings are the same.
fn round(rt: &impl Print, name: &[u8], d: Device) -> io::Result<()> {
    let mut bytes = [0x55; LENGTH];
    let mut again = [0; LENGTH];
    let p = packing::pack(d, &mut bytes);
    let u = packing::unpack(&bytes);
    let q = packing::pack(u.device, &mut again);
    rt.write_all(name)?;
    print!(rt; " {p} {} {q}", u.answer)?;
    print_packing(rt, &bytes)?;
    show::print_choice(rt, bytes == again, b" same\n", b" differ\n")
}

// Packs a record into a buffer of 55s.
fn pack_over(d: Device, out: &mut [u8]) -> u8 {
    slices::fill(out, 0x55);
    packing::pack(d, out)
}

// The same, and prints the answer and the buffer afterwards.
fn pack_into(rt: &impl Print, name: &[u8], d: Device, out: &mut [u8]) -> io::Result<()> {
    let p = pack_over(d, out);
    rt.write_all(name)?;
    print!(rt; " {p}")?;
    print_packing(rt, out)?;
    rt.write_all(b"\n")
}

// Packs a record into as many bytes as a packing has.
fn pack_whole(rt: &impl Print, name: &[u8], d: Device) -> io::Result<()> {
    let mut out = [0; LENGTH];
    pack_into(rt, name, d, &mut out)
}

// Unpacks bytes: the answer, the answer that packing the record handed back gives, and whether it is the all-zero one.
fn unpack_from(rt: &impl Print, name: &[u8], bytes: &[u8]) -> io::Result<()> {
    let mut out = [0; LENGTH];
    let u = packing::unpack(bytes);
    let d = u.device;
    let p = packing::pack(d, &mut out);
    rt.write_all(name)?;
    print!(rt; " {} {p}", u.answer)?;
    show::print_choice(rt, d == Device::zero(), b" zero\n", b" given\n")
}

// Unpacks a record's bytes after one of them was set.
fn damaged(rt: &impl Print, name: &[u8], d: Device, at: usize, v: u8) -> io::Result<()> {
    let mut bytes = [0; LENGTH];
    packing::pack(d, &mut bytes);
    if let Some(byte) = bytes.get_mut(at) {
        *byte = v;
    }
    unpack_from(rt, name, &bytes)
}

// Records that are sound: 0 three times, the bytes by document 01's layout.
fn sound_ones(rt: &impl Print) -> io::Result<()> {
    // part, BP, SRWD, latch, mode, three zero bytes, ticks left, four durations: 1,000,000 is 40 42 0F 00; then the cycle's kind, new BP and SRWD, a zero byte, its address, its slots, how many bytes a page write named, eight lock registers
    round(rt, b"bench-standby", standby())?;
    round(
        rt,
        b"M25P10-A-standby",
        record(1, 3, true, true, Mode::Standby),
    )?;
    round(rt, b"M25P40-busy", busy())?;
    round(rt, b"M25P32-deep", deep())?;
    // 66,051 ticks are 03 02 01 00
    round(rt, b"M25P128-writing", writing())?;
    round(rt, b"bench-last-tick", last_tick())?;
    round(rt, b"bench-programming", programming())?;
    round(rt, b"bench-deep", record(0, 1, false, false, Mode::Deep))?;
    round(
        rt,
        b"M25P10-A-older-deep",
        record(5, 3, true, false, Mode::Deep),
    )
}

// Those of the M25PE40, kinds 5 to 7 among them.
fn sound_m25pe40s(rt: &impl Print) -> io::Result<()> {
    round(rt, b"M25PE40-locked", locked())?;
    round(rt, b"M25PE40-page-write", page_writing(3))?;
    // a page and a subsector, each by its last address
    round(
        rt,
        b"M25PE40-page-erase",
        erasing(6, Kind::PageErase, 0x07_FFFF),
    )?;
    round(
        rt,
        b"M25PE40-subsector-erase",
        erasing(6, Kind::Subsector, 0x1FFF),
    )
}

// Records that are not sound: 6, with nothing written.
fn refused_packs(rt: &impl Print) -> io::Result<()> {
    pack_whole(rt, b"pack-zero", Device::zero())?;
    pack_whole(
        rt,
        b"pack-part-7",
        record(7, 0, false, false, Mode::Standby),
    )?;
    pack_whole(rt, b"pack-bp-4", record(0, 4, false, false, Mode::Standby))?;
    pack_whole(
        rt,
        b"pack-busy-latch-reset",
        running(0, 0, false, Cycle::all(), 2).latched(false),
    )?;
    pack_whole(
        rt,
        b"pack-last-tick-latch-set",
        running(0, 0, false, Cycle::all(), 1).latched(true),
    )?;
    pack_whole(rt, b"pack-ticks-0", running(0, 0, false, Cycle::all(), 0))?;
    pack_whole(
        rt,
        b"pack-ticks-1000001",
        running(0, 0, false, Cycle::all(), 1_000_001),
    )?;
    pack_whole(
        rt,
        b"pack-M25P128-deep",
        record(4, 0, false, false, Mode::Deep),
    )
}

// The same of the cycle: none while busy, one outside busy, an address and a BP that the part has not.
fn refused_cycles(rt: &impl Print) -> io::Result<()> {
    pack_whole(
        rt,
        b"pack-busy-no-cycle",
        record(0, 0, false, true, Mode::Busy(2)),
    )?;
    pack_whole(
        rt,
        b"pack-idle-cycle",
        running(0, 0, false, Cycle::all(), 2).moded(false, Mode::Standby),
    )?;
    pack_whole(
        rt,
        b"pack-address-4096",
        running(0, 0, false, Cycle::erase(Kind::Sector, 4096), 2),
    )?;
    pack_whole(
        rt,
        b"pack-new-bp-4",
        running(0, 0, false, Cycle::settings(false, 4), 2),
    )
}

// Buffers of another length: 8, and before 6, with nothing written.
fn refused_lengths(rt: &impl Print) -> io::Result<()> {
    let mut short = [0; LENGTH - 1];
    let mut long = [0; LENGTH + 1];
    pack_into(rt, b"pack-short", standby(), &mut short)?;
    pack_into(rt, b"pack-long", standby(), &mut long)?;
    pack_into(rt, b"pack-short-not-sound", Device::zero(), &mut short)
}

// The same of lock registers, of the bytes that a page write named, and of the kinds 5 to 7: 6.
fn refused_m25pe40s(rt: &impl Print) -> io::Result<()> {
    // a register above 3, and one that another part has not
    pack_whole(
        rt,
        b"pack-lock-4",
        locked().locked([0, 0, 0, 4, 0, 0, 0, 0]),
    )?;
    pack_whole(
        rt,
        b"pack-M25P40-lock",
        record(2, 0, false, false, Mode::Standby).locked([1, 0, 0, 0, 0, 0, 0, 0]),
    )?;
    // 1 to 256 bytes are named by a page write, none by a program
    pack_whole(rt, b"pack-named-0", page_writing(0))?;
    pack_whole(rt, b"pack-named-257", page_writing(257))?;
    pack_whole(rt, b"pack-program-named", naming())?;
    // the M25P40 has none of the three kinds
    pack_whole(
        rt,
        b"pack-M25P40-page-write",
        running(2, 0, false, Cycle::write(0, [0; 256], 1), 2),
    )?;
    pack_whole(
        rt,
        b"pack-M25P40-page-erase",
        erasing(2, Kind::PageErase, 0),
    )?;
    pack_whole(
        rt,
        b"pack-M25P40-subsector-erase",
        erasing(2, Kind::Subsector, 0),
    )
}

// Bytes that are not the packing of a sound record: 6 with the all-zero record. Where the changed byte gives another sound record: 0.
fn damaged_in_standby(rt: &impl Print) -> io::Result<()> {
    damaged(rt, b"part-7", standby(), 0, 7)?;
    damaged(rt, b"part-6", standby(), 0, 6)?;
    damaged(rt, b"part-5", standby(), 0, 5)?;
    damaged(rt, b"bp-4", standby(), 1, 4)?;
    damaged(rt, b"bp-3", standby(), 1, 3)?;
    damaged(rt, b"srwd-2", standby(), 2, 2)?;
    damaged(rt, b"srwd-1", standby(), 2, 1)?;
    damaged(rt, b"latch-2", standby(), 3, 2)?;
    damaged(rt, b"latch-255", standby(), 3, 255)?;
    damaged(rt, b"mode-3", standby(), 4, 3)?;
    damaged(rt, b"mode-1-without-ticks", standby(), 4, 1)?;
    damaged(rt, b"mode-2", standby(), 4, 2)?;
    damaged(rt, b"padding-5", standby(), 5, 1)?;
    damaged(rt, b"padding-6", standby(), 6, 1)?;
    damaged(rt, b"padding-7", standby(), 7, 128)?;
    damaged(rt, b"ticks-in-standby", standby(), 8, 1)?;
    damaged(rt, b"high-ticks-in-standby", standby(), 11, 1)
}

// The same of durations, ticks left and modes.
fn damaged_numbers(rt: &impl Print) -> io::Result<()> {
    damaged(rt, b"program-1000001", standby(), 12, 0x41)?;
    damaged(rt, b"program-999999", standby(), 12, 0x3F)?;
    damaged(rt, b"sector-erase-0", standby(), 16, 0)?;
    damaged(rt, b"bulk-erase-high-byte", standby(), 23, 1)?;
    damaged(rt, b"write-status-0", standby(), 26, 0)?;
    damaged(rt, b"ticks-1000001", busy(), 8, 0x41)?;
    damaged(rt, b"ticks-999999", busy(), 8, 0x3F)?;
    damaged(rt, b"busy-latch-reset", busy(), 3, 0)?;
    damaged(rt, b"last-tick-latch-set", last_tick(), 3, 1)?;
    damaged(rt, b"last-tick-and-one-more", last_tick(), 8, 2)?;
    damaged(rt, b"ticks-and-mode-0", busy(), 4, 0)?;
    damaged(rt, b"ticks-and-mode-2", busy(), 4, 2)?;
    damaged(rt, b"ticks-in-deep", deep(), 9, 1)?;
    damaged(rt, b"deep-M25P128", deep(), 0, 4)?;
    damaged(rt, b"deep-M25P40", deep(), 0, 2)
}

// The same of the cycle: outside one, of each kind, and of no kind.
fn damaged_cycles(rt: &impl Print) -> io::Result<()> {
    damaged(rt, b"idle-kind", standby(), 28, 3)?;
    damaged(rt, b"idle-bp", standby(), 29, 1)?;
    damaged(rt, b"idle-srwd", standby(), 30, 1)?;
    damaged(rt, b"idle-padding", standby(), 31, 1)?;
    damaged(rt, b"idle-address", standby(), 32, 1)?;
    damaged(rt, b"idle-slot", standby(), 291, 1)?;
    damaged(rt, b"deep-kind", deep(), 28, 1)?;
    damaged(rt, b"no-kind", busy(), 28, 0)?;
    damaged(rt, b"kind-5", busy(), 28, 5)?;
    damaged(rt, b"kind-8", busy(), 28, 8)?;
    damaged(rt, b"bulk-as-sector", busy(), 28, 2)?;
    damaged(rt, b"bulk-bp", busy(), 29, 1)?;
    damaged(rt, b"bulk-address", busy(), 34, 1)?;
    damaged(rt, b"bulk-slot", busy(), 163, 1)?;
    damaged(rt, b"sector-4095", last_tick(), 33, 0x0F)?;
    damaged(rt, b"sector-above", last_tick(), 33, 0x10)?;
    damaged(rt, b"sector-high-byte", last_tick(), 35, 1)?;
    damaged(rt, b"program-slot", programming(), 36, 0)?;
    damaged(rt, b"program-srwd", programming(), 30, 1)?;
    damaged(rt, b"program-as-sector", programming(), 28, 2)?;
    damaged(rt, b"settings-bp-7", writing(), 29, 7)?;
    damaged(rt, b"settings-bp-8", writing(), 29, 8)?;
    damaged(rt, b"settings-srwd-2", writing(), 30, 2)?;
    damaged(rt, b"settings-padding", writing(), 31, 1)
}

// The same of lock registers and of the kinds 5 to 7, which the M25PE40 alone has.
fn damaged_m25pe40s(rt: &impl Print) -> io::Result<()> {
    damaged(rt, b"lock-4", locked(), 296, 4)?;
    damaged(rt, b"lock-3", locked(), 296, 3)?;
    damaged(rt, b"lock-128", locked(), 303, 128)?;
    damaged(rt, b"locks-on-M25P40", locked(), 0, 2)?;
    damaged(rt, b"lock-on-M25P40", busy(), 303, 1)?;
    damaged(rt, b"lock-busy", page_writing(3), 303, 0)?;
    damaged(rt, b"page-write-on-M25P40", page_writing(3), 0, 2)?;
    damaged(rt, b"page-write-slot", page_writing(3), 37, 0)?;
    damaged(rt, b"page-write-above", page_writing(3), 34, 8)?;
    damaged(rt, b"page-write-as-page-erase", page_writing(3), 28, 6)?;
    damaged(rt, b"page-write-as-program", page_writing(3), 28, 1)?;
    let erase = erasing(6, Kind::PageErase, 0);
    damaged(rt, b"page-erase-as-subsector", erase, 28, 7)?;
    damaged(rt, b"page-erase-as-sector", erase, 28, 2)?;
    damaged(rt, b"page-erase-as-page-write", erase, 28, 5)?;
    damaged(rt, b"page-erase-on-M25P40", erase, 0, 2)?;
    damaged(
        rt,
        b"sector-as-page-erase",
        erasing(2, Kind::Sector, 0),
        28,
        6,
    )?;
    damaged(
        rt,
        b"sector-as-subsector",
        erasing(2, Kind::Sector, 0),
        28,
        7,
    )
}

// The same of how many bytes were named: 1 to 256 of a page write, else 0.
fn damaged_named(rt: &impl Print) -> io::Result<()> {
    damaged(rt, b"named-0", page_writing(3), 292, 0)?;
    damaged(rt, b"named-1", page_writing(3), 292, 1)?;
    damaged(rt, b"named-256", page_writing(256), 292, 0)?;
    damaged(rt, b"named-257", page_writing(256), 292, 1)?;
    damaged(rt, b"named-high-byte", page_writing(3), 295, 1)?;
    damaged(rt, b"named-in-standby", standby(), 292, 1)?;
    damaged(rt, b"named-in-program", programming(), 292, 1)?;
    damaged(
        rt,
        b"named-in-page-erase",
        erasing(6, Kind::PageErase, 0),
        292,
        1,
    )
}

// Other lengths: 8, whatever the bytes are.
fn other_lengths(rt: &impl Print) -> io::Result<()> {
    unpack_from(rt, b"short", &[0; LENGTH - 1])?;
    unpack_from(rt, b"long", &[0; LENGTH + 1])?;
    unpack_from(rt, b"without-locks", &[0; 292])?;
    unpack_from(rt, b"without-cycle", &[0; 28])?;
    unpack_from(rt, b"empty", b"")?;
    unpack_from(rt, b"all-zero", &[0; LENGTH])
}

fn main(rt: HostRuntime) -> io::Result<()> {
    sound_ones(&rt)?;
    sound_m25pe40s(&rt)?;
    refused_packs(&rt)?;
    refused_cycles(&rt)?;
    refused_lengths(&rt)?;
    refused_m25pe40s(&rt)?;
    damaged_in_standby(&rt)?;
    damaged_numbers(&rt)?;
    damaged_cycles(&rt)?;
    damaged_m25pe40s(&rt)?;
    damaged_named(&rt)?;
    other_lengths(&rt)
}
