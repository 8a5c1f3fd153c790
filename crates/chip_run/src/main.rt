// Runs document 01's worked cases, and cases of our own, on the five parts whose arrays fit the stack, through both entries. What a script says stands in `steps`.
// K14 is not here: it needs the 16 MiB of the M25P128, and is proved.
#![tactic(auto)]

mod entries;
mod long;
mod m25pe40;
mod protected;
mod refused;
mod steps;
mod text;

use protected::{Sectors, table};
use std::io;
use steps::case;

// A case on the bench part: a short name for `case`, which is the one generic function of all parts.
fn bench(rt: &impl Print, name: &[u8], script: &[u8]) -> io::Result<()> {
    case::<4096>(rt, name, 0, script)
}

// K1 to K7.
fn worked_first(rt: &impl Print) -> io::Result<()> {
    // no bytes: 11
    bench(rt, b"K1", b"x 1 0")?;
    // latch reset: 06 gives 0 and sets it; with one further pulse, 15
    bench(rt, b"K2", b"= 0 0 0;x 1 0 06;s;= 0 0 0;x 1 1 06;s")?;
    // latch reset: 0200001000 gives 16
    bench(rt, b"K3", b"= 0 0 0;x 1 0 0200001000")?;
    // AA programmed onto F0 leaves A0, once its cycle has ended; two bits were missing
    bench(
        rt,
        b"K4",
        b"x 1 0 02000010F0;w 3;x 1 0 06;x 1 0 02000010AA;w 3;a 000010",
    )?;
    // 257 data bytes at 000000, first 11, last 22, between them FF: byte 0 is 22, not 00
    bench(
        rt,
        b"K5",
        b"y 1 0 0200000011 FF 22;= 0 0 1;a 000000;a 000100",
    )?;
    // reading two bytes from 000FFF gives byte 4,095, then byte 0
    bench(
        rt,
        b"K6",
        b"x 1 0 02000FFF5A;w 3;x 1 0 06;x 1 0 02000000C3;w 3;x 1 0 03000FFF0000",
    )?;
    // BP 1: a program at 000BFF is executed, at 000C00 gives 17
    bench(
        rt,
        b"K7",
        b"= 0 1 1;x 1 0 02000BFF00;w 3;a 000BFF;= 0 1 1;x 1 0 02000C0000;a 000C00",
    )
}

// K8 to K15.
fn worked_last(rt: &impl Print) -> io::Result<()> {
    // BP 1: C7 gives 17
    bench(rt, b"K8", b"= 0 1 1;x 1 0 C7")?;
    // SRWD 1: 0100 gives 18 with W low, 0 with W high
    bench(rt, b"K9", b"= 1 0 1;x 0 0 0100;s;x 1 0 0100;s")?;
    // 01FF: status 03 right after the write, 8C after waiting 2
    bench(rt, b"K10", b"x 1 0 01FF;x 1 0 0500;w 2;x 1 0 0500")?;
    // 02000000 gives 15, so does D800000000
    bench(rt, b"K11", b"x 1 0 02000000;x 1 0 D800000000")?;
    // a program started: status 03 after waiting 1, 01 after waiting 2, 00 after 1 more
    bench(
        rt,
        b"K12",
        b"x 1 0 0200001000;w 1;x 1 0 0500;w 1;x 1 0 0500;w 1;x 1 0 0500",
    )?;
    // deep: 0500 gives 13, AB gives 0 and standby
    bench(rt, b"K13", b"x 1 0 B9;x 1 0 0500;x 1 0 AB;s")?;
    // latch reset, BP 3: D8000000 gives 16, not 17
    bench(rt, b"K15", b"= 0 3 0;x 1 0 D8000000")
}

// The readings that look right and are not.
fn wrong_readings(rt: &impl Print) -> io::Result<()> {
    // anding all data of one long program into its slots: the last byte wins
    bench(
        rt,
        b"last-wins",
        b"y 1 0 020000FE0F FF F0;= 0 0 1;a 0000FE;a 0001FE",
    )?;
    // letting a program run on into the next page: F0 stands at 000000, and 000100 stays FF
    bench(
        rt,
        b"no-run-on",
        b"x 1 0 020000FF5AF0;w 3;a 0000FF;a 000000;a 000100",
    )?;
    // resetting the latch when an instruction is ignored with 15, 14 or 17: it stays
    bench(
        rt,
        b"latch-stays",
        b"x 1 0 02000000;s;x 1 0 FE;s;= 0 1 1;x 1 0 C7;s",
    )?;
    // freezing the status register on W low alone: with SRWD 0 it is executed
    bench(rt, b"w-low-alone", b"x 0 0 0100;s")?;
    // letting W low stop a program: with SRWD 1 it is executed
    bench(
        rt,
        b"w-low-program",
        b"= 1 0 1;x 0 0 0200001055;w 3;a 000010;s",
    )?;
    // bulk-erasing just the unprotected sectors: with BP 1 none is erased, with BP 0 all are
    bench(
        rt,
        b"bulk-erase",
        b"x 1 0 0200000000;= 0 0 1;x 1 0 02000C0000;= 0 1 1;x 1 0 C7;a 000000;a 000C00;= 0 0 1;x 1 0 C7;w 9;a 000000;a 000C00;s",
    )
}

// Instructions, addresses and identification on the bench part.
fn instructions(rt: &impl Print) -> io::Result<()> {
    // a read over mixed bytes rolls over from the last byte to 0, by 03 from byte 4 on and by 0B from byte 5 on
    bench(
        rt,
        b"roll-over",
        b"x 1 0 02000FFE112233;w 3;x 1 0 06;x 1 0 020000004455;w 3;x 1 0 03000FFE0000000000;x 1 0 0B000FFE000000000000",
    )?;
    // an address is taken modulo the part's size
    bench(rt, b"address-modulo", b"x 1 0 02FFF01066;w 3;a 000010")?;
    // the addressed sector becomes FF, and its neighbours stay
    bench(
        rt,
        b"sector-erase",
        b"x 1 0 020003FF00;= 0 0 1;x 1 0 0200040000;= 0 0 1;x 1 0 020007FF00;= 0 0 1;x 1 0 0200080000;= 0 0 1;x 1 0 D80005A5;w 4;a 000400;w 1;a 0003FF;a 000400;a 0007FF;a 000800;s",
    )?;
    // 04 alone resets the latch; with a second byte or further pulses it gives 15
    bench(rt, b"write-disable", b"x 1 0 04;s;x 1 0 0400;x 1 7 04")?;
    // three identification bytes, then 00; with one byte nothing is driven
    bench(rt, b"identification", b"x 1 0 9F0000000000;x 1 7 9F")?;
    // a read needs four bytes, a fast read five; with no more nothing is driven
    bench(
        rt,
        b"short-reads",
        b"x 1 0 030000;x 1 7 03000000;x 1 0 0B000000;x 1 7 0B00000000",
    )
}

// Programs that want bits 1 that are 0.
fn missing(rt: &impl Print) -> io::Result<()> {
    // 0F over A0 wants four bits, FF over 00 eight, FF over FF none, and no data reaches the 00 behind them; after an erase none is missing
    bench(
        rt,
        b"missing-rewrite",
        b"x 1 0 02000010A000FF00;w 3;x 1 0 06;x 1 0 020000100FFFFF;w 3;a 000010;a 000011;x 1 0 06;x 1 0 D8000000;w 5;x 1 0 06;x 1 0 020000100FFFFF",
    )?;
    // data that wraps: FF over 0F at 0000FF, then FF over FC at 000000; the 00 at 000100 does not count
    bench(
        rt,
        b"missing-wrap",
        b"x 1 0 020000FF0FFC;w 3;x 1 0 06;x 1 0 0200010000;w 3;x 1 0 06;x 1 0 020000FFFFFF",
    )?;
    // none where the program is ignored: 12, 16, 17, 15; eight where it is executed
    bench(
        rt,
        b"missing-ignored",
        b"x 1 0 02000C1000;x 1 0 02000C10FF;w 3;x 1 0 02000C10FF;= 0 1 1;x 1 0 02000C10FF;x 1 1 02000C10FF;= 0 0 1;x 1 0 02000C10FF",
    )?;
    // all of page 0 is 00, then 257 data bytes FF but for the last, which is 0F: 255 times eight bits are missing, and four
    bench(
        rt,
        b"missing-long",
        b"y 1 0 0200000000 00 00;= 0 0 1;y 1 0 02000000FF FF 0F",
    )
}

// Power lost in mid-cycle, and outside a cycle.
fn losses(rt: &impl Print) -> io::Result<()> {
    // a program of 0F over C3, cut with 50: C3 and (0F or 50); a second loss changes nothing; cut with FF nothing of it happened, with 00 it is whole
    bench(
        rt,
        b"loss-program",
        b"x 1 0 020001FFC3;p;x 1 0 06;x 1 0 020001FF0F;w 2;l 50 1;a 0001FF;a 000200;s;l 00 1;a 0001FF;x 1 0 06;x 1 0 020001FF02;l FF 1;a 0001FF;x 1 0 06;x 1 0 020001FF02;l 00 0;a 0001FF",
    )?;
    // an erase over 00, cut with 3C, and a bulk erase cut with C0 on top; what lies beside the sector stays 00 until the bulk erase
    bench(
        rt,
        b"loss-erase",
        b"x 1 0 0200040100;w 3;x 1 0 06;x 1 0 020003FF00;w 3;x 1 0 06;x 1 0 D80007FF;w 4;l 3C 0;a 000401;a 0003FF;s;x 1 0 06;x 1 0 C7;l C0 0;a 000401;a 0003FF",
    )?;
    // settings: absent on no, complete on yes
    bench(
        rt,
        b"loss-settings",
        b"x 1 0 0184;l 00 0;s;x 1 0 06;x 1 0 0184;s;l FF 1;s",
    )?;
    // outside a cycle the latch is reset, and deep power-down left
    bench(
        rt,
        b"loss-idle",
        b"= 1 1 1;l 00 1;s;x 1 0 B9;s;l FF 0;s;a 000000",
    )?;
    // a record that is not sound: 6, and nothing changes
    bench(rt, b"loss-not-sound", b"= 0 4 1;l 00 1;s")
}

// Deep power-down, cycles, waiting and power-up.
fn modes(rt: &impl Print) -> io::Result<()> {
    // AB drives the signature from byte 4 on, in standby and deep; B9 makes it deep with the latch kept; only AB is heard there
    bench(
        rt,
        b"deep",
        b"x 1 0 AB0000000000;x 1 0 B9;s;x 1 0 06;x 1 0 9F00;x 1 0 B9;w 9;s;x 1 5 AB00000000;s;x 1 0 B900;x 1 3 AB0000",
    )?;
    // busy: only 05 is heard, all else gives 12, but an unknown instruction 14 and no bytes 11
    bench(
        rt,
        b"busy",
        b"x 1 0 D8000000;x 1 0 050000;x 1 0 03000000FF;x 1 0 06;x 1 0 AB;x 1 0 FE;x 1 0;x 1 4 0500;w 4;x 1 0 0500;w 1;x 1 0 0500",
    )?;
    // less than the ticks left: they fall by t, and the latch is reset on the last one; otherwise standby with the latch reset
    bench(rt, b"wait", b"x 1 0 C7;s;w 0;s;w 4;s;w 4;s;w 1;s;w 9;s")?;
    // settings written: 03 right after it, 01 on the last tick, 8C afterwards
    bench(rt, b"last-tick", b"x 1 0 01FF;s;w 1;s;w 1;s")?;
    // in standby waiting changes nothing
    bench(rt, b"wait-standby", b"w 9;s")?;
    // in mid-cycle: the program is completed; standby, latch reset, BP and SRWD kept; then out of deep power-down
    bench(
        rt,
        b"power-up",
        b"= 1 1 1;x 1 0 02000000AA;s;p;s;a 000000;x 1 0 B9;s;p;s",
    )
}

// What the host side refuses, and the longest transaction that it does not.
fn refusals(rt: &impl Print) -> io::Result<()> {
    refused::deliveries(rt)?;
    // BP 4 on the bench part is not sound: 6 from a transaction, before 4, from waiting and from power-up
    bench(rt, b"not-sound", b"= 0 4 1;x 1 0 0500;w 1;p;s;x 1 8 0500")?;
    refused::array_length(rt)?;
    refused::time_and_power(rt)?;
    refused::too_many(rt)?;
    // further pulses above 7: 4, before 11
    bench(rt, b"pulses-8", b"x 1 8 0500;x 1 8")?;
    refused::response_short(rt)?;
    long::longest(rt)
}

// The M25P10-A.
fn on_m25p10a(rt: &impl Print) -> io::Result<()> {
    // 20 20 11, then 00; the signature is 10
    case::<131_072>(
        rt,
        b"M25P10-A-identification",
        1,
        b"x 1 0 9F0000000000;x 1 0 AB00000000",
    )?;
    // WRSR takes bits 3 and 2 alone: BP 3 of FF, BP 0 of 10
    case::<131_072>(
        rt,
        b"M25P10-A-bit-4",
        1,
        b"x 1 0 01FF;x 1 0 0500;w 2;x 1 0 0500;= 0 0 1;x 1 0 0110;w 2;x 1 0 0500",
    )?;
    // FFFFFF is the last byte, 01FFFF
    case::<131_072>(
        rt,
        b"M25P10-A-roll-over",
        1,
        b"x 1 0 0201FFFF5A;= 0 0 1;x 1 0 02000000C3;w 3;x 1 0 03FFFFFF0000;x 1 0 0BFFFFFF000000",
    )?;
    // BP 1 protects from 018000 on
    case::<131_072>(
        rt,
        b"M25P10-A-protected",
        1,
        b"= 0 1 1;x 1 0 02017FFF00;= 0 1 1;x 1 0 0201800000;x 1 0 C7",
    )
}

// The older M25P10-A.
fn on_older_m25p10a(rt: &impl Print) -> io::Result<()> {
    // 9F gives 14 and drives nothing; the signature is 10
    case::<131_072>(
        rt,
        b"M25P10-A-older-identification",
        5,
        b"x 1 0 9F0000000000;x 1 7 9F;x 1 0 AB00000000",
    )?;
    // 14 while busy too, where what it knows gives 12
    case::<131_072>(
        rt,
        b"M25P10-A-older-busy",
        5,
        b"x 1 0 0201FFFF5A;x 1 0 9F0000;x 1 0 AB;x 1 0 0500;w 3;x 1 0 9F0000;a 01FFFF",
    )?;
    // and in deep power-down, which AB releases
    case::<131_072>(
        rt,
        b"M25P10-A-older-deep",
        5,
        b"x 1 0 B9;x 1 0 9F0000;x 1 0 0500;x 1 0 AB00000000;x 1 0 0500",
    )?;
    // BP 1 protects from 018000 on
    case::<131_072>(
        rt,
        b"M25P10-A-older-protected",
        5,
        b"= 0 1 1;x 1 0 02017FFF00;= 0 1 1;x 1 0 0201800000;x 1 0 C7",
    )
}

// The M25P40.
fn on_m25p40(rt: &impl Print) -> io::Result<()> {
    // 20 20 13, then 00; the signature is 12
    case::<524_288>(
        rt,
        b"M25P40-identification",
        2,
        b"x 1 0 9F0000000000;x 1 0 AB00000000",
    )?;
    // WRSR takes bits 4 to 2: BP 7 of FF, BP 4 of 10
    case::<524_288>(
        rt,
        b"M25P40-bit-4",
        2,
        b"x 1 0 01FF;x 1 0 0500;w 2;x 1 0 0500;= 0 0 1;x 1 0 0110;w 2;x 1 0 0500",
    )?;
    // FFFFFF is the last byte, 07FFFF
    case::<524_288>(
        rt,
        b"M25P40-roll-over",
        2,
        b"x 1 0 0207FFFF5A;= 0 0 1;x 1 0 02000000C3;w 3;x 1 0 03FFFFFF0000;x 1 0 0BFFFFFF000000",
    )?;
    // BP 1 protects from 070000 on
    case::<524_288>(
        rt,
        b"M25P40-protected",
        2,
        b"= 0 1 1;x 1 0 0206FFFF00;= 0 1 1;x 1 0 0207000000;x 1 0 C7",
    )?;
    // all eight sectors are erased
    case::<524_288>(
        rt,
        b"M25P40-bulk-erase",
        2,
        b"x 1 0 0207000000;= 0 0 1;x 1 0 C7;w 9;a 070000;s",
    )
}

// The protected sectors of each BP: document 01's table, a P for each protected one.
fn protected_areas(rt: &impl Print) -> io::Result<()> {
    let bench = Sectors {
        count: 4,
        bytes: 1024,
    };
    let m25p10a = Sectors {
        count: 4,
        bytes: 32_768,
    };
    let m25p40 = Sectors {
        count: 8,
        bytes: 65_536,
    };
    table::<4096>(rt, b"protected bench", 0, bench, 4)?;
    table::<131_072>(rt, b"protected M25P10-A", 1, m25p10a, 4)?;
    table::<524_288>(rt, b"protected M25P40", 2, m25p40, 8)?;
    table::<524_288>(rt, b"protected M25PE40", 6, m25p40, 8)
}

fn main(rt: HostRuntime) -> io::Result<()> {
    worked_first(&rt)?;
    worked_last(&rt)?;
    wrong_readings(&rt)?;
    instructions(&rt)?;
    missing(&rt)?;
    modes(&rt)?;
    losses(&rt)?;
    refusals(&rt)?;
    on_m25p10a(&rt)?;
    on_older_m25p10a(&rt)?;
    on_m25p40(&rt)?;
    m25pe40::cases(&rt)?;
    protected_areas(&rt)
}
