// The M25PE40: the worked cases P1 to P48 of docs/M25PE40.md that a script can say, and cases of our own. A setting by `=` goes by a power-up, so that the lock registers are 0 after it.
use crate::steps::case;
use std::io;

// A case on part 6: a short name for `case`.
fn run(rt: &impl Print, name: &[u8], script: &[u8]) -> io::Result<()> {
    case::<524_288>(rt, name, 6, script)
}

// Identification, codes, deep power-down and its release, settings, reads.
fn codes(rt: &impl Print) -> io::Result<()> {
    // 20 80 13, then 00
    run(rt, b"P1", b"x 1 0 9F000000000000")?;
    // 9E and 90 are unknown
    run(rt, b"P2", b"x 1 0 9E00;x 1 0 9000;s")?;
    // the five new codes are unknown on the M25P40
    case::<524_288>(
        rt,
        b"P3",
        2,
        b"x 1 0 0A00000000;x 1 0 DB000000;x 1 0 20000000;x 1 0 E800000000;x 1 0 E500000000;s",
    )?;
    // AB in standby changes nothing and drives nothing; with a second byte or a further pulse it gives 15
    run(
        rt,
        b"P4",
        b"x 1 0 AB;s;x 1 0 AB00;x 1 0 AB00000000;x 1 1 AB",
    )?;
    // deep: AB alone is heard, and only with one byte and no further pulse; the latch is kept
    run(
        rt,
        b"P5",
        b"x 1 0 B9;x 1 0 0500;x 1 0 B9;x 1 0 E800000000;x 1 0 0A00000055;x 1 0 E500000001;x 1 0 DB000000;x 1 0 20000000;x 1 0 AB00;x 1 0 0500;x 1 1 AB;s;x 1 0 AB;s",
    )?;
    // three BP bits
    run(rt, b"P6", b"x 1 0 01FF;s;w 1;s;w 1;s")?;
    // reads roll over from 07FFFF to 0
    run(
        rt,
        b"P48",
        b"x 1 0 0207FFFF5A;= 0 0 1;x 1 0 02000000C3;= 0 0 1;x 1 0 0307FFFF0000;x 1 0 0B07FFFF000000;x 1 0 030FFFFF00;x 1 0 0B07FFFF;x 1 0 0B07FFFF00",
    )?;
    // 15 before 16 before 17; in deep power-down 14, then 13; in a cycle 14, then 12
    run(
        rt,
        b"order",
        b"= 0 7 0;x 1 0 0A000010;x 1 0 0A00001055;x 1 0 B9;x 1 0 0A000010;x 1 0 9E;= 0 0 1;x 1 0 DB000000;x 1 0 E503;x 1 0 9E",
    )
}

// Page writes that are executed.
fn page_writes(rt: &impl Print) -> io::Result<()> {
    // named bytes become what was sent, 0 to 1 and 1 to 0, with the last tick; the others of the page stay
    run(
        rt,
        b"P9",
        b"x 1 0 0200000F3CF0FF3C;w 3;x 1 0 06;x 1 0 0A0000100FA5;s;w 1;s;w 1;s;a 000010;w 1;s;a 00000F;a 000010;a 000011;a 000012",
    )?;
    // the same bytes by a program: four bits are missing
    run(
        rt,
        b"P10",
        b"x 1 0 02000010F0;w 3;x 1 0 06;x 1 0 020000100FA5;w 3;a 000010;a 000011",
    )?;
    // equal bytes are a whole cycle
    run(rt, b"P11", b"x 1 0 0A000010FF;s;w 2;s;w 1;s;a 000010")?;
    // it wraps in its page
    run(
        rt,
        b"P12",
        b"x 1 0 0A0001FE112233;w 3;a 0001FD;a 0001FE;a 0001FF;a 000100;a 000101;a 000200",
    )?;
    // 257 data bytes: the last stands in the slot that the first had; the same by a program
    run(
        rt,
        b"P13",
        b"y 1 0 0A00008011 33 22;w 3;a 000080;a 000081;a 00007F;a 000000;a 0000FF;a 000100",
    )?;
    run(
        rt,
        b"P14",
        b"y 1 0 0200008011 33 22;w 3;a 000080;a 000081;a 00007F;a 000000;a 0000FF;a 000100",
    )?;
    // addresses are taken modulo 524,288
    run(
        rt,
        b"P17",
        b"x 1 0 0A08001099;w 3;a 000010;= 0 0 1;x 1 0 0AFFFFFF77;w 3;a 07FFFF",
    )
}

// Page, subsector and sector erases at the edges of their areas.
fn erases(rt: &impl Print) -> io::Result<()> {
    run(
        rt,
        b"P19",
        b"x 1 0 020000FF00;= 0 0 1;x 1 0 020001FF0000;= 0 0 1;x 1 0 0200020000;= 0 0 1;x 1 0 DB000180;s;w 2;s;a 000100;w 1;s;a 0000FF;a 000100;a 0001FF;a 000200",
    )?;
    run(
        rt,
        b"P21",
        b"x 1 0 02000FFF00;= 0 0 1;x 1 0 0200100000;= 0 0 1;x 1 0 02001FFF00;= 0 0 1;x 1 0 0200200000;= 0 0 1;x 1 0 20001ABC;s;w 4;s;a 001000;w 1;s;a 000FFF;a 001000;a 001FFF;a 002000",
    )?;
    run(
        rt,
        b"P34",
        b"x 1 0 0200FFFF00;= 0 0 1;x 1 0 0201000000;= 0 0 1;x 1 0 0201FFFF00;= 0 0 1;x 1 0 0202000000;= 0 0 1;x 1 0 D8018000;w 5;a 00FFFF;a 010000;a 01FFFF;a 020000",
    )?;
    // a bulk erase: 17 with any write lock or BP above 0, and lock-down alone does not stop it
    run(
        rt,
        b"P33",
        b"x 1 0 0A07000000;= 0 0 1;x 1 0 C7;s;w 9;s;a 070000;= 0 0 1;x 1 0 E505000001;x 1 0 06;x 1 0 C7;= 0 0 1;x 1 0 E505000002;x 1 0 06;x 1 0 C7;= 0 1 1;x 1 0 C7;x 1 0 E500000001;x 1 0 06;x 1 0 C7;x 1 0 C700",
    )
}

// What page write, page erase and subsector erase refuse: 15, 16, 17 by BP and by a write lock, and nothing by lock-down alone.
fn refused(rt: &impl Print) -> io::Result<()> {
    run(
        rt,
        b"P18",
        b"x 1 0 0A000010;x 1 1 0A00001055;= 0 0 0;x 1 0 0A00001055;= 0 7 0;x 1 0 0A00001055;= 0 1 1;x 1 0 0A07000055;s;x 1 0 0A06FFFF55;= 0 0 1;x 1 0 E507000001;x 1 0 06;x 1 0 0A07000055;s;= 0 0 1;x 1 0 E507000002;x 1 0 06;x 1 0 0A07000055",
    )?;
    run(
        rt,
        b"P20",
        b"x 1 0 DB0001;x 1 0 DB00018000;x 1 7 DB000180;= 0 0 0;x 1 0 DB000180;= 0 4 1;x 1 0 DB000180;= 0 3 1;x 1 0 DB03FF00;= 0 0 1;x 1 0 E500000001;x 1 0 06;x 1 0 DB000180;= 0 0 1;x 1 0 E500000002;x 1 0 06;x 1 0 DB000180",
    )?;
    run(
        rt,
        b"P22",
        b"x 1 0 20001A;x 1 0 20001ABC00;x 1 1 20001ABC;= 0 0 0;x 1 0 20001ABC;= 0 1 1;x 1 0 20070000;x 1 0 2006F000;= 0 0 1;x 1 0 E500000001;x 1 0 06;x 1 0 20001ABC;= 0 0 1;x 1 0 E500000002;x 1 0 06;x 1 0 20001ABC",
    )?;
    // a write lock stops all six, and nothing beside its sector
    run(
        rt,
        b"P32",
        b"x 1 0 E503000001;x 1 0 06;x 1 0 0A03000055;x 1 0 0203000055;x 1 0 DB030000;x 1 0 20030000;x 1 0 D8030000;x 1 0 C7;s;x 1 0 0A02FFFF55",
    )?;
    // in a page write all but 05 gives 12
    run(
        rt,
        b"P35",
        b"x 1 0 0A00000055;x 1 0 06;x 1 0 04;x 1 0 9F00;x 1 0 0100;x 1 0 E500000001;x 1 0 E800000000;x 1 0 0300000000;x 1 0 0B0000000000;x 1 0 0A00000066;x 1 0 0200000066;x 1 0 DB000000;x 1 0 20000000;x 1 0 D8000000;x 1 0 C7;x 1 0 B9;x 1 0 AB;x 1 0 0500;w 3;a 000000",
    )
}

// Lock registers read.
fn registers_read(rt: &impl Print) -> io::Result<()> {
    // from byte 4 on the register of the sector, again and again
    run(
        rt,
        b"P23",
        b"x 1 0 E507000003;x 1 0 E807000000;x 1 0 E807FFFF000000;x 1 5 E80700000000;x 1 0 E806FFFF00;x 1 0 E80F000000",
    )?;
    run(rt, b"P24", b"x 1 0 E8070000;x 1 0 E80700")?;
    // busy: 12, and 12 of P30
    run(
        rt,
        b"P25",
        b"x 1 0 DB000000;x 1 0 E800000000;x 1 0 E503000001;w 3;x 1 0 E803000000",
    )
}

// Lock registers written.
fn registers_written(rt: &impl Print) -> io::Result<()> {
    // written at once, with the latch reset, and its neighbours not
    run(
        rt,
        b"P26",
        b"x 1 0 E503FFFF01;s;x 1 0 E803000000;x 1 0 E802000000;x 1 0 E804000000",
    )?;
    // frozen: 19, also for the same value, with the latch kept; lock-down alone stops no program
    run(
        rt,
        b"P27",
        b"x 1 0 E503000001;x 1 0 06;x 1 0 E503000002;x 1 0 E803000000;x 1 0 06;x 1 0 E503000000;s;x 1 0 E503000002;x 1 0 E803000000;x 1 0 0203000000",
    )?;
    // bits 1 and 0 alone are taken
    run(
        rt,
        b"P28",
        b"x 1 0 E5030000FF;x 1 0 E803000000;= 0 0 1;x 1 0 E5030000FC;x 1 0 E803000000;= 0 0 1;x 1 0 E503000001;x 1 0 06;x 1 0 E503000000;x 1 0 E803000000;= 0 0 1;x 1 0 E5FB000001;x 1 0 E803000000",
    )?;
    // 15, 16, and 16 before 19
    run(
        rt,
        b"P29",
        b"x 1 0 E5030000;x 1 0 E50300000100;x 1 1 E503000001;= 0 0 0;x 1 0 E503000001;= 0 0 1;x 1 0 E503000003;x 1 0 E503000000",
    )?;
    // neither BP nor SRWD with W low stops it; W low stops a settings write, and the lock does not
    run(
        rt,
        b"P31",
        b"= 1 7 1;x 0 0 E503000001;x 0 0 E803000000;x 0 0 06;x 0 0 0100;x 1 0 0100",
    )
}

// Power: cycles cut and completed.
fn power(rt: &impl Print) -> io::Result<()> {
    // P36 and P37 with one byte throughout the mask: cut, the bytes named are ored with the mask and the others stay; completed by a power-up, they are what was sent
    run(
        rt,
        b"page-write-power",
        b"x 1 0 020000FEA0A0A0A0;= 0 0 1;x 1 0 02000100A0;= 0 0 1;x 1 0 0A0000FE112233;w 2;l 05 1;a 0000FE;a 0000FF;a 000000;a 000001;a 000100;s;x 1 0 06;x 1 0 0A0000FE112233;p;a 0000FE;a 0000FF;a 000000;a 000001;a 000100;s",
    )?;
    run(
        rt,
        b"P38",
        b"x 1 0 02000080A0;= 0 0 1;x 1 0 020000FFA0;= 0 0 1;x 1 0 02000100A0;= 0 0 1;y 1 0 0A00008011 33 22;l 05 0;a 000080;a 0000FF;a 000100;a 000001",
    )?;
    // as P39 and P40: a page erase cut with 05, then an erase of subsector 0 with 0A
    run(
        rt,
        b"erase-power",
        b"x 1 0 020000FFA0;= 0 0 1;x 1 0 020001FFA0A0;= 0 0 1;x 1 0 02000200A0;= 0 0 1;x 1 0 02001000A0;= 0 0 1;x 1 0 DB000180;l 05 1;a 0000FF;a 000100;a 0001FF;a 000200;x 1 0 06;x 1 0 20000ABC;l 0A 0;a 0000FF;a 000100;a 0001FF;a 000200;a 001000",
    )
}

// Lock registers over a power-up, a power loss, and all else.
fn lock_power(rt: &impl Print) -> io::Result<()> {
    // P41: frozen registers stay over a wait; a power-up, and a loss in deep power-down, make them 0
    run(
        rt,
        b"lock-power",
        b"x 1 0 E500000003;x 1 0 06;x 1 0 E507000003;x 1 0 06;x 1 0 E507000000;w 9;x 1 0 E807000000;p;x 1 0 E800000000;x 1 0 E807000000;s;x 1 0 06;x 1 0 E503000003;x 1 0 B9;s;l 00 1;s;x 1 0 E803000000;x 1 0 06;x 1 0 E503000001",
    )?;
    // the same in a cycle
    run(
        rt,
        b"P42",
        b"x 1 0 E507000003;x 1 0 06;x 1 0 0A00000055;p;a 000000;x 1 0 E807000000;s",
    )?;
    run(
        rt,
        b"P43",
        b"x 1 0 E507000003;x 1 0 06;x 1 0 0A00000055;l 00 1;a 000000;x 1 0 E807000000;s",
    )?;
    // over all else they stay
    run(
        rt,
        b"P44",
        b"x 1 0 E503000003;x 1 0 06;x 1 0 04;x 1 0 B9;x 1 0 AB;x 1 0 06;x 1 0 0A00000055;w 3;x 1 0 E803000000;x 1 0 06;x 1 0 E503000000",
    )
}

// All of them.
pub(crate) fn cases(rt: &impl Print) -> io::Result<()> {
    codes(rt)?;
    page_writes(rt)?;
    erases(rt)?;
    refused(rt)?;
    registers_read(rt)?;
    registers_written(rt)?;
    power(rt)?;
    lock_power(rt)
}
