// Runs bench parts on one bus through the entries that take the row lent, and on the same input through the entries by value: the numbers in their order, then cycles of one chip, and of two at once.
//
// A line is a transaction: the bytes sent, the further pulses, the chosen chip and how many there are, then the answer (number, first, count, bits missing), the response and the marks; or a wait of all: the ticks and how many chips, the answer and the marks.
// Marks: r for each of the nine places whose record changed, a for each chip whose bytes changed. A response holds 55 in each byte before.
// The last line says whether answers, rows, arrays and responses of both entries were the same at each step.
#![tactic(auto)]

mod steps;

use std::io;
use steps::{Asked, Step, Two};

fn main(rt: HostRuntime) -> io::Result<()> {
    let mut buses = Two::<12_288>::new();
    // no chip: 51, from waiting, too; nine: 51, before the 52 of chip 9; eight are not too many, but three chips' bytes too few: 53
    // chip 3 of three: 52; two bytes and room for one: 4 with eight further pulses, 5 with none
    buses.run(
        &rt,
        b"00062\x05\x000w10099062\x05\x009w10087062\x05\x0033062\x05\x0030812\x05\x0030012\x05\x00",
    )?;
    // the largest number as the chip: 52
    let far = Step {
        chips: 3,
        asked: Asked::Transact {
            chip: usize::MAX,
            pulses: 0,
            room: 6,
        },
    };
    buses.both(&rt, far, b"\x05\x00")?;
    // a byte too few or too many: 53, before 4 and from waiting, too; 52 before it
    let mut short = Two::<12_287>::new();
    short.run(&rt, b"30812\x05\x003w10033062\x05\x00")?;
    let mut long = Two::<12_289>::new();
    long.run(&rt, b"30812\x05\x003w100")?;
    // chip 2 is not sound: 6 with chip 0, before 4 and from waiting, too; before the 53 of four chips on the bytes of three; 52 and 51 before it
    buses.begin(4);
    buses.run(
        &rt,
        b"30812\x05\x003w10040062\x05\x0033062\x05\x0090062\x05\x00",
    )?;
    // chip 1's latch is set and no other's: chip 0 ignores a program; chip 1 starts one, and the others stay idle; its byte is there with the third tick
    // then a program of chip 0 takes 3 ticks, an erase of chip 1 takes 5: three end one, and two more the other
    buses.begin(0);
    buses.run(
        &rt,
        b"31061\x0630062\x05\x0031062\x05\x0032062\x05\x0030065\x02\x00\x00\x10\x0031065\x02\x00\x00\x10\x5A30062\x05\x0031062\x05\x0032062\x05\x003w2003w10031065\x03\x00\x00\x10\x0032065\x03\x00\x00\x10\x0030061\x0630065\x02\x00\x00\x10\xF031061\x0631064\xD8\x00\x00\x003w30030062\x05\x0031062\x05\x003w200",
    )?;
    let same = buses.same && short.same && long.same;
    show::print_choice(&rt, same, b"same\n", b"differ\n")
}
