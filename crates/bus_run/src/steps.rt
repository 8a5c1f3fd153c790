// One step at a time, run side by side through the entry that takes the row lent and through the entry by value.
use bus::PLACES;
use bus::lent::{transact_lent, wait_lent};
use chip::Answer;
use device::Device;
use std::io;

// How many bytes a response has at most.
const LINE: usize = 6;

// How many bytes a bench part has.
const CHIP: usize = 4_096;

// A wait of so many ticks, or a transaction with a chip and so many further pulses, with room for a response; W is high.
#[derive(Clone, Copy, Debug, PartialEq, Eq)]
pub enum Asked {
    Wait {
        ticks: u32,
    },
    Transact {
        chip: usize,
        pulses: u32,
        room: usize,
    },
}

// What is asked of how many chips.
#[derive(Clone, Copy, Debug, PartialEq, Eq)]
pub struct Step {
    pub chips: usize,
    pub asked: Asked,
}

// What an entry answered, and the response as it is then.
#[derive(Clone, Copy, Debug, PartialEq, Eq)]
struct Told {
    answer: Answer,
    line: [u8; LINE],
}

// A row of chips beside their bytes.
#[derive(Clone, Copy)]
struct Bus<const N: usize> {
    row: [Device; PLACES],
    array: [u8; N],
}

// The bus of each entry, and whether all was the same so far.
#[derive(Clone, Copy)]
pub struct Two<const N: usize> {
    lent: Bus<N>,
    plain: Bus<N>,
    pub same: bool,
}

// Nine bench parts as delivered, with durations 3, 5, 9, 2; chip 2 with this BP, of which there is none above 3.
fn delivered(bp: u8) -> [Device; PLACES] {
    let mut row = [Device::delivered(0, 3, 5, 9, 2); PLACES];
    row[2] = row[2].settled(false, bp);
    row
}

impl<const N: usize> Bus<N> {
    // Chips as delivered, beside bytes of FF.
    fn new() -> Self {
        Bus {
            row: delivered(0),
            array: [0xFF; N],
        }
    }

    // One step on a lent row.
    fn lent(&mut self, step: Step, sent: &[u8]) -> Told {
        let mut line = [0x55; LINE];
        // the row out and back: a part of a field lent on is not covered by the check yet
        let mut row = self.row;
        let chips = &mut row[..step.chips.min(PLACES)];
        let bytes = &mut self.array;
        let array = &mut bytes[..];
        let answer = match step.asked {
            Asked::Wait { ticks } => Answer::bare(wait_lent(chips, array, ticks)),
            Asked::Transact { chip, pulses, room } => {
                let response = &mut line[..room.min(LINE)];
                transact_lent(chips, chip, array, sent, pulses, true, response)
            }
        };
        self.row = row;
        Told { answer, line }
    }

    // The same on a row by value.
    fn plain(&mut self, step: Step, sent: &[u8]) -> Told {
        let mut line = [0x55; LINE];
        let row = self.row;
        let bytes = &mut self.array;
        let array = &mut bytes[..];
        let answer = match step.asked {
            Asked::Wait { ticks } => {
                let passed = bus::wait(row, step.chips, array, ticks);
                let next = passed.row;
                self.row = next;
                Answer::bare(passed.answer)
            }
            Asked::Transact { chip, pulses, room } => {
                let response = &mut line[..room.min(LINE)];
                let turned = bus::transact(
                    row, step.chips, chip, array, sent, pulses, true, response,
                );
                let next = turned.row;
                self.row = next;
                turned.answer
            }
        };
        Told { answer, line }
    }
}

impl Step {
    // The room that is printed of a response.
    fn room(self) -> usize {
        match self.asked {
            Asked::Wait { .. } => 0,
            Asked::Transact { room, .. } => room,
        }
    }

    // The step that five characters say: how many chips, w or the chip, the ticks or the further pulses, the room for a response, how many bytes are sent.
    fn read(s: &[u8]) -> Self {
        let chip = digit(s, 1);
        let number = digit(s, 2);
        let room = digit(s, 3);
        let asked = if slices::byte_at(s, 1) == b'w' {
            Asked::Wait {
                ticks: u32::from(number),
            }
        } else {
            Asked::Transact {
                chip: usize::from(chip),
                pulses: u32::from(number),
                room: usize::from(room),
            }
        };
        Step {
            chips: usize::from(digit(s, 0)),
            asked,
        }
    }

    // Prints what is asked.
    fn print(self, rt: &impl Print, sent: &[u8]) -> io::Result<()> {
        match self.asked {
            Asked::Wait { ticks } => print!(rt; "wait {ticks}")?,
            Asked::Transact { chip, pulses, .. } => {
                show::print_bytes(rt, slices::front(sent, LINE))?;
                show::print_choice(rt, sent.len() <= LINE, b" ", b".. ")?;
                print!(rt; "+{pulses} to chip {chip}")?;
            }
        }
        print!(rt; " of {}:", self.chips)
    }
}

impl Told {
    // Prints the answer, field by field, since `chip`, whose type it is, prints nothing; and as much of the response as there is room for.
    fn print(self, rt: &impl Print, room: usize) -> io::Result<()> {
        let x = self.answer;
        print!(rt; " {} {} {} {} ", x.number, x.first, x.count, x.missing)?;
        show::print_bytes(rt, slices::front(&self.line, room))
    }
}

// Prints an r for each place whose records differ, else a dash.
fn print_row(rt: &impl Print, row: &[Device], other: &[Device]) -> io::Result<()> {
    for (d, e) in row.iter().zip(other) {
        show::print_choice(rt, d == e, b"-", b"r")?;
    }
    Ok(())
}

// Prints an a for each chip whose bytes differ, else a dash.
fn print_chips(rt: &impl Print, array: &[u8], other: &[u8]) -> io::Result<()> {
    for (a, b) in array.chunks(CHIP).zip(other.chunks(CHIP)) {
        show::print_choice(rt, a == b, b"-", b"a")?;
    }
    Ok(())
}

// The digit at a place.
fn digit(s: &[u8], at: usize) -> u8 {
    slices::byte_at(s, at) % 16
}

impl<const N: usize> Two<N> {
    // Two buses as delivered.
    pub fn new() -> Self {
        Two {
            lent: Bus::new(),
            plain: Bus::new(),
            same: true,
        }
    }

    // The chips are as delivered again, chip 2 with this BP; the bytes stay.
    pub fn begin(&mut self, bp: u8) {
        self.lent.row = delivered(bp);
        self.plain.row = delivered(bp);
    }

    // One step through both entries; it is printed as the first one does it. Until the second one runs, its array is what the first one's was before.
    pub fn both(&mut self, rt: &impl Print, step: Step, sent: &[u8]) -> io::Result<()> {
        let row = self.lent.row;
        let told = self.lent.lent(step, sent);
        step.print(rt, sent)?;
        told.print(rt, step.room())?;
        rt.write_all(b" ")?;
        print_row(rt, &row, &self.lent.row)?;
        rt.write_all(b" ")?;
        print_chips(rt, &self.lent.array, &self.plain.array)?;
        rt.write_all(b"\n")?;
        let again = self.plain.plain(step, sent);
        self.same &= told == again
            && self.lent.row == self.plain.row
            && self.lent.array == self.plain.array;
        Ok(())
    }

    // The steps of a script, each followed by the bytes sent.
    pub fn run(&mut self, rt: &impl Print, script: &[u8]) -> io::Result<()> {
        let mut rest = script;
        // a `while`, and nothing counted: each step says its own length
        while !rest.is_empty() {
            let (head, tail) = rest.split_at(rest.len().min(5));
            let count = usize::from(digit(head, 4));
            let (sent, next) = tail.split_at(tail.len().min(count));
            self.both(rt, Step::read(head), sent)?;
            rest = next;
        }
        Ok(())
    }
}
