// The bench program: it reads lines, hands each to the bench part, and prints the answers. What a line asks and how an answer is printed stands in `script`.
#![tactic(auto)]

use device::Device;
use script::Command;
use slices::front;
use std::io::{self, Read};

// The answer to a line that asks nothing. Answers are numbers here, as they are printed; this one is the bench's own and no refusal's.
const MALFORMED: u8 = 90;

// The characters of a line so far. The buffer is one longer than a line may be, and what comes past its end is dropped.
// Fixed memory, here and below: nothing in this repository allocates.
#[derive(Drop)]
struct Line {
    bytes: [u8; 601],
    len: usize,
}

impl Line {
    // One more character.
    fn push(&mut self, b: u8) {
        if self.len < self.bytes.len() {
            self.bytes[self.len] = b;
            self.len += 1;
        }
    }
}

// Text that waits to be written.
#[derive(Drop)]
struct Output {
    bytes: [u8; 8192],
    len: usize,
}

impl Output {
    // Writes what waits.
    fn flush(&mut self, rt: &impl Print) -> io::Result<()> {
        rt.write_all(front(&self.bytes, self.len))?;
        self.len = 0;
        Ok(())
    }

    // Room for a line: where there may be too little, what waits is written first. A line has at most 620 characters.
    fn room(&mut self, rt: &impl Print) -> io::Result<()> {
        if self.bytes.len() < self.len.saturating_add(640) {
            self.flush(rt)?;
        }
        Ok(())
    }

    // The line that answers line `number`.
    fn answer(
        &mut self,
        rt: &impl Print,
        number: u64,
        answer: u8,
        driven: &[u8],
    ) -> io::Result<()> {
        self.room(rt)?;
        self.len = script::print_answer(number, answer, driven, &mut self.bytes, self.len);
        Ok(())
    }

    // The line that ends the output.
    fn end(&mut self, rt: &impl Print, lines: u64) -> io::Result<()> {
        self.room(rt)?;
        self.len = script::print_end(lines, &mut self.bytes, self.len);
        self.flush(rt)
    }
}

// The bench: its chip, the bytes of a transaction, the lines answered, the line that comes in, and what goes out.
#[derive(Drop)]
struct Bench {
    device: Device,
    array: [u8; 4096],
    sent: [u8; 300],
    response: [u8; 300],
    lines: u64,
    line: Line,
    output: Output,
}

impl Bench {
    // The bench part as delivered.
    fn new() -> Bench {
        let mut array = [0u8; 4096];
        let fresh = chip::deliver(0, &mut array, 3, 5, 9, 2);
        Bench {
            device: fresh.device,
            array,
            sent: [0; 300],
            response: [0; 300],
            lines: 0,
            line: Line {
                bytes: [0; 601],
                len: 0,
            },
            output: Output {
                bytes: [0; 8192],
                len: 0,
            },
        }
    }

    // The first `n` bytes of `sent` as a transaction: its answer, and how many bytes there are. No line has more bytes than `sent` has room for.
    fn exchange(&mut self, w: bool, pulses: u8, n: usize) -> (u8, usize) {
        let count = n.min(self.sent.len());
        let done = chip::transact(
            self.device,
            &mut self.array,
            front(&self.sent, count),
            u32::from(pulses),
            w,
            &mut self.response,
        );
        self.device = done.device;
        (done.answer.number, count)
    }

    // A wait of `t` ticks: its answer.
    fn wait(&mut self, t: u32) -> u8 {
        let done = self.device.wait(&mut self.array, t);
        self.device = done.device;
        done.answer
    }

    // A power-up: its answer.
    fn power_up(&mut self) -> u8 {
        let done = self.device.power_up(&mut self.array);
        self.device = done.device;
        done.answer
    }

    // Does what the line asks: the answer, and how many response bytes there are. A malformed line changes nothing.
    fn act(&mut self) -> (u8, usize) {
        match script::parse(front(&self.line.bytes, self.line.len), &mut self.sent) {
            Command::Exchange { w, pulses, n } => self.exchange(w, pulses, n),
            Command::Wait(t) => (self.wait(t), 0),
            Command::PowerUp => (self.power_up(), 0),
            Command::Malformed => (MALFORMED, 0),
        }
    }

    // One line, whole: what it asks is done, its answer joins the text that waits, and the next line begins.
    fn reply(&mut self, rt: &impl Print) -> io::Result<()> {
        let (answer, count) = self.act();
        self.lines = self.lines.wrapping_add(1);
        self.line.len = 0;
        self.output
            .answer(rt, self.lines, answer, front(&self.response, count))
    }

    // A chunk of input: a newline ends the line, any other byte goes to it.
    fn feed(&mut self, rt: &impl Print, chunk: &[u8]) -> io::Result<()> {
        for b in chunk {
            if *b == b'\n' {
                self.reply(rt)?;
            } else {
                self.line.push(*b);
            }
        }
        Ok(())
    }

    // Reads to the end of the input; the lines that a read brings whole are answered before the next read.
    fn run(&mut self, rt: &impl Print, reader: &mut impl Read) -> io::Result<()> {
        let mut chunk = [0u8; 4096];
        // counted, and no `loop`: one without an end would need a handle
        for _ in 0..u64::MAX {
            let n = reader.read(&mut chunk)?;
            if n == 0 {
                break;
            }
            self.feed(rt, &chunk[..n])?;
            self.output.flush(rt)?;
        }
        Ok(())
    }

    // The last line, where it has characters and no newline, and the line that ends the output.
    fn end(&mut self, rt: &impl Print) -> io::Result<()> {
        if 0 < self.line.len {
            self.reply(rt)?;
        }
        self.output.end(rt, self.lines)
    }
}

fn main(rt: HostRuntime) -> io::Result<()> {
    rt.write_all(b"n ans q\n")?;
    let mut bench = Bench::new();
    bench.run(&rt, &mut rt.reader())?;
    bench.end(&rt)
}
