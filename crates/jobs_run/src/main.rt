// Runs lists of jobs on the bench part, neighbours swapped and not, and writes the answers with the bits missing, whether the arrays end the same, and byte 16 of each; then a list on an M25PE40 with a locked sector.
#![tactic(auto)]

ghost use Rattle.std.specs.Prelude.{◌<◌, ◌^◌};

use chip::lent::transact_lent;
use device::Device;
use slices::byte_at;
use std::io;

// A chip: its record, and the array lent to it.
#[derive(Drop)]
struct Chip<'a> {
    device: Device,
    array: &'a mut [u8],
}

impl<'a> Chip<'a> {
    // A delivered part.
    fn delivered(part: u32, array: &'a mut [u8]) -> Self {
        let delivered = chip::deliver(part, array, 3, 5, 9, 2);
        Chip {
            device: delivered.device,
            array,
        }
    }

    // One transaction.
    fn send(&mut self, sent: &[u8]) {
        let mut response = [0; 16];
        transact_lent(&mut self.device, self.array, sent, 0, true, &mut response);
    }

    // The settings written: a write enable, the instruction, a wait.
    fn set(&mut self, settings: &[u8]) {
        self.send(b"\x06");
        self.send(settings);
        self.device = self.device.wait(self.array, 2).device;
    }

    // One job, its answer number and the bits missing written.
    fn step(&mut self, rt: &impl Print, sent: &[u8]) -> io::Result<()> {
        let mut response = [0; 16];
        let done = jobs::run_job(self.device, self.array, sent, 0, true, &mut response);
        self.device = done.device;
        print!(rt; " {}/{}", done.answer.number, done.answer.missing)
    }

    // Two jobs.
    fn pair(&mut self, rt: &impl Print, first: &[u8], second: &[u8]) -> io::Result<()> {
        self.step(rt, first)?;
        self.step(rt, second)
    }
}

// A delivered part with these settings, and two jobs between a program before and one after.
fn list(
    rt: &impl Print,
    array: &mut [u8],
    settings: &[u8],
    first: &[u8],
    second: &[u8],
) -> io::Result<()> {
    let mut chip = Chip::delivered(0, array);
    chip.set(settings);
    chip.pair(rt, b"\x02\x00\x00\x10\x7F", first)?;
    chip.pair(rt, second, b"\x02\x00\x04\x00\x3C")
}

// Two jobs in both orders, and what the two orders left.
fn both_ways(rt: &impl Print, settings: &[u8], first: &[u8], second: &[u8]) -> io::Result<()> {
    let mut a = [0; 4096];
    let mut b = [0; 4096];
    list(rt, &mut a, settings, first, second)?;
    rt.write_all(b" |")?;
    list(rt, &mut b, settings, second, first)?;
    show::print_choice(rt, a == b, b" same", b" differ")?;
    println!(rt; " {:02x} {:02x}", a[16], b[16])
}

// Prints the last byte of sector 2 and the first of sector 3.
fn print_edge(rt: &impl Print, array: &[u8]) -> io::Result<()> {
    let last = byte_at(array, 0x02_FFFF);
    let first = byte_at(array, 0x03_0000);
    println!(rt; " {last:02x}{first:02x}")
}

// An M25PE40 with the lock register of sector 3 written; two programs in sector 2, one in sector 3, a bulk erase.
fn beside<const BYTES: usize>(rt: &impl Print, register: &[u8]) -> io::Result<()>
    requires { BYTES < 2 ^ 63 }
{
    // a clause of each array of `BYTES` bytes; of a length written out each byte would be computed
    let mut array = [0; BYTES];
    let mut chip = Chip::delivered(6, &mut array);
    chip.send(b"\x06");
    chip.send(register);
    chip.pair(rt, b"\x02\x02\xFF\xFF\x55", b"\x02\x02\xFF\xFF\xF0")?;
    chip.pair(rt, b"\x02\x03\x00\x00\x3C", b"\xC7")?;
    print_edge(rt, &array)
}

fn main(rt: HostRuntime) -> io::Result<()> {
    // two programs on one byte
    both_ways(
        &rt,
        b"\x01\x00",
        b"\x02\x00\x00\x10\xF0",
        b"\x02\x00\x00\x10\xAA",
    )?;
    // two erases, one of them of everything
    both_ways(&rt, b"\x01\x00", b"\xD8\x00\x00\x00", b"\xC7")?;
    // a program and an erase of another sector
    both_ways(
        &rt,
        b"\x01\x00",
        b"\x02\x00\x00\x10\xF0",
        b"\xD8\x00\x04\x00",
    )?;
    // a program and an erase of its own sector, which may not change places
    both_ways(
        &rt,
        b"\x01\x00",
        b"\x02\x00\x00\x10\xF0",
        b"\xD8\x00\x00\x00",
    )?;
    // a program and a bulk erase, which may not change places
    both_ways(&rt, b"\x01\x00", b"\x02\x00\x00\x10\xF0", b"\xC7")?;
    // BP 1: a program in the protected sector and a program without data
    both_ways(
        &rt,
        b"\x01\x04",
        b"\x02\x00\x0C\x00\x00",
        b"\x02\x00\x00\x10",
    )?;
    // BP 1: a bulk erase and a sector erase
    both_ways(&rt, b"\x01\x04", b"\xC7", b"\xD8\x00\x00\x00")?;
    // a write lock stops the program in its sector and the bulk erase
    beside::<524_288>(&rt, b"\xE5\x03\x00\x00\x01")?;
    // lock-down alone stops nothing
    beside::<524_288>(&rt, b"\xE5\x03\x00\x00\x02")
}
