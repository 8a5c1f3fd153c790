// The memory of a part: the page latch, programming and erasing, whole or cut, and reading. Every function is total: a byte that is not there is not changed.
#![tactic(auto)]

ghost use Rattle.std.specs.Prelude.{◌≡◌, cond, ℕ, ◌+◌, ◌/◌, ◌<◌, eqb, length, get_or};
ghost use Rattle.slices.specs.Changed.{map_at, window, put, sum_at};
ghost use Rattle.memory.specs.Memory.{blank, filled, anded, programmed, named, placed, replaced, erased, ored, cut_page, cut_write, cut_sector, rolled};
ghost use Rattle.memory.specs.Missing.{unmet, page_of, missing};

// A latch after the data: byte k in slot (address + k) mod 256, a later byte in place of an earlier.
fn fill_slots(latch: [u8; 256], bytes: &[u8], address: u32) -> [u8; 256]
    ensures { result ≡ filled latch address bytes.now }
{
    let mut slots = latch;
    let first = address as usize;
    for (k, byte) in bytes.iter().enumerate() {
        slots[(first + k) % 256] = *byte;
    }
    slots
}

// The page latch, all FF at first, after the data.
pub fn page_latch(bytes: &[u8], address: u32) -> [u8; 256]
    ensures { result ≡ filled blank address bytes.now }
{
    fill_slots([0xFF; 256], bytes, address)
}

// Each of `count` bytes from `from` on, as far as there are any, becomes what `change` makes of its place and of itself.
fn change_part<F: Fn(usize, u8) -> u8>(array: &mut [u8], from: usize, count: usize, change: F)
    requires { F.IsAlwaysCallable change }
    ensures { (g : ℕ → ℕ → ℕ) → ((i x r : ℕ) → i < length array.old → x < 256 → F.post change i x r → r ≡ g i x) → array.new ≡ map_at (window from (from + count) g) array.old }
{
    let start = from.min(array.len());
    let end = start + count.min(array.len() - start);
    let part = &mut array[start..end];
    for (k, x) in part.iter_mut().enumerate() {
        *x = change(start + k, *x);
    }
}

// The same of the sector of `size` bytes that an address lies in; with no size, the whole array is one sector. A page is a sector of 256 bytes.
fn change_sector<F: Fn(usize, u8) -> u8>(array: &mut [u8], size: usize, address: usize, change: F)
    requires { F.IsAlwaysCallable change }
    ensures { (g : ℕ → ℕ → ℕ) → ((i x r : ℕ) → i < length array.old → x < 256 → F.post change i x r → r ≡ g i x) → array.new ≡ map_at (λ i x. cond (eqb (i / size) (address / size)) (g i x) x) array.old }
{
    if size == 0 {
        change_part(array, 0, array.len(), change);
    } else {
        change_part(array, address / size * size, size, change);
    }
}

// Programs the page of an address.
pub fn program_page(array: &mut [u8], address: usize, slots: [u8; 256])
    ensures { array.new ≡ map_at (programmed address slots) array.old }
{
    change_sector(array, 256, address, |i, x| x & slots[i % 256]);
}

// Whether place `i` is among the `count` that a page write from an address on names.
fn named(address: usize, count: usize, i: usize) -> bool
    ensures { result ≡ named address count i }
{
    (i % 256 + (256 - address % 256)) % 256 < count
}

// Writes the page of an address: the bytes that are named become their slots, the others stay.
pub fn write_page(array: &mut [u8], address: usize, count: usize, slots: [u8; 256])
    ensures { array.new ≡ map_at (replaced address count slots) array.old }
{
    // the slot is taken before the test, so that the loop has no branch
    change_sector(array, 256, address, |i, x| {
        let slot = slots[i % 256];
        if named(address, count, i) { slot } else { x }
    });
}

// How many bits are 1 in a slot and 0 in its byte, over a page or what there is of it.
fn unmet_in(page: &[u8], slots: [u8; 256]) -> u32
    ensures { result ≡ sum_at (λ k x. unmet (get_or slots k 0) x) page.now }
{
    slots
        .iter()
        .zip(page)
        .map(|(slot, x)| (*slot & !*x).count_ones())
        .sum()
}

// How many bits the data wants 1 that are 0 in the page of an address. The latch is all 00 at first here: where no data went, nothing is wanted.
pub fn missing(array: &[u8], address: u32, bytes: &[u8]) -> u32
    ensures { result ≡ missing address bytes.now (page_of address array.now) }
{
    let slots = fill_slots([0; 256], bytes, address);
    let from = address as usize / 256 * 256;
    unmet_in(slices::front(slices::after(array, from), 256), slots)
}

// The whole array becomes FF.
pub fn erase_all(array: &mut [u8])
    ensures { array.new ≡ map_at (put 255) array.old }
{
    slices::fill(array, 0xFF);
}

// The sector of `size` bytes that an address lies in becomes FF; with no size, the whole array is one sector.
pub fn erase_sector(array: &mut [u8], size: usize, address: usize)
    ensures { array.new ≡ map_at (erased size address) array.old }
{
    change_sector(array, size, address, |_, _| 0xFF);
}

// Cuts an erase of the sector of `size` bytes that an address lies in: each byte or the mask at its offset in the page; with no size, the whole array is one sector.
pub fn cut_sector(array: &mut [u8], size: usize, address: usize, mask: &[u8])
    ensures { array.new ≡ map_at (cut_sector size address mask.now) array.old }
{
    change_sector(array, size, address, |i, x| {
        x | slices::byte_at(mask, i % 256)
    });
}

// Cuts an erase of the whole array: each byte or the mask.
pub fn cut_all(array: &mut [u8], mask: &[u8])
    ensures { array.new ≡ map_at (ored mask.now) array.old }
{
    cut_sector(array, 0, 0, mask);
}

// Cuts a program of the page of an address: a program of the slots, each or the mask.
pub fn cut_page(array: &mut [u8], address: usize, slots: [u8; 256], mask: &[u8])
    ensures { array.new ≡ map_at (cut_page address slots mask.now) array.old }
{
    let mut reached = slots;
    cut_all(&mut reached, mask);
    program_page(array, address, reached);
}

// Cuts a write of the page of an address: a write of the page as it is, each byte or the mask.
pub fn cut_write(array: &mut [u8], address: usize, count: usize, mask: &[u8])
    ensures { array.new ≡ map_at (cut_write address count mask.now) array.old }
{
    let mut reached = [0; 256];
    slices::copy(&mut reached, slices::after(array, address / 256 * 256));
    cut_all(&mut reached, mask);
    write_page(array, address, count, reached);
}

// `out` becomes the bytes from an address on, in straight runs: from the last byte on to byte 0.
pub fn read_rolling(array: &[u8], address: usize, out: &mut [u8])
    ensures { out.new ≡ map_at (λ i x. rolled array.now address i) out.old }
{
    if array.is_empty() {
        slices::fill(out, 0xFF);
        return;
    }
    let start = address % array.len();
    slices::copy(out, slices::after(array, start));
    for from in (array.len() - start..out.len()).step_by(array.len()) {
        slices::store(out, from, array);
    }
}
