// Chip images: an array as blocks of 512 bytes with sums, written, read and salvaged.
#![tactic(auto)]

ghost use Rattle.std.specs.Prelude.{◌≡◌, ◌+◌, ◌*◌, ◌/◌, ◌%◌, ◌<◌, ◌≤◌, length, drop, get_or, slice_get};
ghost use Rattle.std.specs.Slice.Iter.{chunk_count};
ghost use Rattle.slices.specs.Changed.{map_at};
ghost use Rattle.refusals.specs.Numbers.{number_of, answer_of};
ghost use Rattle.image.specs.Sums.{sums_of};
ghost use Rattle.image.specs.Blocks.{filled_up, block_of, sums_in, reason_of};
ghost use Rattle.image.specs.Faults.{number_of as fault_number, reason_in};
ghost use Rattle.image.specs.Images.{imaged, unimaged, bad_places};
ghost use Rattle.image.specs.Calls.{blocks_of, copy_number, salvage_number, reply, Written, Read, Salvaged};
ghost use Rattle.image.specs.Steps.{part_imaged, BlockSalvaged, Noted, AllSalvaged};

use parts::Figures;
use refusals::Refusal;

// The two sums of a block.
#[derive(Clone, Copy, Debug, PartialEq, Eq)]
pub struct Sums {
    pub first: u16,
    pub second: u16,
}

// Why a block is bad: its number is not its place, or a sum is wrong.
#[derive(Clone, Copy, Debug, PartialEq, Eq)]
enum Fault {
    Number = 1,
    Sum = 2,
}

// The number that gives the reason in a salvage's list.
impl From<Fault> for u8 {
    ghost from_gives = { λ fault number. number ≡ fault_number fault };

    fn from(fault: Fault) -> u8 {
        fault as u8
    }
}

// An answer and a number of blocks: with 33 the place of the first bad one, with a salvage's 0 how many were bad.
// The answer is a number: `Read`, `Salvaged` and `with_blocks`, of which the theorems speak, have it so.
#[derive(Clone, Copy, Debug, PartialEq, Eq)]
pub struct Reply {
    pub answer: u8,
    pub blocks: usize,
}

// The two sums of a block's bytes; both wrap at 65,536.
fn sums_of(number: usize, bytes: &[u8]) -> Sums
    ensures { result ≡ sums_of number bytes.now }
{
    let mut first = (number % 65_536) as u16;
    let mut second: u16 = 0;
    for byte in bytes {
        first = first.wrapping_add(u16::from(*byte));
        second = second.wrapping_add(first);
    }
    Sums { first, second }
}

// 504 bytes: those of a part of the array, and FF where it has none.
#[tactic(auto, unfolding(crate::specs::Blocks::filled_up))]
fn filled_up(part: &[u8]) -> [u8; 504]
    ensures { result ≡ filled_up part.now }
{
    let mut bytes = [0xFFu8; 504];
    slices::copy(&mut bytes, part);
    bytes
}

// Writes a block: its number, its sums, and a part of the array, filled up with FF.
// 512 bytes by a clause here and below: a part of a slice becomes a `&mut [u8; 512]` through an option, whose `None` no call takes.
fn write_block(block: &mut [u8], number: usize, part: &[u8])
    requires { length block.old ≡ 512 }
    ensures { block.new ≡ block_of number (filled_up part.now) }
{
    let bytes = filled_up(part);
    let sums = sums_of(number, &bytes);
    slices::store(block, 0, &number.to_le_bytes()[..4]);
    slices::store(block, 4, &sums.first.to_le_bytes());
    slices::store(block, 6, &sums.second.to_le_bytes());
    slices::store(block, 8, &bytes);
}

// The sums that stand in a block.
fn sums_in(block: &[u8]) -> Sums
    requires { length block.now ≡ 512 }
    ensures { result ≡ sums_in block.now }
{
    Sums {
        first: u16::from_le_bytes([block[4], block[5]]),
        second: u16::from_le_bytes([block[6], block[7]]),
    }
}

// Whether a block is good at a place.
#[tactic(auto, using(crate::proofs::Blocks::bad_number))]
fn check(place: usize, block: &[u8]) -> Result<(), Fault>
    requires { length block.now ≡ 512 }
    ensures { reason_in result ≡ reason_of place block.now }
{
    if slices::word_at(block, 0) as usize != place {
        return Err(Fault::Number);
    }
    if sums_in(block) != sums_of(place, &block[8..]) {
        return Err(Fault::Sum);
    }
    Ok(())
}

// A bad block gets FF for its bytes of the array and a right head; a good one stays.
#[tactic(auto, using(crate::proofs::Blocks::kept, crate::proofs::Blocks::anew))]
fn salvage_block(block: &mut [u8], place: usize) -> Result<(), Fault>
    requires { length block.old ≡ 512 }
    ensures { BlockSalvaged place block.old (reason_in result) block.new }
{
    let found = check(place, block);
    if found.is_err() {
        write_block(block, place, b"");
    }
    found
}

// The bytes of a block behind its head, as far as there is room.
fn read_block(out: &mut [u8], block: &[u8; 512])
    ensures { out.new ≡ map_at (get_or (drop 8 block.now)) out.old }
{
    slices::copy(out, &block[8..]);
}

// The image of an array.
fn write_all(image: &mut [u8], array: &[u8])
    requires { length image.old ≡ chunk_count (length array.now) 504 * 512 }
    ensures { image.new ≡ map_at (imaged array.now) image.old }
{
    // the image by the place: what `chunks_mut` lends out leaves nothing known of the slice
    for (place, part) in array.chunks(504).enumerate() {
        let at = place * 512;
        write_block(&mut image[at..at + 512], place, part);
    }
}

// The array of an image, whether its blocks are good or not.
fn read_all(array: &mut [u8], image: &[u8])
    requires { (length image.now / 512 * 504 < length array.old + 504) × (length array.old ≤ length image.now / 512 * 504) }
    ensures { array.new ≡ map_at (unimaged image.now) array.old }
{
    let (blocks, _) = image.as_chunks::<512>();
    // the array by the place: what `chunks_mut` lends out leaves nothing known of the slice
    for (place, block) in blocks.iter().enumerate() {
        let from = place * 504;
        let to = (from + 504).min(array.len());
        read_block(&mut array[from..to], block);
    }
}

// The place of the first bad block, where there is one.
fn first_bad(image: &[u8]) -> Option<usize>
    ensures { result ≡ slice_get (bad_places image.now (length image.now / 512)) 0 }
{
    let (blocks, _) = image.as_chunks::<512>();
    for (place, block) in blocks.iter().enumerate() {
        if check(place, block).is_err() {
            return Some(place);
        }
    }
    None
}

// Notes a bad block at byte `at` of the list, its number and the reason; the next free byte.
// The place goes in and out: a struct for one function and one caller would be no plainer.
fn note(list: &mut [u8], at: usize, place: usize, found: Result<(), Fault>) -> usize
    requires { at + 8 ≤ length list.old }
    ensures { Noted list.old at place (reason_in found) result list.new }
{
    let Err(fault) = found else {
        return at;
    };
    let why = u32::from(u8::from(fault));
    slices::store(list, at, &place.to_le_bytes()[..4]);
    slices::store(list, at + 4, &why.to_le_bytes());
    at + 8
}

// Salvages each block, and lists the bad ones; the bytes of the list that were used.
fn salvage_all(image: &mut [u8], list: &mut [u8]) -> usize
    requires { (length image.old % 512 ≡ 0) × (length image.old / 512 * 8 ≤ length list.old) }
    ensures { AllSalvaged (length image.old / 512) image.old list.old result image.new list.new }
{
    let mut at: usize = 0;
    // by the place: what `as_chunks_mut` and `chunks_mut` lend out leaves nothing known of the slice
    for place in 0..image.len() / 512 {
        let from = place * 512;
        let found = salvage_block(&mut image[from..from + 512], place);
        at = note(list, at, place, found);
    }
    at
}

// How many blocks a part's image has.
#[tactic(auto, unfolding(crate::specs::Calls::blocks_of))]
fn blocks_of(part: u8) -> usize
    ensures { result ≡ blocks_of part }
{
    Figures::of(part).bytes.div_ceil(504)
}

// The part of this number, where an image of so many bytes may be its.
#[tactic(auto, using(crate::proofs::Calls::blocks_few))]
fn part_imaged(part: u32, image: usize) -> Result<u8, Refusal>
    ensures { result ≡ part_imaged part image }
{
    let part = match u8::try_from(part) {
        Ok(part) if parts::known(part) => part,
        _ => return Err(Refusal::NoImage),
    };
    if image != blocks_of(part) * 512 {
        return Err(Refusal::ImageLength);
    }
    Ok(part)
}

// Whether a writer's or a reader's call may look at blocks.
#[tactic(auto, unfolding(crate::specs::Calls::copy_number))]
fn may_copy(part: u32, array: usize, image: usize) -> Result<(), Refusal>
    ensures { answer_of result ≡ copy_number part array image }
{
    let part = part_imaged(part, image)?;
    if array != Figures::of(part).bytes {
        return Err(Refusal::ArrayLength);
    }
    Ok(())
}

// Whether a salvage's call may look at blocks.
#[tactic(auto, unfolding(crate::specs::Calls::salvage_number))]
fn may_salvage(part: u32, image: usize, list: usize) -> Result<(), Refusal>
    ensures { answer_of result ≡ salvage_number part image list }
{
    let part = part_imaged(part, image)?;
    if list / 8 < blocks_of(part) {
        return Err(Refusal::ListShort);
    }
    Ok(())
}

// Writes the image of an array. The answer is a number: `Written`, of which the theorems speak, has it so.
#[tactic(auto, using(crate::proofs::Calls::copy_fits, crate::proofs::Calls::blocks_needed, crate::proofs::Calls::blocks_hold))]
pub fn write(part: u32, array: &[u8], image: &mut [u8]) -> u8
    ensures { Written part array.now image.old result image.new }
{
    if let Err(refusal) = may_copy(part, array.len(), image.len()) {
        return refusal.into();
    }
    write_all(image, array);
    0
}

// The reply to a call that is refused.
fn refused(refusal: Refusal, blocks: usize) -> Reply
    ensures { result ≡ reply (number_of refusal) blocks }
{
    Reply {
        answer: refusal.into(),
        blocks,
    }
}

// Reads the array of an image whose blocks are all good.
pub fn read(part: u32, image: &[u8], array: &mut [u8]) -> Reply
    ensures { Read part image.now array.old result array.new }
{
    if let Err(refusal) = may_copy(part, array.len(), image.len()) {
        return refused(refusal, 0);
    }
    if let Some(place) = first_bad(image) {
        return refused(Refusal::BadBlock, place);
    }
    read_all(array, image);
    Reply {
        answer: 0,
        blocks: 0,
    }
}

// Salvages an image, and lists the blocks that were bad.
pub fn salvage(part: u32, image: &mut [u8], list: &mut [u8]) -> Reply
    ensures { Salvaged part image.old list.old result image.new list.new }
{
    if let Err(refusal) = may_salvage(part, image.len(), list.len()) {
        return refused(refusal, 0);
    }
    Reply {
        answer: 0,
        blocks: salvage_all(image, list) / 8,
    }
}
