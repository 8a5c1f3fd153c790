// A row of packed records, one after another.
ghost use Rattle.std.specs.Prelude.{◌≡◌, true, ◌++◌, ◌+◌, ◌≤◌, ◌*◌, ◌/◌, length, take, drop};
ghost use Rattle.bus.specs.Bus.{all_sound};
ghost use Rattle.m25p.specs.Bus.{records_in, packed_row};

use bus::PLACES;
use device::Device;
use device::packing::{LENGTH, unpack};

// The records of a row, as far as there are places for them.
pub(crate) fn read(row: &[u8]) -> [Device; PLACES]
    ensures { take (length row.now / 304) result ≡ take 9 (records_in row.now) }
{
    let mut records = [Device::zero(); PLACES];
    let (packings, _) = row.as_chunks::<LENGTH>();
    let first = &packings[..packings.len().min(PLACES)];
    // the records by the index: a `zip` with `iter_mut` leaves nothing known of them
    for (at, packed) in first.iter().enumerate() {
        records[at] = unpack(packed).device;
    }
    records
}

// Sound records written one after another, from place `first` of the row on. The place is beside the row, since `BusedC` speaks of the whole row.
pub(crate) fn write(records: &[Device], first: usize, row: &mut [u8])
    requires { ((first + length records.now) * 304 ≤ length row.old) × (all_sound records.now ≡ true) }
    ensures { row.new ≡ take (first * 304) row.old ++ (packed_row records.now ++ drop ((first + length records.now) * 304) row.old) }
{
    // the bytes by their place: what `as_chunks_mut` lends out leaves nothing known of the slice
    let mut from = first * LENGTH;
    for record in records {
        let to = from + LENGTH;
        device::packing::write(*record, &mut row[from..to]);
        from = to;
    }
}
