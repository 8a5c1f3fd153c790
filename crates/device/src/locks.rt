// The lock registers: one for each sector of an M25PE part, zero on the others. Bit 0 stops writing in its sector, bit 1 freezes the register.
ghost use Rattle.std.specs.Prelude.{◌≡◌, ◌/◌};
ghost use Rattle.device.specs.Locks.{stops, freezes, lock_of, any_stops, relocked, each_at_most, locks_sound};

use parts::Figures;

// How many a record has.
pub const REGISTERS: usize = 8;

// Whether a register has its write lock set.
pub fn stops(register: u8) -> bool
    ensures { result ≡ stops register }
{
    register % 2 == 1
}

// Whether a register is frozen.
pub fn freezes(register: u8) -> bool
    ensures { result ≡ freezes register }
{
    register / 2 % 2 == 1
}

// The sector of an address; where sectors have no bytes, sector 0.
pub fn sector_of(figures: Figures, at: u32) -> usize
    ensures { result ≡ at / figures.sector_bytes }
{
    (at as usize).checked_div(figures.sector_bytes).unwrap_or(0)
}

// The register of the sector of an address; 0 where there is none.
pub fn lock_of(figures: Figures, locks: [u8; REGISTERS], at: u32) -> u8
    ensures { result ≡ lock_of figures locks at }
{
    slices::byte_at(&locks, sector_of(figures, at))
}

// Whether some register has its write lock set.
pub fn any_stops(locks: [u8; REGISTERS]) -> bool
    ensures { result ≡ any_stops locks }
{
    locks.iter().any(|lock| stops(*lock))
}

// The registers after a byte was written to the one of the sector of an address.
pub fn relocked(figures: Figures, mut locks: [u8; REGISTERS], at: u32, b: u8) -> [u8; REGISTERS]
    ensures { result ≡ relocked figures locks at b }
{
    let sector = sector_of(figures, at);
    if sector < REGISTERS {
        locks[sector] = b % 4;
    }
    locks
}

// Whether each register is at most `most`.
fn each_at_most(most: u8, locks: [u8; REGISTERS]) -> bool
    ensures { result ≡ each_at_most most locks }
{
    locks.iter().all(|lock| *lock <= most)
}

// Whether each register is 0 to 3 on an M25PE part, zero on the others.
pub(crate) fn locks_sound(figures: Figures, locks: [u8; REGISTERS]) -> bool
    ensures { result ≡ locks_sound figures locks }
{
    each_at_most(if figures.pe { 3 } else { 0 }, locks)
}
