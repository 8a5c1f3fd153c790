// Cycles: what is remembered of one, what it does to the array, whole or cut, and how many ticks it takes.
ghost use Rattle.std.specs.Prelude.{◌≡◌};
ghost use Rattle.slices.specs.Changed.{map_at};
ghost use Rattle.device.specs.Packing.{kind_number, kind_read};
ghost use Rattle.device.specs.Cycles.{uses_of, no_cycle, page_cycle, write_cycle, erase_cycle, all_cycle, settings_cycle, slots_sound, named_sound, cycle_sound, touched, cut, duration_of};

use crate::Device;
use parts::Figures;
use refusals::Refusal;

// What a cycle does, with the kind byte that stands for it in a packing: nothing where there is none; program a page, erase a sector, erase all, write the settings; on an M25PE part also write a page, erase a page, erase a subsector.
#[derive(Clone, Copy, Debug, PartialEq, Eq)]
pub enum Kind {
    Idle = 0,
    Page = 1,
    Sector = 2,
    All = 3,
    Settings = 4,
    PageWrite = 5,
    PageErase = 6,
    Subsector = 7,
}

// The kind byte of a packing.
impl From<Kind> for u8 {
    ghost from_gives = { λ kind number. number ≡ kind_number kind };

    fn from(kind: Kind) -> u8 {
        kind as u8
    }
}

// The kind of a kind byte; a record with another byte there is not sound.
impl TryFrom<u8> for Kind {
    type Error = Refusal;

    ghost try_from_gives = { λ number read. read ≡ kind_read number };

    fn try_from(number: u8) -> Result<Kind, Refusal> {
        match number {
            0 => Ok(Kind::Idle),
            1 => Ok(Kind::Page),
            2 => Ok(Kind::Sector),
            3 => Ok(Kind::All),
            4 => Ok(Kind::Settings),
            5 => Ok(Kind::PageWrite),
            6 => Ok(Kind::PageErase),
            7 => Ok(Kind::Subsector),
            _ => Err(Refusal::NotSound),
        }
    }
}

// Whether a kind is a cycle, what of a remembered cycle it uses, and whether it is of M25PE parts alone.
#[derive(Clone, Copy, Debug, PartialEq, Eq)]
pub struct Uses {
    pub cycle: bool,
    pub address: bool,
    pub slots: bool,
    pub settings: bool,
    pub named: bool,
    pub pe: bool,
}

// A remembered cycle: its kind, its address, the 256 slots of a program or a page write, the settings that are being written, how many bytes a page write named; zero but for what its kind uses.
// No enum with fields: `fields_of` and `pack_of` hold each field, used or not.
#[derive(Clone, Copy, Debug, PartialEq, Eq)]
pub struct Cycle {
    pub kind: Kind,
    pub address: u32,
    pub slots: [u8; 256],
    pub bp: u8,
    pub srwd: bool,
    pub named: u32,
}

impl Uses {
    // No cycle, and nothing used.
    const NOTHING: Uses = Uses {
        cycle: false,
        address: false,
        slots: false,
        settings: false,
        named: false,
        pe: false,
    };

    // A cycle at an address: an erase of the area there.
    const AREA: Uses = Uses {
        cycle: true,
        address: true,
        ..Uses::NOTHING
    };

    // What a kind uses.
    pub fn of(kind: Kind) -> Self
        ensures { result ≡ uses_of kind }
    {
        match kind {
            Kind::Idle => Uses::NOTHING,
            Kind::Page => Uses {
                slots: true,
                ..Uses::AREA
            },
            Kind::Sector => Uses::AREA,
            Kind::All => Uses {
                cycle: true,
                ..Uses::NOTHING
            },
            Kind::Settings => Uses {
                cycle: true,
                settings: true,
                ..Uses::NOTHING
            },
            Kind::PageWrite => Uses {
                slots: true,
                named: true,
                pe: true,
                ..Uses::AREA
            },
            Kind::PageErase | Kind::Subsector => Uses {
                pe: true,
                ..Uses::AREA
            },
        }
    }
}

// Whether slots are zero where they are not used. Lent, as the cycle to `sound`: they would be copied for a look at them.
#[inline(always)]
fn slots_sound(slots: &[u8; 256], used: bool) -> bool
    ensures { result ≡ slots_sound slots.now used }
{
    used | (*slots == [0; 256])
}

// Whether a number of bytes named is 1 to 256 where it is used, else 0.
fn named_sound(named: u32, used: bool) -> bool
    ensures { result ≡ named_sound named used }
{
    if used {
        (1..=256).contains(&named)
    } else {
        named == 0
    }
}

impl Cycle {
    // No cycle.
    pub fn none() -> Self
        ensures { result ≡ no_cycle }
    {
        Cycle {
            kind: Kind::Idle,
            address: 0,
            slots: [0; 256],
            bp: 0,
            srwd: false,
            named: 0,
        }
    }

    // A program of the page of an address.
    pub fn page(address: u32, slots: [u8; 256]) -> Self
        ensures { result ≡ page_cycle address slots }
    {
        Cycle {
            kind: Kind::Page,
            address,
            slots,
            ..Cycle::none()
        }
    }

    // A write of the page of an address, with so many bytes named.
    pub fn write(address: u32, slots: [u8; 256], named: u32) -> Self
        ensures { result ≡ write_cycle address slots named }
    {
        Cycle {
            kind: Kind::PageWrite,
            address,
            slots,
            named,
            ..Cycle::none()
        }
    }

    // An erase of the page, subsector or sector of an address.
    pub fn erase(kind: Kind, address: u32) -> Self
        ensures { result ≡ erase_cycle kind address }
    {
        Cycle {
            kind,
            address,
            ..Cycle::none()
        }
    }

    // An erase of the whole array.
    pub fn all() -> Self
        ensures { result ≡ all_cycle }
    {
        Cycle {
            kind: Kind::All,
            ..Cycle::none()
        }
    }

    // A write of the settings.
    pub fn settings(srwd: bool, bp: u8) -> Self
        ensures { result ≡ settings_cycle srwd bp }
    {
        Cycle {
            kind: Kind::Settings,
            bp,
            srwd,
            ..Cycle::none()
        }
    }

    // Whether it is there exactly while busy, is of a kind of the part, lies within it, and is zero but for what its kind uses.
    #[inline(always)]
    pub(crate) fn sound(&self, figures: Figures, busy: bool) -> bool
        ensures { result ≡ cycle_sound self.now figures busy }
    {
        let uses = Uses::of(self.kind);
        busy == uses.cycle
            && (self.address as usize) < figures.bytes
            && self.bp <= figures.highest_bp
            && (uses.address || self.address == 0)
            && slots_sound(&self.slots, uses.slots)
            && (uses.settings || (self.bp == 0 && !self.srwd))
            && named_sound(self.named, uses.named)
            && (!uses.pe || figures.pe)
    }

    // Carries the cycle out.
    pub(crate) fn complete(self, figures: Figures, array: &mut [u8])
        ensures { array.new ≡ map_at (touched figures self) array.old }
    {
        let at = self.address as usize;
        match self.kind {
            Kind::Idle | Kind::Settings => {}
            Kind::Page => memory::program_page(array, at, self.slots),
            Kind::Sector => memory::erase_sector(array, figures.sector_bytes, at),
            Kind::All => memory::erase_all(array),
            Kind::PageWrite => memory::write_page(array, at, self.named as usize, self.slots),
            Kind::PageErase => memory::erase_sector(array, 256, at),
            Kind::Subsector => memory::erase_sector(array, figures.subsector_bytes, at),
        }
    }

    // Cuts the cycle short. Not one with `complete`: each kind calls another function of `memory`, with another promise.
    pub(crate) fn cut_short(self, figures: Figures, array: &mut [u8], mask: &[u8])
        ensures { array.new ≡ map_at (cut figures self mask.now) array.old }
    {
        let at = self.address as usize;
        match self.kind {
            Kind::Idle | Kind::Settings => {}
            Kind::Page => memory::cut_page(array, at, self.slots, mask),
            Kind::Sector => memory::cut_sector(array, figures.sector_bytes, at, mask),
            Kind::All => memory::cut_all(array, mask),
            Kind::PageWrite => memory::cut_write(array, at, self.named as usize, mask),
            Kind::PageErase => memory::cut_sector(array, 256, at, mask),
            Kind::Subsector => memory::cut_sector(array, figures.subsector_bytes, at, mask),
        }
    }
}

impl Device {
    // How many ticks a cycle of a kind takes.
    pub fn duration(self, kind: Kind) -> u32
        ensures { result ≡ duration_of kind self }
    {
        match kind {
            Kind::Idle => 0,
            Kind::Page | Kind::PageWrite | Kind::PageErase => self.program,
            Kind::Sector | Kind::Subsector => self.sector_erase,
            Kind::All => self.bulk_erase,
            Kind::Settings => self.write_status,
        }
    }
}
