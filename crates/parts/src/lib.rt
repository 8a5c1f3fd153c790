// The seven parts, each a type whose constant holds its figures, and how many sectors BP protects.
#![tactic(auto)]

ghost use Rattle.std.specs.Prelude.{◌≡◌};
ghost use Rattle.parts.specs.declared.Figures.{Figures};
ghost use Rattle.parts.specs.Parts.{bench, m25p10a, m25p40, m25p32, m25p128, m25p10a_older, m25pe40, figures_of, known_part};
ghost use Rattle.parts.specs.Protected.{protected_of};

// Part 0, for programs that run in small buffers.
#[derive(Clone, Copy, Debug, PartialEq, Eq)]
pub struct Bench;

// Part 1.
#[derive(Clone, Copy, Debug, PartialEq, Eq)]
pub struct M25p10a;

// Part 2.
#[derive(Clone, Copy, Debug, PartialEq, Eq)]
pub struct M25p40;

// Part 3.
#[derive(Clone, Copy, Debug, PartialEq, Eq)]
pub struct M25p32;

// Part 4. It has no deep power-down and no signature: a 0 stands there and is never driven.
#[derive(Clone, Copy, Debug, PartialEq, Eq)]
pub struct M25p128;

// Part 5, the M25P10-A before process technology X and Y: part 1 without Read Identification. Its identification is 0
// and never driven.
#[derive(Clone, Copy, Debug, PartialEq, Eq)]
pub struct M25p10aOlder;

// Part 6. It has no signature: a 0 stands there and is never driven.
#[derive(Clone, Copy, Debug, PartialEq, Eq)]
pub struct M25pe40;

// A part's figures as one value. `identifies` says whether Read Identification, 9F, exists; `sleeps` whether deep
// power-down and its release, B9 and AB, do; `pe` whether it is an M25PE part, with 0A, DB, 20, E5, E8 and a lock
// register for each sector, on which AB only releases. A part without subsectors has its sector's bytes there.
// Flags and values side by side, not options: `bench` and the other six of specs/Parts have each of these fields.
#[derive(Clone, Copy, Debug, PartialEq, Eq)]
pub struct Figures {
    pub bytes: usize,
    pub sectors: usize,
    pub sector_bytes: usize,
    pub subsector_bytes: usize,
    pub maker: u8,
    pub memory_type: u8,
    pub capacity: u8,
    pub identifies: bool,
    pub signature: u8,
    pub sleeps: bool,
    pub highest_bp: u8,
    pub pe: bool,
}

impl Bench {
    pub const FIGURES: Figures = Figures {
        bytes: 4_096,
        sectors: 4,
        sector_bytes: 1_024,
        subsector_bytes: 1_024,
        maker: 0x00,
        memory_type: 0x00,
        capacity: 0x0C,
        identifies: true,
        signature: 0x0B,
        sleeps: true,
        highest_bp: 3,
        pe: false,
    };
}

impl M25p10a {
    pub const FIGURES: Figures = Figures {
        bytes: 131_072,
        sectors: 4,
        sector_bytes: 32_768,
        subsector_bytes: 32_768,
        maker: 0x20,
        memory_type: 0x20,
        capacity: 0x11,
        identifies: true,
        signature: 0x10,
        sleeps: true,
        highest_bp: 3,
        pe: false,
    };
}

impl M25p40 {
    pub const FIGURES: Figures = Figures {
        bytes: 524_288,
        sectors: 8,
        sector_bytes: 65_536,
        subsector_bytes: 65_536,
        maker: 0x20,
        memory_type: 0x20,
        capacity: 0x13,
        identifies: true,
        signature: 0x12,
        sleeps: true,
        highest_bp: 7,
        pe: false,
    };
}

impl M25p32 {
    pub const FIGURES: Figures = Figures {
        bytes: 4_194_304,
        sectors: 64,
        sector_bytes: 65_536,
        subsector_bytes: 65_536,
        maker: 0x20,
        memory_type: 0x20,
        capacity: 0x16,
        identifies: true,
        signature: 0x15,
        sleeps: true,
        highest_bp: 7,
        pe: false,
    };
}

impl M25p128 {
    pub const FIGURES: Figures = Figures {
        bytes: 16_777_216,
        sectors: 64,
        sector_bytes: 262_144,
        subsector_bytes: 262_144,
        maker: 0x20,
        memory_type: 0x20,
        capacity: 0x18,
        identifies: true,
        signature: 0x00,
        sleeps: false,
        highest_bp: 7,
        pe: false,
    };
}

impl M25p10aOlder {
    pub const FIGURES: Figures = Figures {
        maker: 0x00,
        memory_type: 0x00,
        capacity: 0x00,
        identifies: false,
        ..M25p10a::FIGURES
    };
}

impl M25pe40 {
    pub const FIGURES: Figures = Figures {
        bytes: 524_288,
        sectors: 8,
        sector_bytes: 65_536,
        subsector_bytes: 4_096,
        maker: 0x20,
        memory_type: 0x80,
        capacity: 0x13,
        identifies: true,
        signature: 0x00,
        sleeps: true,
        highest_bp: 7,
        pe: true,
    };
}

// What the part types share: each has a row of the table, and the figures of it as one value.
// The figures are the type's own constant, the form that docs/DECISIONS.md names; `ROW` ties each to its row in specs/Parts.
pub trait Part {
    const ROW: Figures;

    ghost ROW: { Figures };

    // The row.
    fn figures() -> Figures
        ensures { result ≡ ROW }
    {
        Self::ROW
    }
}

impl Part for Bench {
    const ROW: Figures = Bench::FIGURES;

    ghost ROW = { bench };
}

impl Part for M25p10a {
    const ROW: Figures = M25p10a::FIGURES;

    ghost ROW = { m25p10a };
}

impl Part for M25p40 {
    const ROW: Figures = M25p40::FIGURES;

    ghost ROW = { m25p40 };
}

impl Part for M25p32 {
    const ROW: Figures = M25p32::FIGURES;

    ghost ROW = { m25p32 };
}

impl Part for M25p128 {
    const ROW: Figures = M25p128::FIGURES;

    ghost ROW = { m25p128 };
}

impl Part for M25p10aOlder {
    const ROW: Figures = M25p10aOlder::FIGURES;

    ghost ROW = { m25p10a_older };
}

impl Part for M25pe40 {
    const ROW: Figures = M25pe40::FIGURES;

    ghost ROW = { m25pe40 };
}

impl Figures {
    // The figures of a part by its number, as the record and the C calls have it. A number that is no part's has the bench part's figures.
    pub fn of(part: u8) -> Self
        ensures { result ≡ figures_of part }
    {
        match part {
            1 => M25p10a::figures(),
            2 => M25p40::figures(),
            3 => M25p32::figures(),
            4 => M25p128::figures(),
            5 => M25p10aOlder::figures(),
            6 => M25pe40::figures(),
            _ => Bench::figures(),
        }
    }
}

// Whether a number is a part's.
pub fn known(part: u8) -> bool
    ensures { result ≡ known_part part }
{
    part <= 6
}

// How many of the highest sectors are protected. From BP 65 on the power is more than any number of sectors.
pub fn protected(sectors: usize, bp: u8) -> usize
    ensures { result ≡ protected_of sectors bp }
{
    if bp == 0 {
        0
    } else if bp <= 64 {
        sectors.min(1 << (bp as usize - 1))
    } else {
        sectors
    }
}
