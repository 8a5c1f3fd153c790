// The pins: their levels in a sample, and what happens from one sample to the next.
#![tactic(auto, unfolding(crate::specs::Pins::levels_of, crate::specs::Pins::on_select, crate::specs::Pins::on_clock, crate::specs::Pins::on_hold, crate::specs::Pins::changes, crate::specs::Pins::takes, crate::specs::Pins::moves, crate::specs::Pins::ends, crate::specs::Counted::pins_of, crate::specs::Counted::pins_after))]

ghost use Rattle.std.specs.Prelude.{◌≡◌};
ghost use Rattle.pins.specs.Pins.{levels_of, on_select, on_clock, on_hold, changes, takes, moves, ends};
ghost use Rattle.pins.specs.Counted.{pins_of, pins_after};

// The five levels of a sample.
#[derive(Clone, Copy, Debug, PartialEq, Eq)]
pub struct Levels {
    pub select: bool,
    pub clock: bool,
    pub data: bool,
    pub w: bool,
    pub hold: bool,
}

impl Levels {
    // Bit 0 Chip Select, 1 clock, 2 data in, 3 W, 4 Hold. By `of`, as `Figures::of` and `Item::of`: it reads five of the eight bits.
    pub(crate) fn of(sample: u8) -> Self
        ensures { result ≡ levels_of sample }
    {
        Levels {
            select: sample % 2 == 1,
            clock: sample / 2 % 2 == 1,
            data: sample / 4 % 2 == 1,
            w: sample / 8 % 2 == 1,
            hold: sample / 16 % 2 == 1,
        }
    }
}

// What is kept of the pins from sample to sample: three levels, and whether there is a hold.
#[derive(Clone, Copy, Debug, PartialEq, Eq)]
pub struct Kept {
    pub select: bool,
    pub clock: bool,
    pub hold: bool,
    pub holding: bool,
}

// `now` are the levels in this sample.
impl Kept {
    // After a sample, with whether there is a hold after it.
    pub(crate) fn after(sample: u8, holding: bool) -> Self
        ensures { pins_of result ≡ pins_after sample holding }
    {
        let was = Levels::of(sample);
        Kept {
            select: was.select,
            clock: was.clock,
            hold: was.hold,
            holding,
        }
    }

    // Whether Chip Select changes.
    pub(crate) fn changes(self, now: Levels) -> bool
        ensures { result ≡ changes (pins_of self) now }
    {
        self.select != now.select
    }

    // Whether Chip Select rises outside a hold.
    pub(crate) fn ends(self, now: Levels) -> bool
        ensures { result ≡ ends (pins_of self) now }
    {
        !self.select & now.select & !self.holding
    }

    // With Chip Select taken: as it falls, Hold low with the clock low is a hold at once.
    pub(crate) fn on_select(self, now: Levels) -> Self
        ensures { pins_of result ≡ on_select (pins_of self) now }
    {
        if self.select & !now.select {
            return Kept {
                select: now.select,
                holding: !self.hold & !self.clock,
                ..self
            };
        }
        Kept {
            select: now.select,
            ..self
        }
    }

    // Whether a bit is taken: the clock rises with Chip Select low and no hold.
    pub(crate) fn takes(self, now: Levels) -> bool
        ensures { result ≡ takes (pins_of self) now }
    {
        !self.select & !self.holding & (!self.clock & now.clock)
    }

    // Whether the output moves on: the clock falls with Chip Select low and no hold.
    pub(crate) fn moves(self, now: Levels) -> bool
        ensures { result ≡ moves (pins_of self) now }
    {
        !self.select & !self.holding & (self.clock & !now.clock)
    }

    // With clock and Hold taken: with the clock low Hold says whether there is a hold, with the clock high a change waits.
    pub(crate) fn on_hold(self, now: Levels) -> Self
        ensures { pins_of result ≡ on_hold (on_clock (pins_of self) now) now }
    {
        let holding = if now.clock { self.holding } else { !now.hold };
        Kept {
            clock: now.clock,
            hold: now.hold,
            holding,
            ..self
        }
    }
}
