// Time and power: waiting, power-up and power loss. Each is lent the array, and checks record and array itself.
ghost use Rattle.std.specs.Prelude.{◌≡◌};
ghost use Rattle.refusals.specs.Numbers.{answer_of};
ghost use Rattle.device.specs.Chip.{chip};
ghost use Rattle.device.specs.Time.{after_cycle, unlocked, waited, mask_number, time_number, Handed, Rested, WaitForeseen, wait_call, power_up_call, loss_call};

use crate::cycle::Uses;
use crate::locks::REGISTERS;
use crate::{Checked, Device, Mode};
use parts::Figures;
use refusals::Refusal;

impl Device {
    // The record when its cycle is over: a settings write counts on `yes`.
    fn after_cycle(self, yes: bool) -> Self
        ensures { result ≡ after_cycle self yes }
    {
        let cycle = self.cycle;
        if yes && Uses::of(cycle.kind).settings {
            self.settled(cycle.srwd, cycle.bp).ended()
        } else {
            self.ended()
        }
    }

    // Power was off: all lock registers zero.
    fn unlocked(self) -> Self
        ensures { result ≡ unlocked self }
    {
        self.locked([0; REGISTERS])
    }

    // The record `t` ticks later, whatever the array holds: within a cycle with the latch that belongs to the ticks left.
    fn rested(self, t: u32) -> Self
        ensures { Rested self t result }
    {
        match self.mode {
            Mode::Busy(left) if t < left => self.running(left - t),
            Mode::Busy(_) => self.after_cycle(true),
            Mode::Standby | Mode::Deep => self,
        }
    }

    // The same with the array: a cycle whose last tick has come has its effect.
    fn waited(self, array: &mut [u8], t: u32) -> Self
        ensures { chip result array.new ≡ waited (chip self array.old) t }
    {
        if matches!(self.mode, Mode::Busy(left) if left <= t) {
            self.cycle.complete(Figures::of(self.part), array);
        }
        self.rested(t)
    }

    // Whether a call that is lent `array` bytes may be carried out: 6 where the record is not sound, 2 where the array does not have the part's bytes.
    #[inline(always)]
    fn accepts(self, array: usize) -> Result<(), Refusal>
        ensures { answer_of result ≡ time_number self array 0 }
    {
        if !self.sound() {
            return Err(Refusal::NotSound);
        }
        if array != Figures::of(self.part).bytes {
            return Err(Refusal::ArrayLength);
        }
        Ok(())
    }

    // The same of a power loss with a mask of `mask` bytes: 41 where they are not 256.
    #[inline(always)]
    fn accepts_mask(self, array: usize, mask: usize) -> Result<(), Refusal>
        ensures { answer_of result ≡ time_number self array (mask_number mask) }
    {
        self.accepts(array)?;
        if mask != 256 {
            return Err(Refusal::MaskLength);
        }
        Ok(())
    }

    // Waits `t` ticks. 6 and 2 change nothing.
    // Each call begins with its check: a frame that is lent the two lines after it as a closure would be no plainer.
    pub fn wait(self, array: &mut [u8], t: u32) -> Checked
        ensures { Handed (wait_call (chip self array.old) t) result array.new }
    {
        if let Err(refusal) = self.accepts(array.len()) {
            return Checked::refused(refusal, self);
        }
        Checked {
            answer: 0,
            device: self.waited(array, t),
        }
    }

    // What a wait of `t` ticks would answer on an array of this length, and the record that it would leave. Nothing is touched.
    pub fn wait_foreseen(self, array: usize, t: u32) -> Checked
        ensures { WaitForeseen self array t result }
    {
        if let Err(refusal) = self.accepts(array) {
            return Checked::refused(refusal, self);
        }
        Checked {
            answer: 0,
            device: self.rested(t),
        }
    }

    // Powers up: a cycle is completed, then the lock registers are zero. 6 and 2 change nothing.
    pub fn power_up(self, array: &mut [u8]) -> Checked
        ensures { Handed (power_up_call (chip self array.old)) result array.new }
    {
        if let Err(refusal) = self.accepts(array.len()) {
            return Checked::refused(refusal, self);
        }
        self.cycle.complete(Figures::of(self.part), array);
        Checked {
            answer: 0,
            device: self.after_cycle(true).unlocked(),
        }
    }

    // Power is lost and comes back: a cycle is cut as the mask says, a settings write is complete on `yes`, and the lock registers are zero. 6, 2 and 41 change nothing.
    pub fn loss(self, array: &mut [u8], mask: &[u8], yes: bool) -> Checked
        ensures { Handed (loss_call (chip self array.old) mask.now yes) result array.new }
    {
        if let Err(refusal) = self.accepts_mask(array.len(), mask.len()) {
            return Checked::refused(refusal, self);
        }
        self.cycle.cut_short(Figures::of(self.part), array, mask);
        Checked {
            answer: 0,
            device: self.after_cycle(yes).unlocked(),
        }
    }
}
