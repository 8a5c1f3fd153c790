// What a case does at both entries, the one by value and the one that takes the record lent: transactions, time and power, settings.
use crate::text;
use chip::Answer;
use chip::lent::transact_lent;
use device::{Checked, Device, Mode};
use std::io;

// What one entry works on: a record, and an array and a response that are lent.
#[derive(Drop)]
pub(crate) struct Entry<'a> {
    pub(crate) device: Device,
    pub(crate) array: &'a mut [u8],
    pub(crate) response: &'a mut [u8],
}

// Both entries, and whether all was the same so far. Until the second one runs, its array is what the first one's was before.
#[derive(Drop)]
pub(crate) struct Case<'a> {
    pub(crate) by_value: Entry<'a>,
    pub(crate) lent: Entry<'a>,
    same: bool,
}

// A record that runs no cycle with other settings and another latch, in standby.
pub(crate) fn settings(d: Device, srwd: bool, bp: u8, latch: bool) -> Device {
    d.settled(srwd, bp).moded(latch, Mode::Standby)
}

impl<'a> Entry<'a> {
    // Before a part is delivered.
    pub(crate) fn on(array: &'a mut [u8], response: &'a mut [u8]) -> Self {
        Entry {
            device: Device::zero(),
            array,
            response,
        }
    }

    // The same with another array.
    pub(crate) fn with_array(self, array: &'a mut [u8]) -> Self {
        Entry { array, ..self }
    }

    // A part delivered with durations 3, 5, 9, 2, then the latch set: the answer.
    fn deliver(&mut self, part: u32) -> u8 {
        let given = chip::deliver(part, self.array, 3, 5, 9, 2);
        self.device = given.device.latched(true);
        given.answer
    }

    // One transaction by value, on a response of 55s.
    fn transact(&mut self, sent: &[u8], pulses: u32, w: bool) -> Answer {
        slices::fill(self.response, 0x55);
        let done = chip::transact(self.device, self.array, sent, pulses, w, self.response);
        self.device = done.device;
        done.answer
    }

    // The same on the record lent.
    fn transact_lent(&mut self, sent: &[u8], pulses: u32, w: bool) -> Answer {
        slices::fill(self.response, 0x55);
        transact_lent(&mut self.device, self.array, sent, pulses, w, self.response)
    }

    // A call of time or power: its answer.
    fn pass<F: Fn(Device, &mut [u8]) -> Checked>(&mut self, call: &F) -> u8
        requires { F.IsAlwaysCallable call.now }
    {
        let x = call(self.device, self.array);
        self.device = x.device;
        x.answer
    }
}

impl<'a> Case<'a> {
    // Prints the name, and delivers a part to both entries.
    pub(crate) fn begin(
        rt: &impl Print,
        name: &[u8],
        part: u32,
        mut by_value: Entry<'a>,
        mut lent: Entry<'a>,
    ) -> io::Result<Self> {
        rt.write_all(name)?;
        let x = by_value.deliver(part);
        let y = lent.deliver(part);
        let same = (x == 0) & (y == 0);
        Ok(Case {
            by_value,
            lent,
            same,
        })
    }

    // The same on other arrays. A new case, since a reference written into a field of a field is not covered by the check yet.
    pub(crate) fn with_arrays(self, a: &'a mut [u8], b: &'a mut [u8]) -> Self {
        Case {
            by_value: self.by_value.with_array(a),
            lent: self.lent.with_array(b),
            same: self.same,
        }
    }

    // Whether both arrays are the same.
    fn same_arrays(&self) -> bool {
        &*self.by_value.array == &*self.lent.array
    }

    // Whether records, arrays and responses are the same.
    fn alike(&self) -> bool {
        let records = self.by_value.device == self.lent.device;
        let responses = &*self.by_value.response == &*self.lent.response;
        records & responses & self.same_arrays()
    }

    // Whether all was the same, with these answers too.
    fn compare(&mut self, answers: bool) {
        let alike = self.alike();
        self.same = self.same & answers & alike;
    }

    // Prints what the first entry did to the record that was `before`, with `n` bytes sent: the answer field by field, since `chip`, whose type it is, prints nothing.
    fn print_done(&self, rt: &impl Print, before: Device, x: Answer, n: usize) -> io::Result<()> {
        let first = &self.by_value;
        print!(rt; " | {} {} {} {} ", x.number, x.first, x.count, x.missing)?;
        text::print_front(rt, first.response, n)?;
        show::print_choice(rt, first.device == before, b" -", b" r")?;
        show::print_choice(rt, self.same_arrays(), b"-", b"a")?;
        show::print_choice(rt, show::all_are(first.response, n, 0x55), b"-", b"b")
    }

    // One transaction through both entries, printed.
    pub(crate) fn exchange(
        &mut self,
        rt: &impl Print,
        sent: &[u8],
        pulses: u32,
        w: bool,
    ) -> io::Result<()> {
        let before = self.by_value.device;
        let x = self.by_value.transact(sent, pulses, w);
        self.print_done(rt, before, x, sent.len())?;
        let y = self.lent.transact_lent(sent, pulses, w);
        self.compare(x == y);
        Ok(())
    }

    // A call of time or power on both records, printed: a name, the answer, and a where the array changed.
    pub(crate) fn timed<F: Fn(Device, &mut [u8]) -> Checked>(
        &mut self,
        rt: &impl Print,
        name: &[u8],
        call: F,
    ) -> io::Result<()>
        requires { F.IsAlwaysCallable call }
    {
        let x = self.by_value.pass(&call);
        rt.write_all(name)?;
        print!(rt; " {x}")?;
        show::print_choice(rt, self.same_arrays(), b" -", b" a")?;
        let y = self.lent.pass(&call);
        self.compare(x == y);
        Ok(())
    }

    // A cycle that runs is completed, and SRWD, BP and the latch are set, in standby. Prints nothing.
    pub(crate) fn set(&mut self, srwd: bool, bp: u8, latch: bool) {
        let x = self.by_value.pass(&|d: Device, a: &mut [u8]| d.power_up(a));
        let y = self.lent.pass(&|d: Device, a: &mut [u8]| d.power_up(a));
        self.compare(x == y);
        self.by_value.device = settings(self.by_value.device, srwd, bp, latch);
        self.lent.device = settings(self.lent.device, srwd, bp, latch);
    }

    // Ends the line.
    pub(crate) fn finish(&self, rt: &impl Print) -> io::Result<()> {
        show::print_choice(rt, self.same, b" same\n", b" differ\n")
    }
}
