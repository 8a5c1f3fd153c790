// The transaction on a record that is lent and updated there, with the same answers.
ghost use Rattle.chip.specs.Outcome.{Transacted};

use crate::{Answer, transact};
use device::Device;

// One transaction: the record is lent, and holds the next one afterwards.
pub fn transact_lent(
    device: &mut Device,
    array: &mut [u8],
    sent: &[u8],
    pulses: u32,
    w: bool,
    response: &mut [u8],
) -> Answer
    ensures { Transacted device.old array.old sent.now pulses w response.old result device.new array.new response.new }
{
    let done = transact(*device, array, sent, pulses, w, response);
    *device = done.device;
    done.answer
}
