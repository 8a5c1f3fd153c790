// Demand 3: one job as a call.
#![tactic(auto)]

ghost use Rattle.std.specs.Prelude.{◌≡◌};
ghost use Rattle.jobs.specs.Jobs.{longest_cycle};
ghost use Rattle.jobs.specs.Call.{Jobbed, alone};

use chip::answers::host_accepts;
use chip::{Answer, Done};
use device::Device;

// The greatest of the four durations.
fn longest_cycle(device: Device) -> u32
    ensures { result ≡ longest_cycle device }
{
    let one = device.program.max(device.sector_erase);
    let other = device.bulk_erase.max(device.write_status);
    one.max(other)
}

// Sends one byte alone.
#[tactic(auto, unfolding(chip::specs::Events::sent))]
fn alone(device: Device, array: &mut [u8], code: u8, w: bool) -> Device
    ensures { (result ≡ (alone device array.old code w).device) × (array.new ≡ (alone device array.old code w).array) }
{
    let done = chip::transact(device, array, &[code], 0, w, &mut [0]);
    done.device
}

// One job: write enable, the program or erase that is sent, a wait as long as the longest cycle, write disable.
#[tactic(auto, using(refusals::proofs::Laws::refusal_some), unfolding(crate::specs::Call::jobbed, chip::specs::Outcome::outcome_of))]
pub fn run_job(
    device: Device,
    array: &mut [u8],
    sent: &[u8],
    pulses: u32,
    w: bool,
    response: &mut [u8],
) -> Done
    ensures { Jobbed device array.old sent.now pulses w response.old result.answer result.device array.new response.new }
{
    if let Err(refusal) = host_accepts(device, array.len(), sent.len(), pulses, response.len()) {
        return Done {
            answer: Answer::bare(refusal.into()),
            device,
        };
    }
    let longest = longest_cycle(device);
    let enabled = alone(device, array, 0x06, w);
    let done = chip::transact(enabled, array, sent, pulses, w, response);
    let rested = done.device.wait(array, longest).device;
    Done {
        device: alone(rested, array, 0x04, w),
        ..done
    }
}
