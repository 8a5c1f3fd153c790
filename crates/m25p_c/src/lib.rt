// The C calls as exports of a static library: each calls the function of the same name in `m25p`, whose clauses it states again.
#![tactic(auto)]

ghost use Rattle.device.specs.Time.{wait_call, power_up_call, loss_call};
ghost use Rattle.m25p.specs.Calls.{transacted_c, Called, high, timed_c, CalledOn, DeliveredC};
ghost use Rattle.m25p.specs.Pins.{RanC};
ghost use Rattle.m25p.specs.Batch.{BatchedC};
ghost use Rattle.m25p.specs.Report.{ReportedC};
ghost use Rattle.m25p.specs.Image.{WrittenC, ReadC, SalvagedC};
ghost use Rattle.m25p.specs.Bus.{bused_c, BusedC, bus_waited_c, BusWaitedC};

// Delivers a part: the packed record is written and the array becomes FF.
#[unsafe(no_mangle)]
pub extern "C" fn m25p_deliver(
    packed: &mut [u8],
    part: u32,
    array: &mut [u8],
    program: u32,
    sector_erase: u32,
    bulk_erase: u32,
    write_status: u32,
) -> u64
    ensures { DeliveredC packed.old part array.old program sector_erase bulk_erase write_status result packed.new array.new }
{
    m25p::m25p_deliver(
        packed,
        part,
        array,
        program,
        sector_erase,
        bulk_erase,
        write_status,
    )
}

// One transaction: W is low for 0, else high.
#[unsafe(no_mangle)]
pub extern "C" fn m25p_transact(
    packed: &mut [u8],
    array: &mut [u8],
    sent: &[u8],
    pulses: u32,
    w: u32,
    response: &mut [u8],
) -> u64
    ensures { Called (transacted_c packed.old array.old sent.now pulses w response.old) packed.old result packed.new array.new response.new }
{
    m25p::m25p_transact(packed, array, sent, pulses, w, response)
}

// Waits `ticks`: on the last tick of a cycle its effect comes.
#[unsafe(no_mangle)]
pub extern "C" fn m25p_wait(packed: &mut [u8], array: &mut [u8], ticks: u32) -> u64
    ensures { CalledOn (timed_c (λ c. wait_call c ticks) packed.old array.old) packed.old result packed.new array.new }
{
    m25p::m25p_wait(packed, array, ticks)
}

// Powers up: a cycle is completed.
#[unsafe(no_mangle)]
pub extern "C" fn m25p_power_up(packed: &mut [u8], array: &mut [u8]) -> u64
    ensures { CalledOn (timed_c power_up_call packed.old array.old) packed.old result packed.new array.new }
{
    m25p::m25p_power_up(packed, array)
}

// Power is lost and comes back: a cycle is cut as the mask says; a settings write is complete on yes, which is any number but 0.
#[unsafe(no_mangle)]
pub extern "C" fn m25p_loss(packed: &mut [u8], array: &mut [u8], mask: &[u8], yes: u32) -> u64
    ensures { CalledOn (timed_c (λ c. loss_call c mask.now (high yes)) packed.old array.old) packed.old result packed.new array.new }
{
    m25p::m25p_loss(packed, array, mask, yes)
}

// A run over samples of the pins: the transactions carried out in order, the bits missing in them, and one output byte for each sample.
#[unsafe(no_mangle)]
pub extern "C" fn m25p_pins(
    packed: &mut [u8],
    array: &mut [u8],
    samples: &[u8],
    output: &mut [u8],
) -> u64
    ensures { RanC packed.old array.old samples.now output.old result packed.new array.new output.new }
{
    m25p::m25p_pins(packed, array, samples, output)
}

// A batch: its items carried out in order, or nothing at all.
#[unsafe(no_mangle)]
pub extern "C" fn m25p_batch(
    packed: &mut [u8],
    array: &mut [u8],
    items: &[u8],
    responses: &mut [u8],
    answers: &mut [u8],
    missing: &mut [u8],
) -> u64
    ensures { BatchedC packed.old array.old items.now responses.old answers.old missing.old result packed.new array.new responses.new answers.new missing.new }
{
    m25p::m25p_batch(packed, array, items, responses, answers, missing)
}

// A report: a batch carried out and counted, or nothing at all.
#[unsafe(no_mangle)]
pub extern "C" fn m25p_report(
    packed: &mut [u8],
    array: &mut [u8],
    items: &[u8],
    responses: &mut [u8],
    answers: &mut [u8],
    totals: &mut [u8],
) -> u64
    ensures { ReportedC packed.old array.old items.now responses.old answers.old totals.old result packed.new array.new responses.new answers.new totals.new }
{
    m25p::m25p_report(packed, array, items, responses, answers, totals)
}

// Writes the image of an array.
#[unsafe(no_mangle)]
pub extern "C" fn m25p_image_write(part: u32, array: &[u8], image: &mut [u8]) -> u64
    ensures { WrittenC part array.now image.old result image.new }
{
    m25p::m25p_image_write(part, array, image)
}

// Reads the array of an image whose blocks are all good.
#[unsafe(no_mangle)]
pub extern "C" fn m25p_image_read(part: u32, image: &[u8], array: &mut [u8]) -> u64
    ensures { ReadC part image.now array.old result array.new }
{
    m25p::m25p_image_read(part, image, array)
}

// Salvages an image, and lists the blocks that were bad.
#[unsafe(no_mangle)]
pub extern "C" fn m25p_image_salvage(part: u32, image: &mut [u8], list: &mut [u8]) -> u64
    ensures { SalvagedC part image.old list.old result image.new list.new }
{
    m25p::m25p_image_salvage(part, image, list)
}

// One transaction with one chip of a row: its packed record is written anew, and the others' stay.
#[unsafe(no_mangle)]
pub extern "C" fn m25p_bus_transact(
    row: &mut [u8],
    array: &mut [u8],
    chip: u32,
    sent: &[u8],
    pulses: u32,
    w: u32,
    response: &mut [u8],
) -> u64
    ensures { BusedC (bused_c row.old array.old chip sent.now pulses w response.old) row.old result row.new array.new response.new }
{
    m25p::m25p_bus_transact(row, array, chip, sent, pulses, w, response)
}

// Every chip of a row waits `ticks`, each on its own bytes.
#[unsafe(no_mangle)]
pub extern "C" fn m25p_bus_wait(row: &mut [u8], array: &mut [u8], ticks: u32) -> u64
    ensures { BusWaitedC (bus_waited_c row.old array.old ticks) row.old result row.new array.new }
{
    m25p::m25p_bus_wait(row, array, ticks)
}
