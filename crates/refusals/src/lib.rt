// Why a call is refused by the host side, or ignored by the chip, and the number that answers it then.
#![tactic(auto)]

ghost use Rattle.std.specs.Prelude.{◌≡◌};
ghost use Rattle.refusals.specs.Numbers.{number_of, answer_of};

// The refusals in the order of their numbers; from `NoBytes` to `LockFrozen` it is the chip that ignores a transaction.
#[derive(Clone, Copy, Debug, PartialEq, Eq)]
pub enum Refusal {
    // a delivery's part is none
    UnknownPart = 1,
    // the array does not have the part's bytes
    ArrayLength = 2,
    // more bytes than a transaction has
    TooManyBytes = 3,
    // more further pulses than seven
    TooManyPulses = 4,
    // the response has less room than bytes are sent
    ResponseShort = 5,
    // the record is not sound
    NotSound = 6,
    // a duration is not 1 to 1,000,000
    OddDuration = 7,
    // the packed bytes are not as many as a packing has
    PackedLength = 8,
    // an item of a batch is cut, or neither a transaction nor a wait
    BadItem = 9,
    // a buffer of a batch or a report is too short
    BufferShort = 10,
    // nothing was sent
    NoBytes = 11,
    // the instruction is not taken in a cycle
    WhileBusy = 12,
    // the instruction is not taken in deep power-down
    WhileDeep = 13,
    // the part has no such instruction
    UnknownCode = 14,
    // the bytes or the further pulses are not as the instruction needs
    OddLength = 15,
    // the instruction needs the latch
    LatchReset = 16,
    // the cycle would write in a protected sector
    Protected = 17,
    // the settings are frozen by SRWD and W
    SettingsFrozen = 18,
    // the lock register is frozen
    LockFrozen = 19,
    // a sample has one of the bits 5 to 7 set
    OddSample = 21,
    // a transaction of the samples has more bytes than there may be
    RunTooLong = 22,
    // the output has less room than there are samples
    OutputShort = 23,
    // an image's part is none
    NoImage = 31,
    // the image does not have the part's blocks
    ImageLength = 32,
    // a block of the image is bad
    BadBlock = 33,
    // the list has less room than the image has blocks
    ListShort = 34,
    // the mask does not have 256 bytes
    MaskLength = 41,
    // no chip on the bus, or more than eight
    OddRow = 51,
    // the row has no such chip
    NoSuchChip = 52,
    // the array does not have the bytes of the row's parts
    RowArrayLength = 53,
    // a total would be more than 64 bits hold
    TotalsFull = 71,
}

// The number that answers the call.
impl From<Refusal> for u8 {
    ghost from_gives = { λ refusal number. number ≡ number_of refusal };

    fn from(refusal: Refusal) -> u8 {
        refusal as u8
    }
}

// The number that a check comes to: 0 where it refuses nothing.
pub fn number(checked: Result<(), Refusal>) -> u8
    ensures { result ≡ answer_of checked }
{
    match checked {
        Ok(()) => 0,
        Err(refusal) => refusal.into(),
    }
}
