// The items of a batch in their bytes, and what one of them says.
ghost use Rattle.std.specs.Prelude.{◌≡◌, ◌+◌, min, length};
ghost use Rattle.std.specs.Iterator.{YieldsFirstRef, item_count};
ghost use Rattle.batch.specs.Items.{length_in, good_item, items_of, event_in};
ghost use Rattle.batch.specs.Found.{event_of};

// The flag byte of a wait; those below it are of transactions.
pub const WAIT: u8 = 16;

// The bytes before what an item sends, or waits.
const HEAD: usize = 3;

// The length that an item says.
fn length_in(item: &[u8]) -> u16
    ensures { result ≡ length_in item.now }
{
    u16::from_le_bytes([slices::byte_at(item, 0), slices::byte_at(item, 1)])
}

// How many bytes the first item takes.
pub fn size(rest: &[u8]) -> usize
    ensures { result ≡ min (3 + length_in rest.now) (length rest.now) }
{
    (HEAD + usize::from(length_in(rest))).min(rest.len())
}

// Whether an item is whole, and a transaction or a wait.
#[tactic(auto, unfolding(crate::specs::Items::good_item))]
pub(crate) fn good(item: &[u8]) -> bool
    ensures { result ≡ good_item item.now }
{
    let n = usize::from(length_in(item));
    let flag = slices::byte_at(item, 2);
    item.len() == HEAD + n && (flag < WAIT || flag == WAIT && n == 4)
}

// An item: bytes sent to the chip with pulses behind them and the level of W, or a wait of some ticks.
#[derive(Clone, Copy)]
pub enum Item<'a> {
    Transaction {
        sent: &'a [u8],
        pulses: u32,
        w: bool,
    },
    Wait(u32),
}

impl<'a> Item<'a> {
    // What the bytes of an item say: W is in bit 0 of the flag, the further pulses in bits 1 to 3.
    #[tactic(auto, unfolding(crate::specs::Items::event_in))]
    pub fn of(item: &'a [u8]) -> Self
        ensures { event_of result ≡ event_in item.now }
    {
        let flag = slices::byte_at(item, 2);
        if flag == WAIT {
            return Item::Wait(slices::word_at(item, HEAD));
        }
        let start = HEAD.min(item.len());
        Item::Transaction {
            sent: &item[start..],
            pulses: u32::from(flag / 2),
            w: flag % 2 == 1,
        }
    }
}

// The items of a batch in order, each as its bytes; the last one may be cut.
#[derive(Clone, Copy)]
pub struct EachItem<'a> {
    rest: &'a [u8],
}

impl<'a> EachItem<'a> {
    pub fn of(items: &'a [u8]) -> Self
        ensures { items_of result.rest.now ≡ items_of items.now }
    {
        EachItem { rest: items }
    }
}

impl<'a> Iterator for EachItem<'a> {
    type Item = &'a [u8];

    ghost next_gives = { YieldsFirstRef (λ s. items_of s.rest.now) };

    ghost remaining = { item_count (λ s. items_of s.rest.now) };

    fn next(&mut self) -> Option<&'a [u8]> {
        if self.rest.is_empty() {
            return None;
        }
        let (item, rest) = self.rest.split_at(size(self.rest));
        self.rest = rest;
        Some(item)
    }
}
