// The bench's line language: what a line asks, and the lines that answer it.
#![tactic(auto)]

ghost use Rattle.std.specs.Prelude.{◌≡◌, true, false, [], ◌∷◌, ◌<◌, ◌==◌, get_or, drop, slice_index, MatchOption};
ghost use Rattle.slices.specs.Changed.{map_at};
ghost use Rattle.script.specs.Lines.{digit_of, all_below, is_hex, is_exchange, is_power_up, pairs, Parsed};
ghost use Rattle.script.specs.Answers.{decimal, hex_digit, hex_byte, hex_text, hex_or_dash, answer_line, end_line, Printed};
ghost use Rattle.script.specs.Steps.{number_in, ticks_in, Prints};

use slices::byte_at;

// What a line asks. `Malformed` is a command and no error: `meaning` and `Parsed`, of which the theorems speak, have it so.
#[derive(Clone, Copy, Debug, PartialEq, Eq)]
pub enum Command {
    Exchange { w: bool, pulses: u8, n: usize },
    Wait(u32),
    PowerUp,
    Malformed,
}

// The value of a digit of either case, 16 for another character: below a base is then one comparison.
#[tactic(auto, unfolding(crate::specs::Lines::digit_of))]
fn digit(b: u8) -> u8
    ensures { result ≡ digit_of b }
{
    match b {
        b'0'..=b'9' => b - b'0',
        b'A'..=b'F' => b - b'A' + 10,
        b'a'..=b'f' => b - b'a' + 10,
        _ => 16,
    }
}

// Whether every character is a digit below `base`.
fn all_below(base: u8, text: &[u8]) -> bool
    ensures { result ≡ all_below base text.now }
{
    // every character is tested: a way out of the loop would cost a good line more than it spares a bad one
    let mut all = true;
    for x in text {
        all = all & (digit(*x) < base);
    }
    all
}

// Whether a field is hexadecimal pairs, one at least.
#[tactic(auto, unfolding(crate::specs::Lines::is_hex))]
fn is_hex(text: &[u8]) -> bool
    ensures { result ≡ is_hex text.now }
{
    (0 < text.len()) & (text.len() % 2 == 0) & all_below(16, text)
}

// The number of a field of decimal digits, one at least, where it is below 2^32.
fn number(text: &[u8]) -> Option<u32>
    ensures { result ≡ number_in text.now }
{
    if text.is_empty() | !all_below(10, text) {
        return None;
    }
    let mut v: u32 = 0;
    for x in text {
        v = v.checked_mul(10)?.checked_add(u32::from(digit(*x)))?;
    }
    Some(v)
}

// W, the further pulses and the pairs of a line that has the form `x W bits hex` or `x W bits`.
#[tactic(auto, unfolding(crate::specs::Lines::is_exchange, crate::specs::Lines::is_hex))]
fn exchange(line: &[u8]) -> Option<(bool, u8, &[u8])>
    ensures { MatchOption result (is_exchange line.now ≡ false) (λ e. (is_exchange line.now ≡ true) × (e.0 ≡ (slice_index line.now 2 == 49)) × (e.1 ≡ digit_of (slice_index line.now 4)) × (e.2.now ≡ drop 6 line.now)) }
{
    let [b'x', b' ', w, b' ', bits, rest @ ..] = line else {
        return None;
    };
    let hex = match rest {
        [] => rest,
        [b' ', hex @ ..] if is_hex(hex) => hex,
        _ => return None,
    };
    if (digit(*w) < 2) & (digit(*bits) < 8) {
        return Some((*w == b'1', digit(*bits), hex));
    }
    None
}

// The ticks of a line that has the form `w t`.
#[tactic(auto, unfolding(crate::specs::Lines::is_wait))]
fn ticks(line: &[u8]) -> Option<u32>
    ensures { result ≡ ticks_in line.now }
{
    match line {
        [b'w', b' ', text @ ..] => number(text),
        _ => None,
    }
}

// Whether a line is `p`.
#[tactic(auto, unfolding(crate::specs::Lines::is_power_up))]
fn is_power_up(line: &[u8]) -> bool
    ensures { result ≡ is_power_up line.now }
{
    line == b"p".as_slice()
}

// The bytes of hexadecimal pairs go to the start of `out`, as far as it has room.
fn store(text: &[u8], out: &mut [u8])
    requires { all_below 16 text.now ≡ true }
    ensures { out.new ≡ map_at (get_or (pairs text.now)) out.old }
{
    let n = (text.len() / 2).min(out.len());
    // by the index of the pair: a `zip` with `out.iter_mut()` leaves nothing known of `out`
    for (i, byte) in out[..n].iter_mut().enumerate() {
        *byte = 16 * digit(text[2 * i]) + digit(text[2 * i + 1]);
    }
}

// What a line asks. The bytes of an exchange go to the start of `sent`, as far as it has room; the rest of it stays.
pub fn parse(line: &[u8], sent: &mut [u8]) -> Command
    ensures { Parsed line.now sent.old result sent.new }
{
    if 600 < line.len() {
        return Command::Malformed;
    }
    if let Some((w, pulses, hex)) = exchange(line) {
        store(hex, sent);
        return Command::Exchange {
            w,
            pulses,
            n: hex.len() / 2,
        };
    }
    if let Some(t) = ticks(line) {
        return Command::Wait(t);
    }
    if is_power_up(line) {
        return Command::PowerUp;
    }
    Command::Malformed
}

// A buffer for text, and the place where the next character goes.
#[derive(Drop)]
struct Text<'a> {
    bytes: &'a mut [u8],
    at: usize,
}

// Each method says by `same` that the buffer is still the caller's: what the caller's buffer holds at last is known by it.
impl<'a> Text<'a> {
    // One character, where there is room.
    #[tactic(auto, using(crate::proofs::Printing::printed_here, crate::proofs::Printing::printed_nowhere))]
    fn push(&mut self, b: u8)
        ensures same { self.new.bytes.ghost_name ≡ self.old.bytes.ghost_name }
        ensures printed { Prints (b ∷ []) self.old self.new }
    {
        if self.at < self.bytes.len() {
            self.bytes[self.at] = b;
            self.at += 1;
        } else {
            self.at = self.bytes.len();
        }
    }

    // Characters.
    fn put(&mut self, line: &[u8])
        ensures same { self.new.bytes.ghost_name ≡ self.old.bytes.ghost_name }
        ensures printed { Prints line.now self.old self.new }
    {
        self.at = self.at.min(self.bytes.len());
        for b in line {
            self.push(*b);
        }
    }

    // A number in decimal digits.
    fn decimal(&mut self, n: u64)
        ensures same { self.new.bytes.ghost_name ≡ self.old.bytes.ghost_name }
        ensures printed { Prints (decimal n) self.old self.new }
    {
        if 10 <= n {
            self.decimal(n / 10);
        }
        self.push(b'0' + (n % 10) as u8);
    }

    // The two hexadecimal digits of a byte.
    fn byte(&mut self, b: u8)
        ensures same { self.new.bytes.ghost_name ≡ self.old.bytes.ghost_name }
        ensures printed { Prints (hex_byte b) self.old self.new }
    {
        self.push(hex_digit(b / 16));
        self.push(hex_digit(b % 16));
    }

    // The hexadecimal digits of bytes, or a dash where there are none.
    fn response(&mut self, bytes: &[u8])
        ensures same { self.new.bytes.ghost_name ≡ self.old.bytes.ghost_name }
        ensures printed { Prints (hex_or_dash bytes.now) self.old self.new }
    {
        if bytes.is_empty() {
            self.push(b'-');
        } else {
            self.hex(bytes);
        }
    }

    // The hexadecimal digits of bytes.
    fn hex(&mut self, bytes: &[u8])
        ensures same { self.new.bytes.ghost_name ≡ self.old.bytes.ghost_name }
        ensures printed { Prints (hex_text bytes.now) self.old self.new }
    {
        self.at = self.at.min(self.bytes.len());
        for b in bytes {
            self.byte(*b);
        }
    }
}

// The hexadecimal digit of a number below 16.
#[tactic(auto, unfolding(crate::specs::Answers::hex_digit))]
fn hex_digit(n: u8) -> u8
    requires { n < 16 }
    ensures { result ≡ hex_digit n }
{
    if n < 10 { b'0' + n } else { b'A' + n - 10 }
}

// The line that answers line `number`, from place `at` of `text` on, as far as there is room: the place past it.
// Buffer and place each by itself: `Printed`, which callers see, speaks of both.
pub fn print_answer(number: u64, answer: u8, bytes: &[u8], text: &mut [u8], at: usize) -> usize
    ensures { Printed (answer_line number answer bytes.now) text.old at text.new result }
{
    let mut out = Text { bytes: text, at };
    out.decimal(number);
    out.push(b' ');
    out.decimal(u64::from(answer));
    out.push(b' ');
    out.response(bytes);
    out.push(b'\n');
    out.at
}

// The line that ends the output, from place `at` of `text` on, as far as there is room: the place past it. Buffer and place as above.
pub fn print_end(lines: u64, text: &mut [u8], at: usize) -> usize
    ensures { Printed (end_line lines) text.old at text.new result }
{
    let mut out = Text { bytes: text, at };
    out.put(b"end ");
    out.decimal(lines);
    out.push(b'\n');
    out.at
}
