// Lines of upper-case hex digits, two to a byte.
#![tactic(auto)]

ghost use Rattle.std.specs.Prelude.{◌≡◌, ◌<◌};
ghost use Rattle.std.specs.List.{list_all};
ghost use Rattle.hex_lines.specs.Hex.{hex_digit, hex_of, digit_of, is_digit, digit_bits, spells, number_at, put_at};

// The value of a digit, and none of any other byte.
#[tactic(auto, using(crate::proofs::Digits::a_figure, crate::proofs::Digits::a_letter, crate::proofs::Digits::no_digit))]
pub fn digit_value(c: u8) -> Option<u64>
    ensures { result ≡ digit_of c }
{
    match c {
        b'0'..=b'9' => Some(u64::from(c - b'0')),
        b'A'..=b'F' => Some(u64::from(c - b'A') + 10),
        _ => None,
    }
}

// How many bytes are tested with no way out, so that many are tested at once: more than a line of a plan has.
const AT_ONCE: usize = 128;

// `all` stops at the first other byte, and takes several times as long over digits.
fn digits_at_once(part: &[u8]) -> bool
    ensures { result ≡ list_all is_digit part.now }
{
    let mut all = true;
    for c in part {
        all &= digit_value(*c).is_some();
    }
    all
}

// Part by part: a part with another byte ends it.
fn all_digits(line: &[u8]) -> bool
    ensures { result ≡ list_all is_digit line.now }
{
    let mut rest = line;
    while AT_ONCE < rest.len() {
        let (part, more) = rest.split_at(AT_ONCE);
        if !digits_at_once(part) {
            return false;
        }
        rest = more;
    }
    digits_at_once(rest)
}

// Whether the line is an even number of digits and nothing else.
#[tactic(auto, using(crate::proofs::Spelt::spells_odd, crate::proofs::Spelt::spells_even))]
pub fn is_line(line: &[u8]) -> bool
    ensures { result ≡ spells line.now }
{
    line.len() % 2 == 0 && all_digits(line)
}

// The value of a byte that is known for a digit, with no branch.
#[tactic(auto, unfolding(crate::specs::Hex::digit_bits))]
fn digit_bits(c: u8) -> u64
    ensures { result ≡ digit_bits c }
{
    let d = u64::from(c);
    (d % 16 + 9 * (d / 64)) % 16
}

// The number of the k bytes that the digits from byte `at` on spell; 0 past the line's end or over eight bytes.
#[tactic(auto, using(crate::proofs::Numbers::number_over, crate::proofs::Numbers::number_outside, crate::proofs::Numbers::number_inside, crate::proofs::Numbers::digits_end))]
pub fn number(line: &[u8], at: usize, k: usize) -> u64
    ensures { result ≡ number_at line.now at k }
{
    let bytes = line.len() / 2;
    if 8 < k || bytes < at || bytes - at < k {
        return 0;
    }
    let mut v: u64 = 0;
    let digits = &line[2 * at..2 * (at + k)];
    for c in digits {
        v = 16 * v + digit_bits(*c);
    }
    v
}

// The digit of a value.
#[tactic(auto, unfolding(crate::specs::Hex::hex_digit))]
fn digit(n: u64) -> u8
    requires { n < 16 }
    ensures { result ≡ hex_digit n }
{
    if n < 10 {
        b'0' + n as u8
    } else {
        b'A' + (n - 10) as u8
    }
}

// Writes v as k bytes from place `at` on, the last byte first; nothing if they do not fit.
#[tactic(auto, using(crate::proofs::Puts::put_inside, crate::proofs::Puts::put_outside, crate::proofs::Puts::length_hex, crate::proofs::Puts::last_digits, crate::proofs::Puts::all_done))]
pub fn put(buf: &mut [u8], at: usize, k: usize, v: u64)
    ensures { buf.new ≡ put_at buf.old at (hex_of k v) }
{
    if buf.len() < at || (buf.len() - at) / 2 < k {
        return;
    }
    let mut left = v;
    // The last byte first, two digits each: chunks from the back would be counted from the end of the buffer.
    for i in (0..k).rev() {
        let place = at + 2 * i;
        buf[place] = digit(left / 16 % 16);
        buf[place + 1] = digit(left % 16);
        left /= 256;
    }
}
