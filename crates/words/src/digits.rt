// Decimal digits in a line.
ghost use Rattle.std.specs.Prelude.{◌≡◌, ◌+◌, ◌≤◌, length};
ghost use Rattle.std.specs.Char.{is_ascii_digit};
ghost use Rattle.std.specs.List.{prefix_len};
ghost use Rattle.words.specs.Reads.{decimal_at};

// How many digits a text begins with.
pub(crate) fn digits_in(t: &[u8]) -> usize
    ensures { result ≡ prefix_len is_ascii_digit t.now }
{
    t.iter().take_while(|c| c.is_ascii_digit()).count()
}

// The number that n digits from a place on write.
#[tactic(auto, using(crate::proofs::Counting::passing), unfolding(crate::specs::Reads::decimal_at))]
pub(crate) fn decimal(s: &[u8], at: usize, n: usize) -> u64
    requires { (n ≤ 4) × (at + n ≤ length s.now) }
    ensures { result ≡ decimal_at s.now at n }
{
    let mut v = 0;
    for c in &s[at..at + n] {
        v = 10 * v + u64::from(c.saturating_sub(b'0'));
    }
    v
}
