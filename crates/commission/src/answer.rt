// What is written of a sheet that was read. What came behind a full sheet goes beside it: the two lie in two arrays.
ghost use Rattle.std.specs.Prelude.{◌++◌, ◌≡◌, ◌+◌, ◌<◌, ◌≤◌, length, take};
ghost use Rattle.compile.specs.Compiled.{compile as compile_of};
ghost use Rattle.commission.specs.Answer.{answer_of, decimal, refusal_text};
ghost use Rattle.io.specs.Counts.{IsPrefixLen};

use compile::{MOST_BYTES, Reason};
use std::io::Write;

// Puts a part behind the text that the buffer's front holds.
fn append(out: &mut [u8], at: usize, part: &[u8]) -> usize
    requires { at + length part.now ≤ length out.old }
    ensures length { result ≡ at + length part.now }
    ensures text { take result out.new ≡ take at out.old ++ part.now }
{
    let end = at + part.len();
    out[at..end].copy_from_slice(part);
    end
}

#[tactic(auto, using(crate::proofs::Digits::decimal_digits))]
fn append_number(out: &mut [u8], at: usize, n: u64) -> usize
    requires { at + 20 ≤ length out.old }
    ensures length { result ≤ at + 20 }
    ensures text { take result out.new ≡ take at out.old ++ decimal n }
{
    let mut digits = [0u8; 20];
    let k = io::decimal(n, &mut digits);
    append(out, at, &digits[..k])
}

// The number, a space, the line and LF.
#[tactic(auto, using(crate::proofs::Answering::refusal_joined))]
fn refuse(out: &mut [u8], number: u64, line: u64) -> usize
    requires { 42 ≤ length out.old }
    ensures prefix_len { IsPrefixLen result out.new }
    ensures text { take result out.new ≡ refusal_text number line }
{
    let space = append_number(out, 0, number);
    let second = append(out, space, b" ");
    let end = append_number(out, second, line);
    append(out, end, b"\n")
}

// The answer in the buffer's front, and its length.
fn answer(sheet: &[u8], more: &[u8], out: &mut [u8; MOST_BYTES]) -> usize
    requires { 0 < length more.now → 16448 ≤ length sheet.now }
    ensures prefix_len { IsPrefixLen result out.new }
    ensures text { take result out.new ≡ answer_of (compile_of (sheet.now ++ more.now) 16448) }
{
    if !more.is_empty() {
        return refuse(out, Reason::TooLong.number(), 0);
    }
    match compile::compile(sheet, out) {
        Ok(length) => length,
        Err(refusal) => refuse(out, refusal.reason.number(), refusal.line as u64),
    }
}

// Standard output is handed the answer of the sheet that was read, and nothing else.
fn send<W: Write>(output: &mut W, sheet: &[u8], more: &[u8], text: &[u8]) -> std::io::Result<()>
    requires { text.now ≡ answer_of (compile_of (sheet.now ++ more.now) 16448) }
{
    output.write_all(text)
}

pub(crate) fn give<W: Write>(
    output: &mut W,
    sheet: &[u8],
    more: &[u8],
    plan: &mut [u8; MOST_BYTES],
) -> std::io::Result<()>
    requires { 0 < length more.now → 16448 ≤ length sheet.now }
{
    let length = answer(sheet, more, plan);
    send(output, sheet, more, &plan[..length])
}
