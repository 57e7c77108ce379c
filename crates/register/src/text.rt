//! A verdict's line of text.
ghost use Rattle.std.specs.Prelude.{◌≡◌, ◌+◌, ◌*◌, ◌<◌, ◌≤◌, ◌∷◌, ◌++◌, length};
ghost use Rattle.std.specs.List.{All, flat_map};
ghost use Rattle.arrayvec.specs.ArrayString.{array_string_len};
ghost use Rattle.register.specs.Texts.{letter, field, verdict_line, with_line};
ghost use Rattle.register.specs.Verdicts.{values};

use crate::verdict::Verdict;
use arrayvec::ArrayString;
use itoa::Buffer;

/// The room that a line is given. No line is longer.
pub(crate) const LINE_ROOM: usize = 256;

/// A verdict with the numbers that it lists. No value and no number is large, and the numbers are few.
#[derive(Drop)]
pub(crate) struct Told<'a> {
    pub(crate) verdict: Verdict,
    pub(crate) numbers: &'a [u32],
    ghost values_fit: { All (λ x. x < 100000) (values verdict) },
    ghost numbers_fit: { All (λ x. x < 100000) numbers.now },
    ghost few: { length numbers.now ≤ 32 },
}

// Not `Display`: what is written by `write!` may fail as far as its contract says, and a line never does.
impl Told<'_> {
    /// Writes the line at the front of a text, and answers how many bytes it has. The rest of the text stays.
    pub(crate) fn write(&self, text: &mut [u8]) -> usize
        requires { LINE_ROOM ≤ length text.old }
        ensures count { result ≡ length (verdict_line self.now.verdict self.now.numbers.now) }
        ensures text { text.new ≡ with_line (verdict_line self.now.verdict self.now.numbers.now) text.old }
    {
        let line = self.line();
        text[..line.len()].copy_from_slice(line.as_bytes());
        line.len()
    }

    /// The line: the verdict's letter and values, and the numbers that it lists.
    fn line(&self) -> ArrayString<LINE_ROOM>
        ensures { result.bytes ≡ verdict_line self.now.verdict self.now.numbers.now }
    {
        let mut line = self.front();
        for number in self.numbers {
            push_field(&mut line, *number);
        }
        line.push('\n');
        line
    }

    /// The front of the line: the verdict's letter and values.
    fn front(&self) -> ArrayString<LINE_ROOM>
        ensures bytes { result.bytes ≡ letter self.now.verdict ∷ flat_map field (values self.now.verdict) }
        ensures short { array_string_len result ≤ 13 }
    {
        let mut line = ArrayString::new();
        match self.verdict {
            Verdict::Overload(count) => {
                line.push('O');
                push_field(&mut line, count);
            }
            Verdict::Noise(distance) => {
                line.push('X');
                push_field(&mut line, distance);
            }
            Verdict::Foreign { smallest, count } => {
                line.push('F');
                push_field(&mut line, smallest);
                push_field(&mut line, count);
            }
            Verdict::Named(count) => {
                line.push('N');
                push_field(&mut line, count);
            }
        }
        line
    }
}

/// Adds a field to a line: a blank and a number in decimal.
fn push_field(line: &mut ArrayString<LINE_ROOM>, number: u32)
    requires small { number < 100000 }
    requires room { array_string_len line.old + 6 ≤ LINE_ROOM }
    ensures bytes { line.new.bytes ≡ line.old.bytes ++ field number }
    ensures short { array_string_len line.new ≤ array_string_len line.old + 6 }
{
    line.push(' ');
    line.push_str(Buffer::new().format(number));
}
