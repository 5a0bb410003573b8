// Numbers in decimal and whole lines as ASCII text, written into lent memory of a fixed size, so that there is no `String`. Each call answers the index behind
// what it wrote.
#![tactic(auto)]

pub mod theorems;

ghost use Rattle.std.specs.Prelude.{◌≡◌, ◌+◌, ◌≤◌, length};
ghost use Rattle.sheet_words.specs.Word.{replaced};
ghost use Rattle.program_text.specs.Text.{field, line, refused_line};

use itoa::Buffer;

const BLANK: u8 = b' ';

const NEWLINE: u8 = b'\n';

// A line of numbers from index `at` on.
pub fn line(out: &mut [u8], at: usize, numbers: &[i64]) -> usize
    requires { (1 ≤ length numbers.now) × (at + length (line numbers.now) ≤ length out.old) }
    ensures end { result ≡ at + length (line numbers.now) }
    ensures text { out.new ≡ replaced out.old at (line numbers.now) }
{
    let last = numbers.len() - 1;
    let mut end = at;
    for z in &numbers[..last] {
        end = field(out, end, *z, BLANK);
    }
    field(out, end, numbers[last], NEWLINE)
}

// A refusal's line, from the start.
pub fn refused(out: &mut [u8], n: u32) -> usize
    requires { length (refused_line n) ≤ length out.old }
    ensures end { result ≡ length (refused_line n) }
    ensures text { out.new ≡ replaced out.old 0 (refused_line n) }
{
    let end = text(out, 0, b"refused ");
    field(out, end, i64::from(n), NEWLINE)
}

// A number and the character behind it.
fn field(out: &mut [u8], at: usize, z: i64, behind: u8) -> usize
    requires { at + length (field z behind) ≤ length out.old }
    ensures end { result ≡ at + length (field z behind) }
    ensures text { out.new ≡ replaced out.old at (field z behind) }
{
    let mut buffer = Buffer::new();
    let end = text(out, at, buffer.format(z).as_bytes());
    out[end] = behind;
    end + 1
}

// Characters as they are.
fn text(out: &mut [u8], at: usize, characters: &[u8]) -> usize
    requires { at + length characters.now ≤ length out.old }
    ensures end { result ≡ at + length characters.now }
    ensures text { out.new ≡ replaced out.old at characters.now }
{
    let end = at + characters.len();
    out[at..end].copy_from_slice(characters);
    end
}
