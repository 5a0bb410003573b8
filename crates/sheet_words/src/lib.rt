// Numbers of 16 bits in bytes, the low byte first: read, written, and signed ones brought to 16 bits. One is held as u32, as the pixels and lines are that it
// is compared with: of u16 every caller would convert it. Reading is two functions: a trait with the two `from_le_bytes` would be longer than they are.
#![tactic(auto)]

pub mod theorems;

ghost use Rattle.std.specs.Prelude.{◌≡◌, ◌+◌, ◌<◌, length};
ghost use Rattle.integers.specs.Within.{◌within◌};
ghost use Rattle.sheet_words.specs.Word.{word_at, signed, bits_of, bytes_of, replaced};

// The unsigned number in the two bytes at index `at`.
pub fn word(s: &[u8], at: usize) -> u32
    requires { at + 1 < length s.now }
    ensures { (result ≡ word_at s.now at) × (result < 65536) }
{
    u32::from(u16::from_le_bytes([s[at], s[at + 1]]))
}

// The signed number in the two bytes at index `at`.
pub fn signed_word(s: &[u8], at: usize) -> i64
    requires { at + 1 < length s.now }
    ensures { (result ≡ signed (word_at s.now at)) × (result within 32768) }
{
    i64::from(i16::from_le_bytes([s[at], s[at + 1]]))
}

// Writes a number of 16 bits to the two bytes at index `at`.
pub fn put_word(s: &mut [u8], at: usize, x: u32)
    requires { (at + 1 < length s.old) × (x < 65536) }
    ensures { s.new ≡ replaced s.old at (bytes_of x) }
{
    s[at..at + 2].copy_from_slice(&(x as u16).to_le_bytes());
}

// The 16 bits of a signed number.
pub fn bits_of(x: i32) -> u32
    requires { x within 32767 }
    ensures { (result ≡ bits_of x) × (result < 65536) }
{
    u32::from((x as i16).cast_unsigned())
}
