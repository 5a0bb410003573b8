// The header of a sheet: its mark, its version, how many lines it has.
ghost use Rattle.std.specs.Prelude.{◌≡◌, ◌≤◌, ◌<◌, length};
ghost use Rattle.sheet_layout.specs.Format.{header_size, marked, version, supported, columns, rows, count_in, reserved};

use sheet_words::word;

// How many bytes it has.
pub const HEADER_SIZE: usize = 8;

// Whether it starts with the mark LVS.
pub fn marked(sheet: &[u8]) -> bool
    requires { header_size ≤ length sheet.now }
    ensures { result ≡ marked sheet.now }
{
    sheet.starts_with(b"LVS")
}

pub fn version(sheet: &[u8]) -> u32
    requires { header_size ≤ length sheet.now }
    ensures { result ≡ version sheet.now }
{
    word(sheet, 3)
}

// Whether sheets of this version are read.
pub fn supported(version: u32) -> bool
    ensures { result ≡ supported version }
{
    version == 1
}

// How many vertical lines there are, and how many horizontal ones. Each is one byte: a common function would be no shorter.
pub fn columns(sheet: &[u8]) -> usize
    requires { header_size ≤ length sheet.now }
    ensures { (result ≡ columns sheet.now) × (result < 256) }
{
    usize::from(sheet[5])
}

pub fn rows(sheet: &[u8]) -> usize
    requires { header_size ≤ length sheet.now }
    ensures { (result ≡ rows sheet.now) × (result < 256) }
{
    usize::from(sheet[6])
}

// Whether an axis may have this many.
pub fn count_in(n: usize) -> bool
    ensures { result ≡ count_in n }
{
    (2..=65).contains(&n)
}

// Byte 7, which has to be 0.
pub fn reserved(sheet: &[u8]) -> u8
    requires { header_size ≤ length sheet.now }
    ensures { result ≡ reserved sheet.now }
{
    sheet[7]
}
