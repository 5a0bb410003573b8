// What a case has of the input: numbers, the low byte first, and parts of a size that it gives.
ghost use Rattle.std.specs.Prelude.{◌≤◌, length};

use bounded_input::read_full;
use std::io::Read;

// Reads a part of the input of this size, or as much of it as the buffer holds, to the start of the buffer.
pub fn part<'a>(input: &mut impl Read, size: u32, buffer: &'a mut [u8]) -> &'a [u8]
    ensures { length result.now ≤ length buffer.old }
{
    let count = buffer.len().min(size as usize);
    let part = &mut buffer[..count];
    read_full(input, part);
    part
}

// Copies a sheet, or as much of it as the buffer holds, to the start of the buffer.
pub fn copy<'a>(sheet: &[u8], buffer: &'a mut [u8]) -> &'a mut [u8]
    ensures { length result.now ≤ length buffer.old }
{
    let count = sheet.len().min(buffer.len());
    let part = &mut buffer[..count];
    part.copy_from_slice(&sheet[..count]);
    part
}
