// What every line of the output has, as in tests/vectors/calls.txt.
use std::io;

// A sheet, and its name in the vectors.
#[derive(Clone, Copy)]
pub struct Case<'a> {
    pub name: &'a [u8],
    pub sheet: &'a [u8],
}

impl Case<'_> {
    // How a call's line starts: its name, that of the case, and its first two arguments.
    pub fn call_at(self, rt: &impl Print, verb: &str, x: u32, y: u32) -> io::Result<()> {
        self.call(rt, verb)?;
        print!(rt; "{x} {y} ")
    }

    // The same of a call without arguments.
    pub fn call(self, rt: &impl Print, verb: &str) -> io::Result<()> {
        print!(rt; "{verb} ")?;
        rt.write_all(self.name)?;
        print!(rt; " ")
    }
}

// What follows the arguments: the number that the call gives.
pub fn answer(rt: &impl Print, number: u32) -> io::Result<()> {
    print!(rt; "-> {number}")
}
