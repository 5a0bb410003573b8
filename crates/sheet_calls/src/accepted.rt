// A sheet that is accepted. `sheet_checking::accepted` makes one.
ghost use Rattle.sheet_calls.specs.Refusals.{Accepted};

#[derive(Clone, Copy)]
pub struct Sheet<'a> {
    pub bytes: &'a [u8],
    ghost accepted: { Accepted bytes.now },
}
