// What is wrong with a text or a slice.
ghost use Rattle.std.specs.Prelude.{◌≡◌};
ghost use Rattle.sheet.specs.Fault.{fault_number};

#[derive(Clone, Copy, Debug, PartialEq, Eq)]
pub enum Fault {
    // A slice of the wrong length.
    WrongLength,
    // A line missing, surplus or malformed.
    Malformed,
    // A number outside its range.
    OutOfRange,
    // A rule with equal points or one not present.
    NoPoint,
}

impl Fault {
    // The number that is printed of it, and that crosses to C.
    pub fn number(self) -> usize
        ensures { result ≡ fault_number self }
    {
        match self {
            Fault::WrongLength => 2,
            Fault::Malformed => 7,
            Fault::OutOfRange => 8,
            Fault::NoPoint => 9,
        }
    }
}
