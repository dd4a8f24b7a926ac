// What several C calls answer, as C structs. Every field has the size of a number of the machine: no struct has padding. The promise cites
// nothing.
ghost use Rattle.std.specs.Prelude.{◌≡◌};

// A number, and the count of the calls of the permutation.
#[repr(C)]
#[derive(Clone, Copy)]
pub struct Counted {
    pub number: usize,
    pub calls: usize,
}

// A number, and the length of what was written or found.
#[repr(C)]
#[derive(Clone, Copy)]
pub struct Measured {
    pub number: usize,
    pub length: usize,
}

// A number as a field of such a struct.
pub fn field(number: u32) -> usize
    ensures { result ≡ number }
{
    number as usize
}
