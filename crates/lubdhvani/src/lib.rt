// The calls of the C interface: each proved call under its C name, thin, one module for each wing of the library. include/lubdhvani.h is its manual;
// numbers are document 01's. A call that answers more than a number returns a struct by value whose fields are all of one size, so that it has no padding.
// The static library that C links is the crate lubdhvani_c, which exports these calls. The promises cite specs/Answers.antt for those structs, and for
// what stands in them the definitions of the calls below.
#![tactic(auto)]

ghost use Rattle.std.specs.Prelude.{◌≡◌};

pub mod accept;
pub mod answers;
pub mod bundle;
pub mod convert;
pub mod digest;
pub mod frame;
pub mod gage;
pub mod index;
pub mod ingage;
pub mod read;
pub mod replay;
pub mod running;
pub mod walk;

// The version of this interface, 2.0.0, as one number: the first part times 10,000, the second times 100 and the third. The file VERSION has it, and
// the header.
pub const VERSION: u32 = 20000;

// The version of the library that is linked.
pub fn lubdhvani_version() -> u32
    ensures { result ≡ 20000 }
{
    VERSION
}
