// The static library for C: each call of the crate lubdhvani under its C name, with the same promise, one module for each wing of the library.
// include/lubdhvani.h is its manual. The structs are the library's own.
#![tactic(auto)]

ghost use Rattle.std.specs.Prelude.{◌≡◌};

pub mod accept;
pub mod bundle;
pub mod convert;
pub mod digest;
pub mod frame;
pub mod gage;
pub mod index;
pub mod ingage;
pub mod read;
pub mod replay;
pub mod running;
pub mod walk;

// The version of the library that is linked.
#[unsafe(no_mangle)]
pub extern "C" fn lubdhvani_version() -> u32
    ensures { result ≡ 20000 }
{
    lubdhvani::lubdhvani_version()
}
