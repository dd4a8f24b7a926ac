// The cipher InGAGE as document 000 defines it, section 2.1, over the sizes of an instance: specs/Cipher.antt, with its laws and a known
// answer beside it. There is no code; the table of the instances' sizes is in the crate ingage_table, and the calls that meet these definitions
// are in the crate ingage_call.
#![tactic(auto)]

// The sizes of an instance in bytes.
#[derive(Clone, Copy)]
pub struct Instance {
    pub key: usize,
    pub nonce: usize,
    pub seal: usize,
    pub state: usize,
    pub rate: usize,
}
