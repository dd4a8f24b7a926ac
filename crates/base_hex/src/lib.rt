// Hexadecimal text in lent buffers, for the programs: bytes to upper-case digits, and digits of either case to bytes.
// The promises cite specs/Hex.antt.
#![tactic(auto)]

ghost use Rattle.std.specs.Prelude.{◌≡◌, ◌%◌, ◌<◌};
ghost use Rattle.base_hex.specs.Hex.{digit, hex_length, hex_out, value_of, all_digits, digit_at};

// The upper-case digit of a number below 16.
fn digit_of(n: u8) -> u8
    requires { n < 16 }
    ensures { result ≡ digit n }
{
    if n < 10 { 0x30 + n } else { 0x37 + n }
}

// The upper-case digit of a number's last hexadecimal place.
pub fn last_digit(n: u8) -> u8
    ensures { result ≡ digit (n % 16) }
{
    digit_of(n % 16)
}

// Two digits for each byte at the start of out, for as many bytes as there is room; the number of digits.
pub fn put_hex(bytes: &[u8], out: &mut [u8]) -> usize
    ensures value { result ≡ hex_length bytes.now out.old }
    ensures out_after { out.new ≡ hex_out bytes.now out.old }
{
    let fit = bytes.len().min(out.len() / 2);
    for i in 0..fit {
        out[2 * i] = digit_of(bytes[i] / 16);
        out[2 * i + 1] = digit_of(bytes[i] % 16);
    }
    2 * fit
}

// The value of a hexadecimal digit of either case.
#[tactic(auto, using(std::proofs::lemmas::Bool::Decides::nat_tests), unfolding(crate::specs::Hex::value_of))]
pub fn value(c: u8) -> Option<u8>
    ensures { result ≡ value_of c }
{
    match c {
        0x30..=0x39 => Some(c - 0x30),
        0x41..=0x46 => Some(c - 0x37),
        0x61..=0x66 => Some(c - 0x57),
        _ => None,
    }
}

// Whether every byte is a hexadecimal digit.
pub fn all_digits(digits: &[u8]) -> bool
    ensures { result ≡ all_digits digits.now }
{
    digits.iter().all(|c| matches!(value(*c), Some(_)))
}

// The value of the digit at a place; 0 where there is none.
#[tactic(auto, using(std::proofs::lemmas::Bool::Decides::nat_tests), unfolding(crate::specs::Hex::digit_at, crate::specs::Hex::value_of))]
pub fn digit_at(digits: &[u8], at: usize) -> u8
    ensures value { result ≡ digit_at digits.now at }
    ensures upper_bound { result < 16 }
{
    let Some(c) = digits.get(at) else {
        return 0;
    };
    match value(*c) {
        Some(v) => v,
        None => 0,
    }
}
