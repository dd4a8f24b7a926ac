// What a row of orders is, for `compose`: the nonce as hexadecimal digits, a blank, the line. `judge_order` says whether a row is an order
// and where its line begins, `nonce` what nonce its digits are. The promises cite specs/Orders.antt.
#![tactic(auto)]

ghost use Rattle.std.specs.Prelude.{◌≡◌};
ghost use Rattle.tool_orders.specs.Orders.{blank_at, order_of, nonce_of, order_number};

use frame_body::NONCE_LENGTH;

const BLANK: u8 = 0x20;

// Two hexadecimal digits for each byte of a nonce.
pub const NONCE_DIGITS: usize = 2 * NONCE_LENGTH;

// The place of the first blank, or the length where there is none.
fn first_blank(row: &[u8]) -> usize
    ensures { result ≡ blank_at row.now }
{
    row.iter().position(|c| *c == BLANK).unwrap_or(row.len())
}

// Whether a row is an order, and where its line begins.
pub fn judge_order(row: &[u8]) -> Option<usize>
    ensures { result ≡ order_of row.now }
{
    let at = first_blank(row);
    if at != NONCE_DIGITS {
        return None;
    }
    if !base_hex::all_digits(&row[0..at]) {
        return None;
    }
    if at < row.len() {
        return Some(at + 1);
    }
    Some(at)
}

// Document 01's number of what a row is: that of a nonce of the wrong size where there is none.
pub fn order_number(order: Option<usize>) -> u32
    ensures { result ≡ order_number order }
{
    match order {
        Some(_) => 0,
        None => 2,
    }
}

// The nonce that a row's first digits are: two digits a byte, high digit first.
pub fn nonce(row: &[u8]) -> [u8; NONCE_LENGTH]
    ensures { result ≡ nonce_of row.now }
{
    let mut bytes = [0u8; NONCE_LENGTH];
    for (i, byte) in bytes.iter_mut().enumerate() {
        *byte = base_hex::digit_at(row, 2 * i) * 16 + base_hex::digit_at(row, 2 * i + 1);
    }
    bytes
}
