// The leaders of the rounds: document 000's Table 1.11, 255 numbers, as printed, and which counts of rounds they are enough for. The promises
// cite specs/Leaders.antt, and specs/Rule.antt holds the table to order W9's rule.
#![tactic(auto)]

ghost use Rattle.std.specs.Prelude.{◌≡◌};
ghost use Rattle.gage_leaders.specs.Leaders.{leaders, counted};

// The most rounds: one for each leader of the table.
pub const MOST_ROUNDS: usize = 255;

const LEADERS: [u8; MOST_ROUNDS] = [
    0, // leader 0
    3, 0, 3, 0, 1, 2, 3, 2, 1, 2, 3, 2, 1, 2, 3, 0, // leader 16
    1, 2, 3, 2, 3, 0, 3, 2, 3, 2, 3, 2, 1, 2, 1, 0, // leader 32
    3, 2, 1, 0, 3, 2, 1, 2, 1, 2, 1, 0, 1, 2, 3, 0, // leader 48
    1, 0, 1, 0, 3, 2, 3, 0, 3, 0, 3, 0, 3, 0, 3, 2, // leader 64
    3, 2, 3, 0, 1, 2, 1, 2, 1, 0, 1, 0, 3, 0, 1, 2, // leader 80
    3, 2, 3, 2, 3, 2, 3, 0, 1, 0, 1, 2, 1, 2, 3, 2, // leader 96
    3, 0, 1, 0, 3, 2, 1, 2, 1, 0, 1, 0, 1, 0, 1, 2, // leader 112
    1, 0, 1, 2, 3, 2, 1, 0, 1, 2, 1, 0, 3, 0, 3, 2, // leader 128
    3, 0, 1, 0, 1, 0, 1, 2, 3, 0, 1, 2, 1, 0, 3, 0, // leader 144
    1, 2, 3, 0, 3, 2, 3, 0, 1, 2, 1, 0, 1, 0, 1, 2, // leader 160
    1, 2, 1, 2, 3, 0, 3, 2, 1, 2, 1, 2, 3, 0, 1, 2, // leader 176
    1, 2, 3, 0, 1, 0, 1, 2, 3, 2, 3, 2, 1, 2, 3, 0, // leader 192
    3, 2, 3, 2, 1, 2, 1, 2, 3, 2, 1, 2, 1, 0, 1, 2, // leader 208
    1, 0, 1, 0, 3, 2, 1, 2, 3, 0, 1, 0, 3, 2, 3, 2, // leader 224
    1, 0, 3, 2, 3, 0, 1, 2, 3, 0, 1, 0, 3, 0, 3, 2, // leader 240
    1, 2, 1, 0, 3, 0, 1, 0, 3, 0, 3, 0, 1, 2, // leader 254
];

// The table: the leader of round i, counted from 0, is its entry i.
#[tactic(auto, unfolding(crate::specs::Leaders::leaders))]
pub fn table() -> [u8; MOST_ROUNDS]
    ensures { result ≡ leaders }
{
    LEADERS
}

// Whether so many rounds may be run: 1 to 255.
pub fn is_count(k: usize) -> bool
    ensures { result ≡ counted k }
{
    (1..=MOST_ROUNDS).contains(&k)
}
