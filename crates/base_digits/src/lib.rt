// The digits of the machine's numbers, and what the machine's operations make of them: laws alone, which other crates cite (specs/Digits.antt,
// specs/Held.antt).
#![tactic(auto)]
