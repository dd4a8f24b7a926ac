// Bytes by a rule, for known answers and rows: a start, and one step from byte to byte. The promise cites specs/Rule.antt.
#![tactic(auto)]

ghost use Rattle.std.specs.Prelude.{◌≡◌, length};
ghost use Rattle.base_ramp.specs.Rule.{ramp};

// All of out by the rule.
pub fn fill(out: &mut [u8], start: u8, step: u8)
    ensures { out.new ≡ ramp start step (length out.old) }
{
    let mut x = start;
    for b in out.iter_mut() {
        *b = x;
        x = x.wrapping_add(step);
    }
}
