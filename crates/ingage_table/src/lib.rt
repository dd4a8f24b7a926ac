// The table of InGAGE's instances (document 000, Table 2.1), and what a number names in it. The promise cites ingage_spec/specs/Instances.antt.
#![tactic(auto)]

ghost use Rattle.std.specs.Prelude.{◌≡◌};
ghost use Rattle.ingage_spec.specs.Instances.{named};

use ingage_spec::Instance;

// The bits of a byte.
const BYTE: usize = 8;

// Instances 1 to 6, each its key, nonce, seal, state and rate in bits (document 000, Table 2.1: K, N, T, b and r).
const INSTANCE_COUNT: usize = 6;

const INSTANCES: [[usize; 5]; INSTANCE_COUNT] = [
    [128, 96, 128, 232, 8],
    [128, 96, 128, 240, 16],
    [128, 96, 128, 256, 32],
    [128, 128, 128, 320, 64],
    [256, 96, 128, 512, 64],
    [256, 128, 128, 512, 64],
];

// The instance that a number names, with its sizes: instances are counted from 1.
pub fn sizes_of(instance: usize) -> Option<Instance>
    ensures { result ≡ named instance }
{
    if instance < 1 {
        return None;
    }
    if instance > INSTANCE_COUNT {
        return None;
    }
    let rows = INSTANCES;
    let row = rows[instance - 1];
    Some(Instance {
        key: row[0] / BYTE,
        nonce: row[1] / BYTE,
        seal: row[2] / BYTE,
        state: row[3] / BYTE,
        rate: row[4] / BYTE,
    })
}
