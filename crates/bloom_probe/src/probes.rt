// Where a hash probes a field.
ghost use Rattle.std.specs.Prelude.{◌≡◌, ◌+◌, ◌*◌, ◌%◌, ◌≤◌, ◌<◌, max};
ghost use Rattle.rules.specs.Sizes.{sizes};

// One step of a probe. Both numbers are below m, so the sum is less than twice m, and taking m off at most once leaves its remainder: no
// division.
pub fn step(a: u32, b: u32, m: u32) -> u32
    requires { (a < m) × (b < m) × (m ≤ 8 * sizes.field) }
    ensures { (result ≡ (a + b) % m) × (result < m) }
{
    let sum = a + b;
    if sum < m { sum } else { sum - m }
}

// The two numbers that move from probe to probe; x is the probe.
#[derive(Clone, Copy)]
pub struct Probe {
    pub x: u32,
    pub y: u32,
}

impl Probe {
    // The next probe: x is stepped by y as it was, and y by z after it.
    pub fn next(self, z: u32, m: u32) -> Probe
        requires { (self.x < m) × (self.y < m) × (z < m) × (m ≤ 8 * sizes.field) }
        ensures { result ≡ record { x = (self.x + self.y) % m; y = (self.y + z) % m } }
    {
        let x = step(self.x, self.y, m);
        let y = step(self.y, z, m);
        Probe { x, y }
    }
}

// How many probes a hash has.
pub fn count(probes: u64) -> u64
    ensures { result ≡ max 1 probes }
{
    if probes == 0 { 1 } else { probes }
}
