// What streams cost together.
ghost use Rattle.std.specs.Prelude.{◌≡◌, ◌*◌, ◌≤◌, length};
ghost use Rattle.streams.specs.Demands.{total};

use crate::load::Load;

impl Load<'_> {
    // The costs of the streams together.
    pub fn total_cost(&self) -> u64
        ensures is { result ≡ total self.now.streams.now }
        ensures low { result ≤ 20000000 * length self.now.streams.now }
    {
        let mut sum: u64 = 0;
        for stream in self.streams {
            sum += stream.cost;
        }
        sum
    }
}
