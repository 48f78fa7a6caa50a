ghost use Rattle.std.specs.Prelude.{◌≤◌};

use hj_opening::EquiWindow;

/// The two streams that `gen N KEYS SEED W` makes and joins on equal keys.
#[derive(Clone, Copy, Debug)]
pub struct Recipe {
    /// How many rows each stream has, from 0 to 100,000.
    pub rows: u32,
    /// How many keys there are, from 1 to 1,000,000,000.
    pub keys: u32,
    /// What determines the left stream; the next number determines the right one.
    pub seed: u64,
    /// The window of either side.
    pub window: EquiWindow,
    ghost few_rows: { rows ≤ 100000 },
    ghost some_keys: { 1 ≤ keys },
    ghost few_keys: { keys ≤ 1000000000 },
}
