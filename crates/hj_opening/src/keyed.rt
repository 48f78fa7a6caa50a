ghost use Rattle.std.specs.Prelude.{◌≤◌};

/// The window of `equi W`: how many rows of a side are live, from 1 to 1,000,000.
#[derive(Clone, Copy, Debug)]
pub struct EquiWindow {
    pub rows: u32,
    ghost some: { 1 ≤ rows },
    ghost few: { rows ≤ 1000000 },
}
