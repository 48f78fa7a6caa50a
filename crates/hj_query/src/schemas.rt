ghost use Rattle.std.specs.Prelude.{◌≡◌};
ghost use Rattle.hj_query.specs.Sides.{by_side};

use hj_base::Side;
use hj_value::Schema;

/// The schemas of the two streams.
#[derive(Debug, Drop)]
pub struct Schemas {
    pub left: Schema,
    pub right: Schema,
}

impl Schemas {
    /// Returns the schema of a side.
    pub fn of(&self, side: Side) -> &Schema
        ensures { result.now ≡ by_side self.now.left self.now.right side }
    {
        match side {
            Side::Left => &self.left,
            Side::Right => &self.right,
        }
    }
}
