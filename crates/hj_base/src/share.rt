ghost use Rattle.std.specs.Prelude.{◌≡◌, IfOk};

use crate::Memory;

/// What can be shared: a second value that is equal to the first one.
pub trait Share: Sized {
    /// Makes a value equal to this one.
    fn share(&self) -> Result<Self, Memory>
        ensures { IfOk result (λ shared. shared ≡ self.now) };
}
