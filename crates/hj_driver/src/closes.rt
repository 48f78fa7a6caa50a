ghost use Rattle.std.specs.Prelude.{◌≡◌, ◌↔◌, IsTrue};
ghost use Rattle.hj_driver.specs.Driver.{is_sent, is_finished, after_close_taken};

use hj_base::Side;

/// The closes of the two ends: not sent yet, or sent; then which of them was taken.
#[derive(Clone, Copy, Debug, PartialEq, Eq)]
pub enum Closes {
    Unsent,
    Sent { left: bool, right: bool },
}

impl Closes {
    /// Returns whether they were sent.
    pub fn are_sent(self) -> bool
        ensures { result ≡ is_sent self }
    {
        matches!(self, Closes::Sent { .. })
    }

    /// Returns whether both were taken.
    pub fn are_taken(self) -> bool
        ensures { result ≡ is_finished self }
    {
        matches!(
            self,
            Closes::Sent {
                left: true,
                right: true
            }
        )
    }

    /// Takes note that the close of an end was taken. It counts only after it was sent.
    pub fn take(self, end: Side) -> Self
        ensures { result ≡ after_close_taken end self }
    {
        match (self, end) {
            (Closes::Unsent, _) => Closes::Unsent,
            (Closes::Sent { right, .. }, Side::Left) => Closes::Sent { left: true, right },
            (Closes::Sent { left, .. }, Side::Right) => Closes::Sent { left, right: true },
        }
    }
}
