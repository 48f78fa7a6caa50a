ghost use Rattle.std.specs.Prelude.{◌≡◌, ℕ, List, [], ◌∷◌, ◌++◌, length};
ghost use Rattle.hj_msg.specs.Driver.{DriverTurn, closing, outstanding};
ghost use Rattle.hj_driver.specs.Driver.{DriverState, closed, closing_of, count_of, new_driver};
ghost use Rattle.hj_driver.specs.StandsFor.{StandsFor, closing_after};

use crate::Closing;

/// Shows what the calls that see no row do to the logs that a driver stands for, of rows of any kind: a new driver
/// stands for the empty log; a close that is to be sent puts the closes after each log, and is answered as the log
/// says; and the count is that of the outstanding events of each log.
pub fn drivers_follow_their_logs<P>()
    ensures new { (flight : ℕ) → StandsFor {P = P} (new_driver flight) [] }
    ensures close { (driver : DriverState) (log : List (DriverTurn P)) → StandsFor driver log → closing_of driver ≡ Closing.Send → StandsFor (closed driver) (log ++ closing ∷ []) }
    ensures answer { (driver : DriverState) (log : List (DriverTurn P)) → StandsFor driver log → closing_of driver ≡ closing_after log }
    ensures count { (driver : DriverState) (log : List (DriverTurn P)) → StandsFor driver log → count_of driver ≡ length (outstanding log) }
{}
