ghost use Rattle.std.specs.Prelude.{◌≡◌, is_some, option_and_then, option_map};
ghost use Rattle.hj_rows.specs.Places.{is_empty_place, settled_place};

/// A row at rest.
#[derive(Drop)]
pub struct RestingRow<P> {
    pub row: P,
    /// Whether probes find it.
    pub settled: bool,
}

/// Settles the row of a place; returns false exactly where the place is empty.
#[inline(always)]
pub(crate) fn settle_place<P>(place: &mut Option<RestingRow<P>>) -> bool
    ensures held { result ≡ is_some place.old }
    ensures settled { place.new ≡ settled_place place.old }
{
    match place {
        Some(rest) => {
            rest.settled = true;
            true
        }
        None => false,
    }
}

/// Asks whether there was a place, an empty one.
#[inline(always)]
pub(crate) fn was_empty<P>(place: &Option<Option<RestingRow<P>>>) -> bool
    ensures { result ≡ is_empty_place place.now }
{
    matches!(place, Some(None))
}

/// Returns the row that stood in a place, where there was one.
#[inline(always)]
pub(crate) fn taken_place<P: Drop>(place: Option<Option<RestingRow<P>>>) -> Option<P>
    ensures { result ≡ option_map (λ rest. rest.row) (option_and_then (λ place. place) place) }
{
    match place {
        Some(Some(rest)) => Some(rest.row),
        _ => None,
    }
}
