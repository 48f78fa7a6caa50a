ghost use Rattle.std.specs.Prelude.{◌≡◌, ◌≤◌, IfOk, MatchResult};
ghost use Rattle.hj_query.specs.Faults.{FaultsSetting, range_fault};
ghost use Rattle.hj_query.specs.Grammar.{IsSetting, most_of, setting_word};

use crate::QueryFault;
use crate::cursor::Cursor;

const MOST_SLACK: u64 = 1 << 62;

const MOST_QUIET: u64 = 1_000_000;

/// What a query may say between its windows and its condition: a word and a number. Without the word the number is 0.
#[derive(Clone, Copy)]
pub enum Setting {
    Slack,
    Quiet,
}

impl Setting {
    pub fn word(self) -> &'static [u8]
        ensures { result.now ≡ setting_word self }
    {
        match self {
            Setting::Slack => b"slack",
            Setting::Quiet => b"quiet",
        }
    }

    /// Returns the largest number that is in range.
    fn most(self) -> u64
        ensures { result ≡ most_of self }
    {
        match self {
            Setting::Slack => MOST_SLACK,
            Setting::Quiet => MOST_QUIET,
        }
    }

    /// Returns the fault of a number outside the range.
    fn range_fault(self, place: usize) -> QueryFault
        ensures { result ≡ range_fault self place }
    {
        match self {
            Setting::Slack => QueryFault::SlackRange(place),
            Setting::Quiet => QueryFault::QuietRange(place),
        }
    }
}

/// Reads a setting, which is 0 where its word doesn't come.
pub fn read_setting(cursor: &mut Cursor<'_>, setting: Setting) -> Result<u64, QueryFault>
    ensures few { IfOk result (λ value. value ≤ most_of setting) }
    ensures read { MatchResult result
        (λ value. IsSetting setting cursor.old value cursor.new)
        (FaultsSetting setting cursor.old) }
{
    if !cursor.is_word(setting.word()) {
        return Ok(0);
    }
    cursor.skip();
    let place = cursor.place();
    let value = cursor.number()?;
    if value > setting.most() {
        return Err(setting.range_fault(place));
    }
    Ok(value)
}
