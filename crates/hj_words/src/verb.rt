//! The commands, each with the words that it takes.
ghost use Rattle.std.specs.Prelude.{◌≡◌, map};
ghost use Rattle.hj_words.specs.Verbs.{names_of, options_of, title_of, verb_of};

/// A command of the program.
#[derive(Clone, Copy)]
pub enum Verb {
    Equi,
    Join,
    Check,
    Gen,
    Raw,
    Trace,
    Verify,
    Twice,
}

impl Verb {
    /// Returns the command that a word calls for; None if it calls for none.
    pub fn of(word: &str) -> Option<Self>
        ensures { result ≡ verb_of word.now }
    {
        match word {
            "equi" => Some(Verb::Equi),
            "join" => Some(Verb::Join),
            "check" => Some(Verb::Check),
            "gen" => Some(Verb::Gen),
            "raw" => Some(Verb::Raw),
            "trace" => Some(Verb::Trace),
            "verify" => Some(Verb::Verify),
            "twice" => Some(Verb::Twice),
            _ => None,
        }
    }

    /// Returns the word that calls for the command.
    pub fn title<'a>(self) -> &'a str
        ensures { result.now ≡ title_of self }
    {
        match self {
            Verb::Equi => "equi",
            Verb::Join => "join",
            Verb::Check => "check",
            Verb::Gen => "gen",
            Verb::Raw => "raw",
            Verb::Trace => "trace",
            Verb::Verify => "verify",
            Verb::Twice => "twice",
        }
    }

    /// Returns the names of its options.
    pub fn options<'a>(self) -> &'a [&'a str]
        ensures { map (λ o. o.now) result.now ≡ options_of self }
    {
        match self {
            Verb::Equi | Verb::Check | Verb::Gen => &[],
            Verb::Join | Verb::Twice => &["cores", "threads", "flight", "max-events", "schedule"],
            Verb::Raw => &["cores", "threads", "flight", "max-events"],
            Verb::Trace => &["cores", "flight", "max-events", "schedule"],
            Verb::Verify => &["cores", "flight", "max-events"],
        }
    }

    /// Returns the names of its words by their place.
    pub fn names<'a>(self) -> &'a [&'a str]
        ensures { map (λ n. n.now) result.now ≡ names_of self }
    {
        match self {
            Verb::Equi => &["w", "left", "right"],
            Verb::Join | Verb::Raw | Verb::Trace => &["query", "left", "right"],
            Verb::Check => &["query"],
            Verb::Gen => &["n", "keys", "seed", "w"],
            Verb::Verify => &["query", "left", "right", "trace", "output"],
            Verb::Twice => &["query", "left", "right", "second", "third"],
        }
    }
}
