ghost use Rattle.std.specs.Prelude.{◌≡◌, ℕ, List, [], replicate};
ghost use Rattle.std.specs.List.{list_all, list_any};
ghost use Rattle.hj_msg.specs.declared.message.Report.{Report};
ghost use Rattle.hj_msg.specs.Punctuation.{is_end, punctuation};
ghost use Rattle.hj_collect.specs.Collector.{CollectorState, has_ended, least_mark, nothing_taken};
ghost use Rattle.hj_collect.specs.StandsFor.{StandsFor};

/// Shows that a new collector stands for no reports (`new`), that the least mark of a collector is the punctuation of
/// the reports that it stands for (`punctuation`), and that it has ended exactly if each of their cores did (`ended`).
pub fn collectors_follow_their_reports<P>()
    ensures new { (cores : ℕ) → StandsFor {P = P} (nothing_taken cores) (replicate cores []) }
    ensures punctuation { (collector : CollectorState) (lists : List (List (Report P))) → StandsFor collector lists → least_mark collector ≡ punctuation lists }
    ensures ended { (collector : CollectorState) (lists : List (List (Report P))) → StandsFor collector lists → has_ended collector ≡ list_all (λ reports. list_any is_end reports) lists }
{}
