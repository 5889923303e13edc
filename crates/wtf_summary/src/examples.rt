//! What is shown of a small text.

ghost use Rattle.std.specs.Prelude.{◌≡◌, [], codes};
ghost use Rattle.wtf_summary.specs.Summaries.{behind_first, feeds, first_line, others, shown_text, with_word};

/// The first line of three, and the lines behind it.
fn first_of_three()
    ensures first { first_line (codes "set\ncommitted 1\nok\n") ≡ codes "set\n" }
    ensures behind { behind_first (codes "set\ncommitted 1\nok\n") ≡ codes "committed 1\nok\n" }
    ensures open { first_line (codes "set") ≡ codes "set" }
    ensures none { behind_first (codes "set") ≡ [] }
{}

/// The counts of three lines.
fn counts_of_three()
    ensures lines { feeds (codes "committed 1\nrefused noent\nok\n") ≡ 3 }
    ensures committed { with_word (codes "committed") (codes "committed 1\nrefused\nok\n") ≡ 1 }
    ensures refused { with_word (codes "refused") (codes "committed 1\nrefused\nok\n") ≡ 1 }
    ensures fronts { with_word (codes "retry") (codes "ret\nretry1\nretry 1\n") ≡ 1 }
    ensures other { others (codes "committed 1\nrefused\nok\n") ≡ 1 }
{}

/// Nothing but the first line is shown while too few lines came.
fn too_few_lines()
    ensures { shown_text 3 (codes "set\nok\nok\n") ≡ codes "set\n" }
{}
