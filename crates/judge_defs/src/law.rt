//! Laws of verdicts. Each function's contract is the law, and its body is empty.

ghost use Rattle.std.specs.Prelude.{◌≡◌, ℕ, List};
ghost use Rattle.answer_defs.specs.declared.why.Why.{Why};
ghost use Rattle.judge_defs.specs.Text.{IsJudgedYes, FailsFirstIn};

/// No report is judged both yes and no.
pub fn yes_excludes_no()
    ensures { (text : List ℕ) (line : ℕ) (why : Why) → IsJudgedYes text → FailsFirstIn text line why → ⊥ }
{}

/// One line of a report at most is the first that fails, and one thing fails there.
pub fn one_line_fails_first()
    ensures { (text : List ℕ) (line other : ℕ) (why what : Why) → FailsFirstIn text line why
        → FailsFirstIn text other what → (line ≡ other) × (why ≡ what) }
{}
