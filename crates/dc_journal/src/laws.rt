//! Laws of the definitions, each a clause of a function that does nothing.

ghost use Rattle.std.specs.Prelude.{◌≡◌, ◌≤◌, ◌<◌, ◌+◌, ℕ, Bool, List, Ok, length};
ghost use Rattle.std.specs.List.{All};
ghost use Rattle.dc_audit.specs.Keeping.{HasMembers, IsJournal};
ghost use Rattle.dc_audit.specs.Reading.{journal_of};
ghost use Rattle.dc_audit.specs.declared.journal.Line.{Line};
ghost use Rattle.dc_journal.specs.Texts.{whole_text};

/// A journal among at most sixteen processes is read from its text as it was, where each commit is of somebody and its text has at most
/// 4,000,000 lines, with its heading and its end.
pub fn texts_are_read_back()
    ensures { (n : ℕ) (causal : Bool) (lines : List Line) → 0 < n → n ≤ 16 → IsJournal n lines → All HasMembers lines → length lines + 2 ≤ 4000000
        → journal_of (whole_text n causal lines) ≡ Ok (record { n = n; causal = causal; lines = lines }) }
{}
