//! Laws of the definitions, each the contract of a function that does nothing. `M` is the type of the guests' machines, any at all.

ghost use Rattle.std.specs.Prelude.{◌≡◌, ◌↔◌, ◌<◌, ◌^◌, ◌∷◌, ◌++◌, [], List, None, Ok, Some, decimal, length, reverse, ℕ};
ghost use Rattle.std.specs.List.{AllByRecursion};
ghost use Rattle.dc_acts.specs.Lines.{text_of, visible_line};
ghost use Rattle.dc_check.specs.Differences.{AreLinesOf, difference_of, thinned};
ghost use Rattle.dc_check.specs.Findings.{IsPassing, finding_of};
ghost use Rattle.dc_check.specs.Findings.Finding.{Passes};
ghost use Rattle.dc_check.specs.Played.{played};
ghost use Rattle.dc_check.specs.Records.{CanShow, IsWritten, numbers_in};
ghost use Rattle.dc_model.specs.Drawn.{Drawn};
ghost use Rattle.dc_model.specs.Guests.{Guests};
ghost use Rattle.dc_model.specs.Repeats.{RepeatsAgree};
ghost use Rattle.dc_model.specs.FailureFree.{FailureFree, run, thin};
ghost use Rattle.dc_words.specs.Texts.{ended, lines_of};

use dc_model::{Entry, Taken, Visible};

/// Acts that are played are a failure-free run, each drawn at its turn of the schedule, in order; and such a run is played.
pub fn passing_acts_are_a_drawn_run<M>()
    ensures drawn { (G : Guests M) (schedule : List Entry) (acts : List Taken) (w : FailureFree M) → played G schedule acts ≡ Ok w → Drawn G.count schedule acts × (run G acts ≡ Some w) }
    ensures plays { (G : Guests M) (schedule : List Entry) (acts : List Taken) (w : FailureFree M) → Drawn G.count schedule acts → run G acts ≡ Some w → played G schedule acts ≡ Ok w }
{}

/// The line of a visible record is known for a record's, and its process and number are found in it as they are written.
pub fn records_have_their_numbers()
    ensures { (x : Visible) (line : List ℕ) → x.p < 2 ^ 32 → x.k < 2 ^ 32 → CanShow x.body → visible_line x ≡ line ++ 10 ∷ []
        → numbers_in line ≡ Some (decimal x.p ++ 32 ∷ decimal x.k) }
{}

/// An output whose lines all end and that differs nowhere has, without its repeats, exactly the run's lines.
pub fn passing_outputs_thin_to_the_run()
    ensures { (text out : List ℕ) → out ≡ ended (lines_of out) → difference_of text out ≡ None → thinned (λ numbers. None) (lines_of out) ≡ lines_of text }
{}

/// An output whose lines all end differs nowhere exactly where its lines are those of the run, but for repeats that are the same as the
/// first.
pub fn passing_outputs_are_the_run()
    ensures { (text out : List ℕ) → out ≡ ended (lines_of out) → (difference_of text out ≡ None) ↔ AreLinesOf (lines_of out) (lines_of text) }
{}

/// The lines of records with repeats pass the check of the run that shows the records without repeats, where repeats agree and each
/// record can be written.
pub fn shown_lines_pass<M>()
    ensures { (G : Guests M) (schedule : List Entry) (acts : List Taken) (w : FailureFree M) (records : List Visible) → Drawn G.count schedule acts → run G acts ≡ Some w →
        thin records ≡ w.visibles → RepeatsAgree (reverse records) → AllByRecursion IsWritten w.visibles → finding_of G schedule acts (text_of records) ≡ Passes (length w.visibles) }
{}

/// What passes, both ways: acts that were drawn and lead to a world, with the lines of its records but for repeats of the first.
pub fn findings_mean<M>()
    ensures { (G : Guests M) (schedule : List Entry) (acts : List Taken) (out : List ℕ) (visibles : ℕ) → out ≡ ended (lines_of out) →
        (finding_of G schedule acts out ≡ Passes visibles) ↔ IsPassing G schedule acts out visibles }
{}
