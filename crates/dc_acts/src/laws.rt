//! Laws of the definitions, each the contract of a function that does nothing.

ghost use Rattle.std.specs.Prelude.{◌≡◌, ◌≢◌, ℕ, List, min, take};
ghost use Rattle.dc_model.specs.declared.act.Taken.{Taken};
ghost use Rattle.dc_acts.specs.Counted.{acts_of, cut_acts, own_of};

/// A cut leaves the first so many acts of a process, and all of each other process.
pub fn cuts_are_of_one_process()
    ensures own { (p reach : ℕ) (acts : List Taken) → own_of p (cut_acts p reach acts) ≡ take reach (own_of p acts) }
    ensures others { (p reach q : ℕ) (acts : List Taken) → q ≢ p → own_of q (cut_acts p reach acts) ≡ own_of q acts }
    ensures own_count { (p reach : ℕ) (acts : List Taken) → acts_of p (cut_acts p reach acts) ≡ min (acts_of p acts) reach }
    ensures other_counts { (p reach q : ℕ) (acts : List Taken) → q ≢ p → acts_of q (cut_acts p reach acts) ≡ acts_of q acts }
{}
