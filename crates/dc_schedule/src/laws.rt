ghost use Rattle.std.specs.Prelude.{◌≡◌, ◌<◌, ◌^◌, ◌⊎◌, ◌++◌, ◌∷◌, [], List, Ok, ℕ};
ghost use Rattle.dc_model.specs.declared.entry.Entry.{Entry};
ghost use Rattle.dc_schedule.specs.Entries.{IsSchedule, schedule_text};
ghost use Rattle.dc_schedule.specs.Schedules.{schedule_of, turns_of};

/// The text of a schedule is read as this schedule.
pub fn lines_read_back()
    ensures { (n : ℕ) (entries : List Entry) → n < 2 ^ 64 → IsSchedule n entries → schedule_of n (schedule_text entries) ≡ Ok entries }
{}

/// A text that is read as a schedule is the text of that schedule, but that its last line feed may be missing.
pub fn texts_are_written_once()
    ensures schedule { (n : ℕ) (text : List ℕ) (entries : List Entry) → schedule_of n text ≡ Ok entries → IsSchedule n entries }
    ensures written { (n : ℕ) (text : List ℕ) (entries : List Entry) → n < 2 ^ 64 → schedule_of n text ≡ Ok entries
        → (text ≡ schedule_text entries) ⊎ (text ++ 10 ∷ [] ≡ schedule_text entries) }
{}

/// What is read as turns alone is the same schedule where stops are allowed.
pub fn turns_are_a_schedule()
    ensures { (n : ℕ) (text : List ℕ) (entries : List Entry) → turns_of n text ≡ Ok entries → schedule_of n text ≡ Ok entries }
{}
