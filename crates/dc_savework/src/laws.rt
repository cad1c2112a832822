//! Laws of the definitions, each a clause of a function that does nothing. `M` is the type of the guests' machines, any at all.

ghost use Rattle.std.specs.Prelude.{◌≡◌, ◌≢◌, ◌≤◌, ◌*◌, ◌++◌, ℕ, false, true, List, length};
ghost use Rattle.std.specs.List.{All};
ghost use Rattle.dc_audit.specs.Journals.{HasSaveWork, IsOfSixteen};
ghost use Rattle.dc_audit.specs.Keeping.{HasMembers, IsJournal};
ghost use Rattle.dc_audit.specs.declared.journal.Line.{Line};
ghost use Rattle.dc_elf.specs.Images.{Image};
ghost use Rattle.dc_guest.specs.Guest.{guests_of};
ghost use Rattle.dc_model.specs.declared.entry.Entry.{Entry};
ghost use Rattle.dc_model.specs.Runs.{Given};
ghost use Rattle.dc_model.specs.declared.mark.Mark.{Mark};
ghost use Rattle.dc_model.specs.declared.mark.Mark.TheVariants.{Stopped};
ghost use Rattle.dc_protocols.specs.Rules.{is_causal};
ghost use Rattle.dc_recovery.specs.Core.{Core, opening};
ghost use Rattle.dc_recovery.specs.Systems.{IsSound, System};
ghost use Rattle.dc_recovery.specs.Turned.{LeadsTo, Turned};
ghost use Rattle.dc_recovery.specs.Unstopped.{AreTurns, Unstopped, entry_taken};
ghost use Rattle.dc_savework.specs.Causal.{CommitsAll, CommitsFirst};
ghost use Rattle.dc_savework.specs.Journal.{IsAddressed, core_of, entry_lines, journal_of};

/// Runs of at most sixteen guests, from their opening, that nothing stops.
///
/// - `save_work`: their journal has Save-work, in every protocol but the causal one.
/// - `journal`: in every protocol it is a journal, where what a guest sends goes to another guest.
/// - `by_acts`: in every protocol what such a run comes to, its journal with it, is a function of its acts.
pub fn runs_have_save_work<M>()
    ensures save_work { (S : System M) (schedule : List Entry) (marks : List Mark) (c : Core) → IsSound S → is_causal S.protocol ≡ false
        → S.guests.count ≤ 16 → AreTurns schedule → LeadsTo S schedule (opening (λ p. true)) marks c → Unstopped marks
        → HasSaveWork false (journal_of S c.acts) }
    ensures journal { (S : System M) (schedule : List Entry) (marks : List Mark) (c : Core) → IsSound S → S.guests.count ≤ 16
        → IsAddressed S.guests → AreTurns schedule → LeadsTo S schedule (opening (λ p. true)) marks c → Unstopped marks
        → IsJournal S.guests.count (journal_of S c.acts) }
    ensures by_acts { (S : System M) (schedule : List Entry) (marks : List Mark) (c : Core) → IsSound S → S.guests.count ≤ 16
        → AreTurns schedule → LeadsTo S schedule (opening (λ p. true)) marks c → Unstopped marks → c ≡ core_of S c.acts }
{}

/// One entry more of such a run, whatever the entry is.
///
/// - `mark`: its mark is that of the entry where nothing stops.
/// - `grows`: the journal has the entry's lines more.
/// - `up`: before it every process is up.
pub fn journals_grow<M>()
    ensures mark { (S : System M) (schedule : List Entry) (marks : List Mark) (c : Core) → IsSound S → S.guests.count ≤ 16
        → AreTurns schedule → LeadsTo S schedule (opening (λ p. true)) marks c → Unstopped marks
        → (t : ℕ) (entry : Entry) (m : Mark) (d : Core) → Turned S t c entry m d → m ≢ Stopped → m ≡ (entry_taken S t c entry).0 }
    ensures grows { (S : System M) (schedule : List Entry) (marks : List Mark) (c : Core) → IsSound S → S.guests.count ≤ 16
        → AreTurns schedule → LeadsTo S schedule (opening (λ p. true)) marks c → Unstopped marks
        → (t : ℕ) (entry : Entry) (m : Mark) (d : Core) → Turned S t c entry m d → m ≢ Stopped
        → journal_of S d.acts ≡ journal_of S c.acts ++ entry_lines S t c entry }
    ensures up { (S : System M) (schedule : List Entry) (marks : List Mark) (c : Core) → IsSound S → S.guests.count ≤ 16
        → AreTurns schedule → LeadsTo S schedule (opening (λ p. true)) marks c → Unstopped marks → (p : ℕ) → (c.procs p).up ≡ true }
{}

/// What can be said of the lines before the run ends: an entry has at most two, since no commit comes after an event with one before it;
/// and each is a line of sixteen processes, and a commit is of somebody, so that it can be written and read back.
pub fn lines_are_few<M>()
    ensures of_entry { (S : System M) (t : ℕ) (c : Core) (entry : Entry) → length (entry_lines S t c entry) ≤ 2 }
    ensures of_acts { (S : System M) (acts : List Given) → length (journal_of S acts) ≤ 2 * length acts }
    ensures sixteen { (S : System M) (t : ℕ) (c : Core) (entry : Entry) (m : Mark) (d : Core) → S.guests.count ≤ 16 → Turned S t c entry m d
        → All IsOfSixteen (entry_lines S t c entry) }
    ensures members { (S : System M) (t : ℕ) (c : Core) (entry : Entry) (m : Mark) (d : Core) → S.guests.count ≤ 16 → Turned S t c entry m d
        → All HasMembers (entry_lines S t c entry) }
    ensures all_sixteen { (S : System M) (schedule : List Entry) (marks : List Mark) (c : Core) → IsSound S → S.guests.count ≤ 16
        → AreTurns schedule → LeadsTo S schedule (opening (λ p. true)) marks c → Unstopped marks → All IsOfSixteen (journal_of S c.acts) }
    ensures all_members { (S : System M) (schedule : List Entry) (marks : List Mark) (c : Core) → IsSound S → S.guests.count ≤ 16
        → AreTurns schedule → LeadsTo S schedule (opening (λ p. true)) marks c → Unstopped marks → All HasMembers (journal_of S c.acts) }
{}

/// Guests of this program send to other guests alone, which `journal` of `runs_have_save_work` wants: any other send is a bad argument.
pub fn guests_are_addressed()
    ensures { (images : List Image) (inputs : List (List (List ℕ))) → IsAddressed (guests_of images inputs) }
{}

/// What a causal journal has to keep for Save-work: each commit finds every chance that happens before it saved by an earlier commit, or
/// takes its process in; and before a process shows anything it commits behind every chance that happens before what it shows.
pub fn causal_journals_have_save_work()
    ensures { (journal : List Line) → CommitsAll journal → CommitsFirst journal → HasSaveWork true journal }
{}
