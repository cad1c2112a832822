//! Laws of the definitions, each a clause of a function that does nothing. `M` is the type of the guests' machines, any at all.

ghost use Rattle.std.specs.Prelude.{◌≡◌, ◌≢◌, ◌==◌, ◌⊎◌, ◌<◌, ◌≤◌, ◌+◌, ◌%◌, ◌&&◌, ◌||◌, ℕ, Bool, false, true, not, List, [], ◌∷◌, drop, length, suc};
ghost use Rattle.dc_model.specs.Guests.{Answer, Guests, is_visible};
ghost use Rattle.dc_model.specs.Guests.Event.{AtEnd};
ghost use Rattle.dc_model.specs.Process.{Local, comes, local, oldest};
ghost use Rattle.dc_model.specs.Repeats.{notes, RepeatsEqual};
ghost use Rattle.dc_model.specs.Runs.{Given};
ghost use Rattle.dc_model.specs.declared.entry.Entry.{Entry};
ghost use Rattle.dc_model.specs.declared.mark.Mark.{Mark};
ghost use Rattle.dc_model.specs.declared.visible.Visible.{Visible};
ghost use Rattle.dc_protocols.specs.Rules.{is_causal, is_global, is_joint};
ghost use Rattle.dc_protocols.specs.declared.protocol.Protocol.{Protocol};
ghost use Rattle.dc_recovery.specs.Alone.{event_alone, IsAnswerAlone, MayStopAlone, OwnRun, answers_alone, status_alone};
ghost use Rattle.dc_recovery.specs.Answers.{answer, drawn, read_answer, replays};
ghost use Rattle.dc_recovery.specs.Causes.{Caused, SavedBeforeCaused};
ghost use Rattle.dc_recovery.specs.Core.{Core, Start, Status, Ties, Which, learned, opened_core, opening, save_of, stands, untied};
ghost use Rattle.dc_recovery.specs.Invariant.{Behind, Holds, Running};
ghost use Rattle.dc_recovery.specs.Kept.{Keeps};
ghost use Rattle.dc_recovery.specs.Noted.{IsNoted, note};
ghost use Rattle.dc_recovery.specs.Numbers.{AreUpTo, IsSinceCommit, ShareNumbers};
ghost use Rattle.dc_recovery.specs.Parts.{Place, risen};
ghost use Rattle.dc_recovery.specs.Parts.Place.{InBefore, Nowhere};
ghost use Rattle.dc_recovery.specs.Promise.{IsPromised};
ghost use Rattle.dc_recovery.specs.Recoveries.{AllFollow, CanResume, RecoversWell, SavedBeforeShown, resumed_core};
ghost use Rattle.dc_recovery.specs.Rows.{CanFollow, HaveSlots, Rows, TellTies, no_rows, rows_commit, rows_event};
ghost use Rattle.dc_recovery.specs.Saves.{Save, is_empty_log, logged_at, reach, span};
ghost use Rattle.dc_recovery.specs.Systems.{IsSound, System, system_of};
ghost use Rattle.dc_recovery.specs.Ties.{tied_commit, tied_event};
ghost use Rattle.dc_recovery.specs.Turned.{LeadsTo, Turned};
ghost use Rattle.dc_recovery.specs.Unstopped.{AreTurns, IsDetermined, Unstopped};
ghost use Rattle.dc_recovery.specs.Words.{Tells, joined, live_words, noted, renumbered};

/// Runs of processes that stop anywhere.
///
/// - `sound`: guests under any of the eight protocols are a sound system, whatever the limits, where two messages of one sender
///   may be uncommitted.
/// - `opened`: the invariant holds where nothing was done, whichever processes are up; where all recover together, all or none.
/// - `resumed`: it holds with nobody up where stores stand for saves of a run that was reported, so a run can go on from there.
/// - `goes_on`: wherever marks lead from a core where it holds, it holds.
/// - `promised`: there the acts are a failure-free run, drawn at their turns; the lines without repeats are its visible records; a
///   repeat equals the first record of its number and follows a recovery.
/// - `repeats`: in a run from its opening a repeat equals the record that came before, and follows a recovery.
/// - `recovered`: what is shown in a part of a run that began with nobody up follows a recovery in that part.
/// - `replayed`: where a request finds something to read, its answer is the next record of the log; `drawn`: else it is what the
///   turn draws, where its act is there already too.
/// - `numbered`: an entry makes no commit whose number is more than two over those that were there.
/// - `alike`: where all commit together the older saves of all have one number, and so have the newer ones.
/// - `fresh`: numbers never fall, and a save under the number of a process's last commit is the save of that commit.
/// - `kept`: no message that may be asked for again is lost.
/// - `learned`: what is known to be committed never falls.
/// - `cut`: a recovery leaves a run with the same visible records, and where each recovers by itself the others keep their acts.
/// - `saved`: where all commit together, nothing that could come otherwise stands unsaved before a visible act, entry by entry;
///   `opened_saved`: so in each run from its opening.
/// - `caused`: where only those commit that matter, nothing that could come otherwise stands unsaved and happens before a visible act,
///   entry by entry; `opened_caused`: so in each run from its opening.
/// - `determined`: where nothing stops, marks, acts and lines have no choice, the lines are the visible records, and each entry that
///   did something has its act.
pub fn runs_recover<M>()
    ensures sound { (G : Guests M) (protocol : Protocol) (most room : ℕ) → 1 < most → IsSound (system_of G protocol most room) }
    ensures opened { (S : System M) (schedule : List Entry) (up : ℕ → Bool) → IsSound S
        → (is_joint S.protocol ≡ true → (p q : ℕ) → up p ≡ up q) → Holds S schedule 0 (opened_core up) }
    ensures resumed { (S : System M) (schedule : List Entry) (turn : ℕ) (acts : List Given) (lines : List Visible) (saves : ℕ → Save)
        → CanResume S schedule turn acts lines saves → Holds S schedule turn (resumed_core acts lines saves) }
    ensures goes_on { (S : System M) (schedule : List Entry) (start : Start) (marks : List Mark) (c : Core) → IsSound S
        → Holds S schedule start.entries start.core → LeadsTo S schedule start marks c → Holds S schedule (start.entries + length marks) c }
    ensures promised { (S : System M) (schedule : List Entry) (start : Start) (marks : List Mark) (c : Core) → IsSound S
        → Holds S schedule start.entries start.core → LeadsTo S schedule start marks c → IsPromised S schedule start marks c }
    ensures repeats { (S : System M) (schedule : List Entry) (marks : List Mark) (c : Core) (up : ℕ → Bool) → IsSound S
        → (is_joint S.protocol ≡ true → (p q : ℕ) → up p ≡ up q)
        → LeadsTo S schedule (opening up) marks c → RepeatsEqual (is_joint S.protocol) schedule marks c.lines }
    ensures recovered { (S : System M) (schedule : List Entry) (start : Start) (marks : List Mark) (c : Core)
        → ((q : ℕ) → (start.core.procs q).up ≡ false)
        → LeadsTo S schedule start marks c → AllFollow (is_joint S.protocol) (notes (drop start.entries schedule) marks) }
    ensures replayed { (S : System M) (schedule : List Entry) (t : ℕ) (c : Core) (p word clock : ℕ) → IsSound S
        → Holds S schedule t c → (c.procs p).up ≡ true
        → comes S.guests (stands S.guests c p) (answer S.guests c p word clock) ≢ AtEnd
        → replays (S.guests.next (stands S.guests c p).machine) (c.procs p) ≡ true
        → answer S.guests c p word clock ≡ read_answer (c.procs p).unread }
    ensures drawn { (S : System M) (schedule : List Entry) (t : ℕ) (c : Core) (p word clock : ℕ) → IsSound S
        → Holds S schedule t c → (c.procs p).up ≡ true
        → comes S.guests (stands S.guests c p) (answer S.guests c p word clock) ≢ AtEnd
        → replays (S.guests.next (stands S.guests c p).machine) (c.procs p) ≡ false
        → answer S.guests c p word clock ≡ drawn S.guests c p word clock }
    ensures numbered { (S : System M) (t : ℕ) (c : Core) (entry : Entry) (m : Mark) (d : Core) (k : ℕ) → AreUpTo k c.procs → Turned S t c entry m d
        → AreUpTo (suc (suc k)) d.procs }
    ensures alike { (S : System M) (schedule : List Entry) (t : ℕ) (c : Core) (entry : Entry) (m : Mark) (d : Core) → Holds S schedule t c
        → is_global S.protocol ≡ true → ShareNumbers c.procs → Turned S t c entry m d → ShareNumbers d.procs }
    ensures fresh { (S : System M) (schedule : List Entry) (t : ℕ) (c : Core) (entry : Entry) (m : Mark) (d : Core) → Holds S schedule t c
        → Turned S t c entry m d → (q : ℕ) → q < S.guests.count → (c.procs q).up ≡ true → IsSinceCommit (c.procs q).older.number (c.procs q).older.position (d.procs q) }
    ensures kept { (S : System M) (schedule : List Entry) (t : ℕ) (c : Core) → IsSound S
        → Holds S schedule t c → (p q : ℕ) → Keeps S c p q }
    ensures learned { (S : System M) (schedule : List Entry) (t : ℕ) (c : Core) (entry : Entry) (m : Mark) (d : Core) → IsSound S
        → Holds S schedule t c → Turned S t c entry m d → (q s : ℕ) → learned S.guests c q s ≤ learned S.guests d q s }
    ensures cut { (S : System M) (schedule : List Entry) (t : ℕ) (c : Core) → IsSound S
        → Holds S schedule t c → (p : ℕ) → (c.procs p).up ≡ false → (k : Which) → RecoversWell S c p k }
    ensures saved { (S : System M) (schedule : List Entry) (t : ℕ) (c : Core) (entry : Entry) (m : Mark) (d : Core) → IsSound S
        → Holds S schedule t c → is_global S.protocol ≡ true
        → SavedBeforeShown S.guests c → Turned S t c entry m d → SavedBeforeShown S.guests d }
    ensures opened_saved { (S : System M) (schedule : List Entry) (marks : List Mark) (c : Core) (up : ℕ → Bool) → IsSound S
        → (is_joint S.protocol ≡ true → (p q : ℕ) → up p ≡ up q) → is_global S.protocol ≡ true
        → LeadsTo S schedule (opening up) marks c → SavedBeforeShown S.guests c }
    ensures caused { (S : System M) (schedule : List Entry) (t : ℕ) (c : Core) (entry : Entry) (m : Mark) (d : Core) → IsSound S
        → Holds S schedule t c → is_causal S.protocol ≡ true → Caused S.guests c → Turned S t c entry m d → Caused S.guests d }
    ensures opened_caused { (S : System M) (schedule : List Entry) (marks : List Mark) (c : Core) (up : ℕ → Bool) → IsSound S
        → (is_joint S.protocol ≡ true → (p q : ℕ) → up p ≡ up q) → is_causal S.protocol ≡ true
        → LeadsTo S schedule (opening up) marks c → SavedBeforeCaused S.guests c }
    ensures determined { (S : System M) (schedule : List Entry) (marks : List Mark) (c : Core) → AreTurns schedule
        → LeadsTo S schedule (opening (λ p. true)) marks c → Unstopped marks → IsDetermined S schedule marks c }
{}

/// One process by itself, in the protocols in which each commits by itself.
///
/// - `goes_on`: a turn of its own, wherever it is stopped, keeps what lies behind it.
/// - `comes_back`: so does a recovery by either save.
/// - `shows_last`: at a visible event no device call is stopped but those of the commit before it.
pub fn processes_recover<M>()
    ensures goes_on { (S : System M) (p : ℕ) (answers : List Answer) (st : Status) (a : Answer) (w : Place) → IsSound S
        → is_joint S.protocol ≡ false → OwnRun S.guests p answers → Running S p answers st
        → IsAnswerAlone S.guests p answers st a → MayStopAlone S p answers st a w
        → OwnRun S.guests p (answers_alone answers st a w) × Behind S p (answers_alone answers st a w) (status_alone S p answers st a w) }
    ensures comes_back { (S : System M) (p : ℕ) (answers : List Answer) (st : Status) (k : Which) → IsSound S → Behind S p answers st
        → Behind S p (oldest (reach S p answers (save_of k st)) answers) (risen (save_of k st)) }
    ensures shows_last { (S : System M) (p : ℕ) (answers : List Answer) (st : Status) (a : Answer) (w : Place)
        → OwnRun S.guests p answers → IsAnswerAlone S.guests p answers st a
        → is_visible (event_alone S.guests p answers st a) ≡ true → MayStopAlone S p answers st a w → (w ≡ Nowhere) ⊎ (w ≡ InBefore) }
{}

/// Words that tell on whose unsaved events a process depends, one for each process: its commit number when it was noted, 0 for none.
///
/// - `none`: no words tell nobody.
/// - `commit`: a commit of some, under a number over theirs, leaves the words of the others, and takes its members from what they tell.
/// - `live`: the words that still count tell the same; `joined`: with those of a message they tell what either tells.
/// - `noted`: with its own a process is told besides.
pub fn words_tell()
    ensures none { (numbers : ℕ → ℕ) → Tells numbers (λ q. 0) (λ q. false) }
    ensures commit { (numbers words : ℕ → ℕ) (on commits : ℕ → Bool) (number : ℕ) → ((q : ℕ) → commits q ≡ true → numbers q < number)
        → Tells numbers words on → Tells (renumbered commits number numbers) words (λ q. on q && not (commits q)) }
    ensures live { (numbers words : ℕ → ℕ) (on : ℕ → Bool) → Tells numbers words on → Tells numbers (live_words numbers words) on }
    ensures joined { (numbers words carried : ℕ → ℕ) (on by : ℕ → Bool) → Tells numbers words on → Tells numbers carried by
        → Tells numbers (joined numbers words carried) (λ q. on q || by q) }
    ensures noted { (numbers words : ℕ → ℕ) (on : ℕ → Bool) (p : ℕ) → 0 < numbers p → Tells numbers words on
        → Tells numbers (noted numbers p words) (λ q. on q || q == p) }
{}

/// Such words for each process, and for each message that may yet be taken, tell what ties processes and messages.
///
/// - `untied`: no words tell that nothing is tied.
/// - `commit`: so it is after a commit of some, under a number over theirs; what is known to be committed may rise by it.
/// - `event`: so it is after an event, whose words are those of its process and of the messages that it takes and sends.
/// - `slots`: a message's slot may be the remainder of its number.
pub fn rows_tell<M>()
    ensures untied { (slot : ℕ → ℕ) (numbers : ℕ → ℕ) (first sent : ℕ → ℕ → ℕ) → TellTies slot numbers untied first sent no_rows }
    ensures commit { (slot : ℕ → ℕ) (numbers : ℕ → ℕ) (ties : Ties) (first later sent : ℕ → ℕ → ℕ) (rows : Rows) (commits : ℕ → Bool) (number : ℕ)
        → ((q : ℕ) → commits q ≡ true → numbers q < number) → ((s r : ℕ) → first s r ≤ later s r) → TellTies slot numbers ties first sent rows
        → TellTies slot (renumbered commits number numbers) (tied_commit commits ties) later sent (rows_commit commits rows) }
    ensures event { (G : Guests M) (most : ℕ) (slot : ℕ → ℕ) (numbers : ℕ → ℕ) (ties : Ties) (first sent later : ℕ → ℕ → ℕ) (rows : Rows) (p : ℕ)
        (l : Local M) (a : Answer) (sets : Bool) → HaveSlots most slot → TellTies slot numbers ties first sent rows
        → CanFollow G most numbers first sent later p l a → TellTies slot numbers (tied_event G p l a sets ties) first later
        (rows_event slot numbers rows p l.received (λ to. length (l.sent to)) (comes G l a) a sets) }
    ensures slots { (most : ℕ) → HaveSlots most (λ k. k % most) }
{}

/// One number that says how far a process would come again from either of its saves.
///
/// - `more`: where an act is added it is noted again, as `note` says.
/// - `commit`: a commit keeps it, where nothing was told since the save or no act is to be repeated.
/// - `cut`: so does a recovery.
pub fn reaches_are_noted<M>()
    ensures more { (S : System M) (p : ℕ) (answers : List Answer) (a : Answer) (s : Save) (e : ℕ) (held : Bool) → IsSound S
        → (held ≡ false → span (logged_at answers) s.position (length answers) ≡ [])
        → (held ≡ true → is_empty_log (span (logged_at answers) s.position (length answers)) ≡ false) → IsNoted S p answers s e
        → IsNoted S p (a ∷ answers) s (note S (comes S.guests (local S.guests p answers) a) held (length answers) e) }
    ensures commit { (S : System M) (p : ℕ) (answers : List Answer) (s : Save) (e at number : ℕ) → IsSound S → s.log ≡ [] → s.position ≤ at
        → e ≤ length answers → span (logged_at answers) at (length answers) ≡ []
        → (span (logged_at answers) s.position (length answers) ≡ []) ⊎ (at ≡ length answers) → IsNoted S p answers s e
        → IsNoted S p answers (record { position = at; log = []; number = number }) e }
    ensures cut { (S : System M) (p : ℕ) (answers : List Answer) (s : Save) (e : ℕ) → IsSound S → IsNoted S p answers s e
        → IsNoted S p (oldest (reach S p answers s) answers) s e }
{}
