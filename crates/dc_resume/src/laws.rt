//! Laws of the definitions, each a clause of a function that does nothing.

ghost use Rattle.std.specs.Prelude.{◌≡◌, ◌<◌, ◌≤◌, ◌+◌, ◌*◌, ℕ, List, Some, false, length, reverse, true};
ghost use Rattle.dc_limits.specs.declared.bounds.TheConstants.{ENTRIES};
ghost use Rattle.dc_checkpoint.specs.States.{Reading};
ghost use Rattle.dc_elf.specs.Images.{Image};
ghost use Rattle.dc_guest.specs.Guest.{Guest};
ghost use Rattle.dc_model.proofs.Rising.{TurnsBelow};
ghost use Rattle.dc_model.specs.Drawn.{Drawn};
ghost use Rattle.dc_model.specs.Guests.{Answer, Guests};
ghost use Rattle.dc_model.specs.Runs.{Given, IsRun, visibles};
ghost use Rattle.dc_model.specs.FailureFree.{FailureFree, reported, run, thin, world_of};
ghost use Rattle.dc_model.specs.declared.act.Taken.{Taken};
ghost use Rattle.dc_model.specs.declared.entry.Entry.{Entry};
ghost use Rattle.dc_model.specs.declared.mark.Mark.{Mark};
ghost use Rattle.dc_model.specs.declared.visible.Visible.{Visible};
ghost use Rattle.dc_proc.specs.Carried.{system};
ghost use Rattle.dc_proc.specs.Processes.{Stored, reading_of};
ghost use Rattle.dc_processes.specs.Worlds.{StoresStand};
ghost use Rattle.dc_protocols.specs.Rules.{is_global};
ghost use Rattle.dc_protocols.specs.declared.protocol.Protocol.{Protocol};
ghost use Rattle.dc_recovery.specs.Core.{Core, Start};
ghost use Rattle.dc_recovery.specs.Invariant.{DrawnBelow, Holds, SaveOk};
ghost use Rattle.dc_recovery.specs.Numbers.{AreUpTo, ShareNumbers};
ghost use Rattle.dc_recovery.specs.Recoveries.{resumed_core};
ghost use Rattle.dc_recovery.specs.Saves.{Logged, Save};
ghost use Rattle.dc_recovery.specs.Systems.{IsSound, System};
ghost use Rattle.dc_recovery.specs.Turned.{LeadsTo};
ghost use Rattle.dc_resume.specs.Deciding.{IsToldSave};
ghost use Rattle.dc_resume.specs.Parts.{GoesOnWell};
ghost use Rattle.dc_resume.specs.Suited.{AreNumbered, AreRead, AreStored, AreSuited, IsReached, saves_in};

/// Stores from which a run may go on, under each of the eight protocols.
///
/// - `holds`: where what the stores of all processes stand for suits the acts of a run that was reported, the invariant holds of the
///   core of these acts with nobody up.
/// - `stand`: and the stores stand for that core.
/// - `halted`: wherever a run has come to, what its stores stand for under a decided number suits its acts, where its commits are
///   numbered as in a run; so a run that was halted can be gone on with.
/// - `alike`: stores of which the same was read suit the same acts.
/// - `numbered`: and so they are, as long as no more entries were taken than a schedule has but one.
/// - `well`: the lines of an earlier part and those of a part that goes on from it keep the promise together.
/// - `told`: the acts of a report that are a run, and were drawn at turns below one, are answers that were given so.
pub fn runs_resume<M>()
    ensures holds { (images : List Image) (inputs : List (List (List ℕ))) (protocol : Protocol) (schedule : List Entry) (turn : ℕ) (acts : List Given)
        (lines : List Visible) (d : ℕ) (stores : ℕ → Stored) → let S = system images inputs protocol in IsRun S.guests acts
        → DrawnBelow S.guests.count schedule turn acts → thin (reverse lines) ≡ reverse (visibles S.guests acts) → AreStored S stores
        → AreSuited S acts d stores → Holds S schedule turn (resumed_core acts lines (saves_in S stores)) }
    ensures stand { (images : List Image) (inputs : List (List (List ℕ))) (protocol : Protocol) (acts : List Given) (lines : List Visible) (d : ℕ)
        (stores : ℕ → Stored) → let S = system images inputs protocol in IsRun S.guests acts → AreStored S stores → AreSuited S acts d stores
        → StoresStand S (resumed_core acts lines (saves_in S stores)) (λ e. e ≡ d) (λ p e r. r ≡ reading_of (stores p)) }
    ensures halted { (S : System Guest) (schedule : List Entry) (t : ℕ) (c : Core) (d : ℕ) (readings : ℕ → Reading) → Holds S schedule t c
        → StoresStand S c (λ e. e ≡ d) (λ p e r. r ≡ readings p) → AreNumbered S.protocol c.procs → IsReached S d readings
        → (stores : ℕ → Stored) × AreRead S.guests.count readings stores × AreStored S stores × AreSuited S c.acts d stores }
    ensures alike { (S : System Guest) (acts : List Given) (d : ℕ) (one other : ℕ → Stored) → AreStored S one → AreStored S other
        → ((p : ℕ) → p < S.guests.count → reading_of (one p) ≡ reading_of (other p)) → AreSuited S acts d one → AreSuited S acts d other }
    ensures numbered { (S : System M) (schedule : List Entry) (start : Start) (marks : List Mark) (c : Core) → IsSound S
        → Holds S schedule start.entries start.core → AreUpTo (1 + 2 * start.entries) start.core.procs
        → (is_global S.protocol ≡ true → ShareNumbers start.core.procs) → LeadsTo S schedule start marks c → start.entries + length marks < ENTRIES
        → AreNumbered S.protocol c.procs }
    ensures well { (S : System M) (schedule : List Entry) (start : Start) (marks : List Mark) (c : Core) → IsSound S
        → Holds S schedule start.entries start.core → ((q : ℕ) → (start.core.procs q).up ≡ false) → LeadsTo S schedule start marks c
        → GoesOnWell S schedule start marks c }
    ensures told { (G : Guests M) (schedule : List Entry) (turn : ℕ) (acts : List Taken) (w : FailureFree M) → run G acts ≡ Some w
        → Drawn G.count schedule acts → TurnsBelow turn acts
        → (given : List Given) × (reported given ≡ acts) × IsRun G given × DrawnBelow G.count schedule turn given × (world_of G given ≡ w) }
{}

/// Whether what a process was told makes a log a save can be seen by one look at each of its acts.
///
/// - `save`: what was told from a position on makes a log a save there; `saved`: and only that does.
pub fn logs_make_saves<M>()
    ensures save { (S : System M) (p : ℕ) (answers : List Answer) (s : Save) (rest : List Logged) → IsToldSave S p answers s rest → SaveOk S p answers s }
    ensures saved { (S : System M) (p : ℕ) (answers : List Answer) (s : Save) → 0 < S.most → SaveOk S p answers s
        → (rest : List Logged) × IsToldSave S p answers s rest }
{}
