//! What holds of every tree, and of every run on what it lends: laws of the definitions alone. No
//! function here does anything; its contract is the law.

ghost use Rattle.std.specs.Prelude.{◌≡◌, ◌++◌, [], is_some, Bool, false, true};
ghost use Rattle.affinity.specs.Path.{Path, are_related, IsPath};
ghost use Rattle.affinity.specs.declared.geometry.Geometry.{Geometry};
ghost use Rattle.protocol.specs.declared.messages.Msg.{Msg};
ghost use Rattle.protocol.specs.Messages.{IsMessage, path_of};
ghost use Rattle.meaning.specs.Commute.{outside};
ghost use Rattle.meaning.specs.Step.{next_state, reply_to};
ghost use Rattle.meaning.specs.Subtrees.{AgreeOn, subtree, standing};
ghost use Rattle.meaning.specs.State.{State, IsState};
ghost use Rattle.parcel.specs.Fits.{Fits, IsKindOf};
ghost use Rattle.parcel.specs.TreeHolds.{IsApart, IsJobOut, TreeHolds, nowhere, with_place};
ghost use Rattle.parcel.specs.Nodes.{Nodes, parcels_nodes, tree_state, TakesOut, PutsBack};
ghost use Rattle.parcel.specs.JobRun.{JobView, IsJobRun, IsSerialStep, IsSerialStepOf, job_place};
ghost use Rattle.parcel.specs.LentJob.{CanBeRestored, LendsJob, IsLentOf, LendsRunsRestores};
ghost use Rattle.parcel.specs.Shown.{shown_state, Shows};
ghost use Rattle.parcel.specs.Tree.{HasGap, IsIn, LendsAt, IsOut, RestoresAt};
ghost use Rattle.parcel.specs.declared.job.Done.{Done};
ghost use Rattle.parcel.specs.declared.parts.Parcels.{Parcels};
ghost use Rattle.parcel.specs.declared.parts.Standing.{Standing};

/// The run of a job is a serial step of every state that the job's parcels and standing show at its
/// place, whatever that state has elsewhere.
pub fn run_is_serial()
    ensures { (job : JobView) (done : Done) (x : State) → IsJobRun job done → IsLentOf job x → IsSerialStepOf job done x }
{}

/// Taking out or putting back at a path changes the state only at that path and below it.
pub fn tree_agrees_elsewhere()
    ensures taken_leaves { (g : Geometry) (p : Path) (old new : Nodes) → TakesOut p old new
        → AgreeOn g (outside p) (tree_state g new) (tree_state g old) }
    ensures put_leaves { (g : Geometry) (p : Path) (part old new : Nodes) → PutsBack p part old new
        → AgreeOn g (outside p) (tree_state g new) (tree_state g old) }
{}

/// Where parcels that fit are put back, nothing at their path or below it is out.
pub fn restored_parcels_are_in()
    ensures { (g : Geometry) (p : Path) (l : Parcels) (old new : Nodes) → PutsBack p (parcels_nodes l) old new → Fits g p l → (q : Path)
        → IsPath g (p ++ q) → is_some (new (p ++ q)) ≡ true }
{}

/// A message runs on what the tree lends for it, and what it leaves is put back: for the tree's state this
/// is a serial step, with the reply of that step, whatever is out at unrelated places. If nothing was out
/// before, nothing is out again. If the tree held a valid state of its geometry (`IsState`), it does again.
/// (`lent`, here and below, are the nodes of the tree after it lent: those that it still has.)
pub fn lent_run_and_restored_is_a_step()
    ensures step { (job : JobView) (done : Done) (old lent new : Nodes) → LendsRunsRestores job done old lent new
        → IsSerialStep job.geometry (tree_state job.geometry old) job.message done.reply (tree_state job.geometry new) }
    ensures all_in { (job : JobView) (done : Done) (old lent new : Nodes) → LendsRunsRestores job done old lent new
        → IsIn job.geometry [] old → IsIn job.geometry [] new }
    ensures state { (job : JobView) (done : Done) (old lent new : Nodes) → LendsRunsRestores job done old lent new
        → IsMessage job.message → IsState job.geometry (tree_state job.geometry old) → IsState job.geometry (tree_state job.geometry new) }
{}

/// Parcels and a standing show a state x at a path (`Shows`) exactly if their own state (`shown_state`)
/// has the same subtree there as x, and the same standing. (`subtree` and `standing` of a state are states: what it has at
/// the path and below, and what it has above the path.)
pub fn shown_is_subtree_and_standing()
    ensures has_subtree { (g : Geometry) (p : Path) (t : Standing) (l : Parcels) (x : State) → Shows g p t l x
        → subtree g p (shown_state g p t l) ≡ subtree g p x }
    ensures has_standing { (g : Geometry) (p : Path) (t : Standing) (l : Parcels) (x : State) → Shows g p t l x
        → standing g p (shown_state g p t l) ≡ standing g p x }
    ensures shows { (g : Geometry) (p : Path) (t : Standing) (l : Parcels) (x : State) → subtree g p (shown_state g p t l) ≡ subtree g p x
        → standing g p (shown_state g p t l) ≡ standing g p x → Shows g p t l x }
{}

/// What was lent and run can be put back: its place is out, and what the run left is of the kind of
/// that place and fits there.
pub fn lent_and_run_can_be_put_back()
    ensures out { (g : Geometry) (p : Path) (t : Standing) (l : Parcels) (old lent : Nodes) →
        IsPath g p → LendsAt g p t l old lent → IsOut p lent }
    ensures kind { (g : Geometry) (p : Path) (l : Parcels) → Fits g p l → IsKindOf p l }
    ensures ran { (job : JobView) (done : Done) (old lent : Nodes) → LendsJob job old lent →
        IsJobRun job done → CanBeRestored job.geometry (job_place job) done.parcels lent }
{}

/// A tree of which nothing is out holds the state of its nodes, and no other.
pub fn whole_tree_holds_its_state()
    ensures start { (g : Geometry) (n : Nodes) (x : State) → IsIn g [] n → tree_state g n ≡ x → IsState g x → TreeHolds g nowhere n x }
    ensures whole { (g : Geometry) (n : Nodes) (x : State) → TreeHolds g nowhere n x → IsIn g [] n × (tree_state g n ≡ x) }
{}

/// A tree holds a state (`TreeHolds`), and a place is unrelated to all that is out of the tree. Then the
/// tree can lend that place: nothing there, above or below is out. What it lends shows the state, and the
/// tree still holds the state, with this place out too. Two equal sets of paths say the same (`alike`).
pub fn place_apart_is_lent()
    ensures some { (g : Geometry) (out : Path → Bool) (p : Path) (n : Nodes) (x : State) →
        TreeHolds g out n x → IsApart p out → HasGap g p n → ⊥ }
    ensures shows { (g : Geometry) (out : Path → Bool) (p : Path) (t : Standing) (l : Parcels)
        (n lent : Nodes) (x : State) → TreeHolds g out n x → IsApart p out →
        LendsAt g p t l n lent → Shows g p t l x }
    ensures holds { (g : Geometry) (out : Path → Bool) (p : Path) (t : Standing) (l : Parcels)
        (n lent : Nodes) (x : State) → TreeHolds g out n x → IsApart p out →
        LendsAt g p t l n lent → TreeHolds g (with_place p out) lent x }
    ensures alike { (g : Geometry) (out set : Path → Bool) (n : Nodes) (x : State) →
        ((q : Path) → out q ≡ set q) → TreeHolds g out n x → TreeHolds g set n x }
{}

/// Parcels that show a state also show the state after a serial step at an unrelated place.
pub fn step_elsewhere_is_shown()
    ensures { (g : Geometry) (p : Path) (t : Standing) (l : Parcels) (x : State) (m : Msg) →
        are_related p (path_of g m) ≡ false → Shows g p t l x → Shows g p t l (next_state g x m) }
{}

/// The parcels of a job are out of a tree that holds a state, perhaps beside others. Once the job ran,
/// they can be put back, and its reply is that of the serial step from that state. With them put back,
/// the tree holds the state after the step, with one place fewer out.
pub fn job_back_is_a_step()
    ensures ok { (out : Path → Bool) (job : JobView) (done : Done) (n : Nodes) (x : State) →
        IsJobOut out job n x → IsJobRun job done →
        CanBeRestored job.geometry (job_place job) done.parcels n }
    ensures reply { (out : Path → Bool) (job : JobView) (done : Done) (n : Nodes) (x : State) →
        IsJobOut out job n x → IsJobRun job done →
        done.reply ≡ reply_to job.geometry x job.message }
    ensures holds { (out : Path → Bool) (job : JobView) (done : Done) (n new : Nodes) (x : State) →
        IsJobOut out job n x → IsJobRun job done → IsMessage job.message →
        RestoresAt job.geometry (job_place job) done.parcels n new →
        TreeHolds job.geometry out new (next_state job.geometry x job.message) }
{}
