//! The theorem's laws: of any number of runs, of what lines mean, and of two runs.
ghost use Rattle.std.specs.Prelude.{◌≡◌, ◌↔◌, Bool, true, false, ℕ, List, [], ◌∷◌, Option, Some};
ghost use Rattle.affinity.specs.declared.geometry.Geometry.{Geometry};
ghost use Rattle.protocol.specs.declared.messages.Msg.{Msg};
ghost use Rattle.protocol.specs.Grammar.{message_of, Spells};
ghost use Rattle.meaning.specs.ClosedPart.{are_in_conflict};
ghost use Rattle.serving.specs.AnyRuns.{AreAnsweredBy, EachServes, IsHistoryOf, Operation, Run, Server, Serves, after, answers_in, lines_in};
ghost use Rattle.serving.specs.SerialServer.{server_in};
ghost use Rattle.commands.specs.SendsAgain.{SendsAgain, last_device};
ghost use Rattle.meaning.specs.Output.{output_lines};
ghost use Rattle.meaning.specs.SendingAgain.{AreAccepted, HaveSpace};
ghost use Rattle.meaning.specs.State.{IsState, State};

/// Any number of runs on one device, each on what a crash of the one before left of it: all that they answered is what one serial server
/// answers, which never crashes. The law holds whatever a serial server answers (`recover` says which server bytes hold), and whichever
/// lines are in conflict. It does nothing; its contract is the law.
pub fn runs_are_durably_linearizable()
    ensures { (recover : List ℕ → Option Server) (conflict : List ℕ → List ℕ → Bool) (device : List ℕ) (runs : List Run) (server : Server)
        → recover device ≡ Some server → EachServes recover conflict device runs
        → (history : List Operation) × IsHistoryOf conflict runs history × AreAnsweredBy server history }
{}

/// What lines mean to the serial server that begins in a state. `Spells` says which message a line spells, so `message_of` needn't be read.
/// The server's answers are what `waffd plain` writes, from that state on. Two lines that aren't in conflict may come in either order: each
/// gets the same answer, and the server is the same after both. It does nothing; its contract is the law.
pub fn what_lines_mean()
    ensures messages { (line : List ℕ) (m : Msg) → (message_of line ≡ Some m) ↔ Spells line m }
    ensures answers { (g : Geometry) (x : State) (operations : List Operation)
        → AreAnsweredBy (server_in g x) operations → answers_in operations ≡ output_lines g x (lines_in operations) }
    ensures conflict { (g : Geometry) (x : State) (line other : List ℕ) → are_in_conflict g line other ≡ false
        → (server_in g x (other ∷ []) line ≡ server_in g x [] line)
        × (after (line ∷ other ∷ []) (server_in g x) ≡ after (other ∷ line ∷ []) (server_in g x)) }
{}

/// Two runs that finished, on devices that hold one server, and with the same input: the same came out of both, and what the crashes left
/// holds one server. Their numbers of workers and of slots may differ, and their workers may have been scheduled in any way. So who sends
/// one input to two of them has a replica, as long as neither crashes. It does nothing; its contract is the law.
pub fn runs_that_finish_agree()
    ensures { (recover : List ℕ → Option Server) (conflict : List ℕ → List ℕ → Bool) (server : Server) (one other : Run)
        → Serves recover conflict server one → Serves recover conflict server other
        → one.finished ≡ true → other.finished ≡ true → other.input ≡ one.input
        → (other.out ≡ one.out) × (recover other.left ≡ recover one.left) }
{}

/// Sending again heals: a client of such runs sends to each the lines of which no answer has come out. If without a crash no change among
/// them would be refused, and there is space for their blocks, the server that is there at the end is, once it takes the lines that are
/// left, one that never crashed and took all of them. So if none is left, no crash has left a trace. The state `start` has to be a possible
/// one, as each is to which messages lead (law `meaning::step_keeps_state`). It does nothing; its contract is the law.
pub fn sending_again_leaves_no_trace()
    ensures { (g : Geometry) (recover : List ℕ → Option Server) (start : State) (device : List ℕ) (runs : List Run)
        → (ls left : List (List ℕ)) → recover device ≡ Some (server_in g start) → EachServes recover (are_in_conflict g) device runs
        → IsState g start → AreAccepted g start ls → HaveSpace g start ls → SendsAgain runs ls left
        → (server : Server) × (recover (last_device device runs) ≡ Some server) × (after left server ≡ after ls (server_in g start)) }
{}
