//! What holds of every server, whatever state it is in: laws of the definitions alone. No function
//! here does anything; its contract is the law.

ghost use Rattle.std.specs.Prelude.{◌≡◌, ℕ, ◌≤◌, ◌*◌, true, false, List, ◌++◌, Some, IsPermutation};
ghost use Rattle.std.specs.List.{AllByRecursion};
ghost use Rattle.affinity.specs.declared.geometry.Geometry.{Geometry};
ghost use Rattle.affinity.specs.Path.{are_related};
ghost use Rattle.protocol.specs.declared.messages.Msg.{Msg};
ghost use Rattle.protocol.specs.declared.replies.Refusal.{Refusal};
ghost use Rattle.protocol.specs.declared.replies.Reply.TheVariants.{Refused};
ghost use Rattle.protocol.specs.Grammar.{message_of};
ghost use Rattle.protocol.specs.Messages.{path_of, IsMessage};
ghost use Rattle.meaning.specs.State.{State, IsState, empty};
ghost use Rattle.meaning.specs.Refusals.{refusal, is_refused};
ghost use Rattle.meaning.specs.Step.{reply_to, next_state, state_after_all, is_recorded, recorded_of};
ghost use Rattle.meaning.specs.Subtrees.{AgreeOn, subtree, standing};
ghost use Rattle.meaning.specs.TicketOrder.{by_ticket, KeepsOrder, SameByTicket, AreInOrder};
ghost use Rattle.meaning.specs.Commute.{outside, RunAlike, Commute};
ghost use Rattle.meaning.specs.Output.{state_after_lines};
ghost use Rattle.meaning.specs.SendingAgain.{AreAccepted, HaveSpace, WritesThere, rounds, stripe_size, Try, AreTries, lines_done};

/// The empty state is a possible one (`IsState`), and each message leads from a possible state to a possible one: all
/// numbers stay in range, blocks and labels keep their lengths, and no stripe gets more blocks than its quota.
pub fn step_keeps_state()
    ensures nothing { (g : Geometry) → IsState g empty }
    ensures step { (g : Geometry) (x : State) (m : Msg) → IsState g x → IsMessage m → IsState g (next_state g x m) }
    ensures steps { (g : Geometry) (x : State) (ms : List Msg) → IsState g x → AllByRecursion IsMessage ms
        → IsState g (state_after_all g x ms) }
{}

/// A message that fails a check (`refusal` is the first such) is answered with that refusal, and a message that is
/// answered with a refusal changes nothing.
pub fn refusal_changes_nothing()
    ensures refused { (g : Geometry) (x : State) (m : Msg) (why : Refusal) → refusal g x m ≡ Some why → reply_to g x m ≡ Refused why }
    ensures unchanged { (g : Geometry) (x : State) (m : Msg) → is_refused (reply_to g x m) ≡ true → next_state g x m ≡ x }
{}

/// A message reads only what lies at its place, below it and above it, and changes only what lies
/// at its place and below.
pub fn step_reads_and_changes_only()
    ensures reads { (g : Geometry) (x y : State) (m : Msg) → subtree g (path_of g m) x ≡ subtree g (path_of g m) y
        → standing g (path_of g m) x ≡ standing g (path_of g m) y → RunAlike g x y m }
    ensures changes { (g : Geometry) (x : State) (m : Msg) → AgreeOn g (outside (path_of g m)) (next_state g x m) x }
{}

/// Two messages at unrelated places may run in either order.
pub fn unrelated_steps_commute()
    ensures { (g : Geometry) (x : State) (m n : Msg) → are_related (path_of g m) (path_of g n) ≡ false → Commute g x m n }
{}

/// Where messages at related places run in the order of their tickets, each message gets the reply
/// that it gets if all run in that order, and the state in the end is the same.
pub fn order_by_ticket()
    ensures in_order { (es : List (ℕ × Msg)) → AreInOrder (by_ticket es) }
    ensures same_messages { (es : List (ℕ × Msg)) → IsPermutation es (by_ticket es) }
    ensures same { (g : Geometry) (x : State) (es : List (ℕ × Msg)) → KeepsOrder g es → SameByTicket g x es }
{}

/// A message of which the log keeps no record (a query, or one that was refused) changes nothing. So those with a record
/// lead to the state to which all lead.
pub fn recorded_messages_are_enough()
    ensures unrecorded { (g : Geometry) (x : State) (m : Msg) → is_recorded m (reply_to g x m) ≡ false → next_state g x m ≡ x }
    ensures recorded { (g : Geometry) (x : State) (ms : List Msg) → state_after_all g x (recorded_of g x ms) ≡ state_after_all g x ms }
{}

/// Sending again heals: where no change is refused and each stripe has room, a client that sends its unanswered lines again after each
/// crash ends in the state in which it would have ended without a crash.
pub fn sending_again_heals()
    ensures heals { (g : Geometry) (x : State) (ls : List (List ℕ)) (tries : List Try) (left : List (List ℕ)) → IsState g x
        → AreAccepted g x ls → HaveSpace g x ls → AreTries g tries ls left
        → state_after_lines g x (lines_done tries ++ left) ≡ state_after_lines g x ls }
    ensures large_quota { (g : Geometry) (x : State) (ls : List (List ℕ)) → ((s : ℕ) → stripe_size g s ≤ g.quota) → HaveSpace g x ls }
    // So a quota of that many blocks is large enough for whatever is written.
    ensures stripe_size { (g : Geometry) (s : ℕ) → stripe_size g s ≤ g.files * (g.width * rounds g) }
    ensures nothing_new { (g : Geometry) (x : State) (ls : List (List ℕ)) → IsState g x
        → AllByRecursion (λ line. WritesThere x (message_of line)) ls → HaveSpace g x ls }
{}
