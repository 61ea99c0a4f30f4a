//! What holds of every legal run: laws of the definitions alone. No function here does anything; its
//! contract is the law.

ghost use Rattle.std.specs.Prelude.{◌≡◌, ◌+◌, ◌*◌, ◌++◌, ◌<◌, ◌≤◌, ◌==◌, ℕ, true, false, List, [], ◌∷◌, count_by, drop, length, take, IsPermutation};
ghost use Rattle.std.specs.List.{AllByRecursion, Contains};
ghost use Rattle.affinity.specs.declared.geometry.Geometry.{Geometry};
ghost use Rattle.affinity.specs.Path.{are_related};
ghost use Rattle.image.specs.Pieces.{piece_count};
ghost use Rattle.protocol.specs.declared.messages.Msg.{Msg};
ghost use Rattle.protocol.specs.declared.replies.Reply.{Reply};
ghost use Rattle.protocol.specs.Messages.{path_of};
ghost use Rattle.meaning.specs.State.{State, empty};
ghost use Rattle.meaning.specs.Step.{state_after_all};
ghost use Rattle.meaning.specs.TicketOrder.{by_ticket, messages_of, serial_replies};
ghost use Rattle.meaning.specs.Subtrees.{AgreeOn};
ghost use Rattle.histories.specs.CoreState.{Entry, Replied, CoreState, entries, entry, held, are_related_entries, AreUnrelated, AreAscending, HaveDistinctTickets, IsIdle};
ghost use Rattle.histories.specs.Eligible.{is_conflict_free};
ghost use Rattle.histories.specs.Events.{Event, IsAllowed, batch, recorded};
ghost use Rattle.histories.specs.MachineState.{MachineState, full_hands, HandsHold};
ghost use Rattle.histories.specs.Runs.{IsLegal, answered, answered_changes, answered_messages, arrived, appended_messages, end_state, logged_messages, IsJoined};
ghost use Rattle.histories.specs.Crash.{IsLeftSince, IsLogAfter, in_doubt};
ghost use Rattle.histories.specs.Incarnations.{AreLogsOf, AllHoldAnswered, IsLeftByIncarnations, IsLogOf, Incarnation, Ran};
ghost use Rattle.histories.specs.Failures.{DoubtOnlyAfterFailure, DoubtIsPrefixOfRan, StaysFailed, reports_failure};
ghost use Rattle.histories.specs.IsSoundCoreState.{HasRoom, IsSoundCoreState};
ghost use Rattle.histories.specs.Events.{IsAnswered};
ghost use Rattle.histories.specs.Progress.{CanAnswerAll, CanDrain, CanGoOn, CanStep, EachLeavesLess, IsBusy, kept_back_by, steps_in, steps_to_come, useful_events, work_left};
ghost use Rattle.histories.specs.IsSerialHistory.{IsSerialHistory, ticket_replies};
ghost use Rattle.histories.specs.Events.{dispatches_or_returns};

/// A core state in which nothing waits and nothing is held is sound, and each event leads from a sound
/// core state to a sound one.
pub fn events_keep_core_states_sound()
    ensures idle { (g : Geometry) (w : CoreState) → IsIdle w → IsSoundCoreState g w }
    ensures event { (g : Geometry) (old : MachineState) (event : Event) → IsAllowed g old event → IsSoundCoreState g old.core
        → IsSoundCoreState g event.state_after.core }
{}

/// In each core state of a legal run no two of the messages that are held are at related places.
pub fn held_messages_are_unrelated()
    ensures { (g : Geometry) (old : MachineState) (events : List Event) → IsLegal g old events → IsSoundCoreState g old.core
        → AllByRecursion (λ event. AreUnrelated g (held event.state_after.core)) events }
{}

/// The messages that a run logs get the replies that the serial server gives them, one after the other in
/// log order. They are answered with these replies, in that order, after the messages that were logged before the run.
pub fn replies_are_in_log_order()
    ensures replied { (g : Geometry) (old : MachineState) (events : List Event) → IsLegal g old events → IsSoundCoreState g old.core
        → ticket_replies (logged_messages old events) ≡ serial_replies g old.core.committed (entries (logged_messages old events)) }
    ensures answered { (g : Geometry) (old : MachineState) (events : List Event) → IsLegal g old events
        → ticket_replies old.core.logged ++ ticket_replies (logged_messages old events)
        ≡ answered events ++ ticket_replies (end_state old events).core.logged }
{}

/// The committed state after a run is the state to which the messages that it logs lead. The changes among them that
/// it appends to the log lead to the same state.
pub fn committed_is_what_was_logged()
    ensures logged { (g : Geometry) (old : MachineState) (events : List Event) → IsLegal g old events → IsSoundCoreState g old.core
        → (end_state old events).core.committed
        ≡ state_after_all g old.core.committed (messages_of (entries (logged_messages old events))) }
    ensures appended { (g : Geometry) (old : MachineState) (events : List Event) → IsLegal g old events → IsSoundCoreState g old.core
        → (end_state old events).core.committed ≡ state_after_all g old.core.committed (appended_messages old events) }
    ensures appended_messages { (old : MachineState) (events : List Event)
        → appended_messages old events ≡ recorded (logged_messages old events) }
{}

/// A legal run, and a legal run from where it ended, are together one legal run. What that one logs, appends,
/// takes in and answers is what the two do, one after the other.
pub fn legal_runs_join()
    ensures { (g : Geometry) (old : MachineState) (events more : List Event) → IsLegal g old events → IsLegal g (end_state old events) more
        → IsJoined g old events more }
{}

/// In each core state of a legal run the log has room for all changing messages that are in flight or ran, and
/// the slots that there were in the beginning are enough for all messages. So a log step always has room for what
/// it appends.
pub fn room_and_slots_are_enough()
    ensures run { (g : Geometry) (old : MachineState) (events : List Event) → IsLegal g old events → IsSoundCoreState g old.core
        → AllByRecursion (λ event. HasRoom old.core.slots event.state_after.core) events }
    ensures log { (g : Geometry) (w : CoreState) (n : ℕ) → IsSoundCoreState g w → length (batch w n) ≤ w.room }
{}

/// Where nothing waited and nothing was held in the beginning, each reply to a message that was logged or
/// answered is the one that the serial server gives if it runs all arrivals in the order of their tickets. Tickets
/// ascend, so no two messages have the same one. Where nothing waits and nothing is held in the end, the committed
/// state is the serial server's too.
pub fn replies_are_by_ticket()
    ensures tickets { (g : Geometry) (old : MachineState) (events : List Event) → IsLegal g old events → AreAscending (arrived events) }
    ensures logged { (g : Geometry) (old : MachineState) (events : List Event) → IsLegal g old events → IsIdle old.core
        → (reply : ℕ × Reply) → Contains (ticket_replies (logged_messages old events)) reply
        → Contains (serial_replies g old.core.committed (by_ticket (arrived events))) reply }
    ensures answered { (g : Geometry) (old : MachineState) (events : List Event) → IsLegal g old events → IsIdle old.core
        → (reply : ℕ × Reply) → Contains (answered events) reply
        → Contains (serial_replies g old.core.committed (by_ticket (arrived events))) reply }
    ensures committed { (g : Geometry) (old : MachineState) (events : List Event) → IsLegal g old events → IsIdle old.core
        → IsIdle (end_state old events).core
        → (end_state old events).core.committed ≡ state_after_all g old.core.committed (messages_of (by_ticket (arrived events))) }
{}

/// Where nothing waited and nothing was held in the beginning, no message is lost, and none is there twice: those
/// that arrived are those that were logged, those that ran and are not logged yet, those in flight and
/// those that wait. So whatever is answered arrived. No two messages that arrived have the same ticket.
pub fn messages_are_neither_lost_nor_doubled()
    ensures all { (g : Geometry) (old : MachineState) (events : List Event) → IsLegal g old events → IsIdle old.core
        → IsPermutation (arrived events) (entries (logged_messages old events) ++ (entries (end_state old events).core.ran
        ++ ((end_state old events).core.in_flight ++ (end_state old events).core.waiting))) }
    ensures answered { (g : Geometry) (old : MachineState) (events : List Event) → IsLegal g old events → IsIdle old.core
        → AllByRecursion (λ a. Contains (arrived events) (entry a)) (answered_messages old events) }
    ensures ticket { (g : Geometry) (old : MachineState) (events : List Event) (e d : Entry) → IsLegal g old events
        → Contains (arrived events) e → Contains (arrived events) d → e.0 ≡ d.0 → e ≡ d }
{}

/// Where nothing waited and nothing was held in the beginning, what a run logs, followed by the first j of the messages
/// that ran and are not logged yet, is a serial history of what arrived. Each message of a serial history arrived. If the
/// arrivals have ascending tickets, no two messages of it have the same one, and it stays a serial history when more arrive.
pub fn what_ran_is_a_serial_history()
    ensures run { (g : Geometry) (old : MachineState) (events : List Event) (j : ℕ) → IsLegal g old events → IsIdle old.core
        → IsSerialHistory g old.core.committed (arrived events) (logged_messages old events ++ take j (end_state old events).core.ran) }
    ensures came { (g : Geometry) (x : State) (arrivals : List Entry) (history : List Replied) → IsSerialHistory g x arrivals history
        → AllByRecursion (λ a. Contains arrivals (entry a)) history }
    ensures once { (g : Geometry) (x : State) (arrivals : List Entry) (history : List Replied) → IsSerialHistory g x arrivals history
        → AreAscending arrivals → HaveDistinctTickets (entries history) }
    ensures later { (g : Geometry) (x : State) (arrivals more : List Entry) (history : List Replied) → AreAscending (arrivals ++ more)
        → IsSerialHistory g x arrivals history → IsSerialHistory g x (arrivals ++ more) history }
{}

/// Only the answer to a message at a related place makes a waiting message conflict-free. At any other event
/// a message that goes on waiting stays conflict-free if it was, and kept back if it was not.
pub fn only_answers_clear()
    ensures { (g : Geometry) (old : MachineState) (event : Event) (e : Entry) → IsAllowed g old event → IsSoundCoreState g old.core
        → Contains old.core.waiting e → Contains event.state_after.core.waiting e
        → ((a : Replied) → IsAnswered old.core event.state_after.core a → are_related_entries g e (entry a) ≡ false)
        → is_conflict_free g event.state_after.core e ≡ is_conflict_free g old.core e }
{}

/// A step reports that the device failed exactly if it failed during the step, and then the device counts as failed for
/// good: messages in flight can still be given back, and logged ones answered, but no message arrives, is
/// dispatched or is logged, and no checkpoint goes on.
pub fn failures_are_reported_and_last()
    ensures reported { (g : Geometry) (old : MachineState) (event : Event) → IsAllowed g old event
        → event.device_failed ≡ reports_failure event.outcome }
    ensures failed { (g : Geometry) (old : MachineState) (event : Event) → IsAllowed g old event → event.device_failed ≡ true
        → event.state_after.core.failed ≡ true }
    ensures lasts { (g : Geometry) (old : MachineState) (event : Event) → IsAllowed g old event → old.core.failed ≡ true
        → StaysFailed old.core event.state_after.core }
{}

/// Messages come into `doubt` only if the device fails.
pub fn only_a_failure_leaves_doubt()
    ensures { (g : Geometry) (old : MachineState) (event : Event) → IsAllowed g old event → DoubtOnlyAfterFailure old.core
        → DoubtOnlyAfterFailure event.state_after.core }
{}

/// `doubt` is the changes that were carried out among the first messages of `ran`. Each prefix of `doubt` is those among
/// the first j of them, for some j.
pub fn what_is_in_doubt_ran()
    ensures event { (g : Geometry) (old : MachineState) (event : Event) → IsAllowed g old event → DoubtOnlyAfterFailure old.core
        → DoubtIsPrefixOfRan old.core → DoubtIsPrefixOfRan event.state_after.core }
    ensures run { (g : Geometry) (old : MachineState) (events : List Event) → IsLegal g old events → old.core.doubt ≡ []
        → DoubtIsPrefixOfRan (end_state old events).core }
    ensures first { (w : CoreState) (k : ℕ) → DoubtIsPrefixOfRan w
        → (j : ℕ) × (j ≤ length w.ran) × (recorded (take j w.ran) ≡ take k w.doubt) }
{}

/// If a crash comes when k events or more have ended, what it may leave is a state to which all that the first k
/// events appended leads, with other messages after it or none. If it comes after k events and before the next one has
/// ended, that is the state committed after the k events, with the first m of the messages in doubt then (`in_doubt`).
pub fn a_crash_leaves_what_was_appended()
    ensures begins { (g : Geometry) (old : MachineState) (events : List Event) (k : ℕ) (x : State) → IsLeftSince g old events k x
        → (rest : List Msg) × (x ≡ state_after_all g old.core.committed (appended_messages old (take k events) ++ rest)) }
    ensures committed { (g : Geometry) (old : MachineState) (events : List Event) (k : ℕ) (ms : List Msg) → IsLegal g old events
        → IsSoundCoreState g old.core → (log : IsLogAfter old events k ms) → state_after_all g old.core.committed ms
        ≡ state_after_all g (end_state old (take k events)).core.committed
        (take log.some (in_doubt (end_state old (take k events)).core (drop k events))) }
{}

/// Two runs, one after the other, are one run, and its crash may come in either. What a crash of the first may leave in the log, a crash
/// of both may leave. What a crash of the second may leave in the log, a crash of both may leave after all that the first appended. The
/// same holds of the state that a crash may leave; for the second run, if the first is legal and began in a sound core state.
pub fn a_crash_may_come_in_either_run()
    ensures log_first { (old : MachineState) (events more : List Event) (k : ℕ) (ms : List Msg) → k ≤ length events
        → IsLogAfter old events k ms → IsLogAfter old (events ++ more) k ms }
    ensures log_second { (old : MachineState) (events more : List Event) (k : ℕ) (ms : List Msg)
        → IsLogAfter (end_state old events) more k ms
        → IsLogAfter old (events ++ more) (length events + k) (appended_messages old events ++ ms) }
    ensures left_first { (g : Geometry) (old : MachineState) (events more : List Event) (k : ℕ) (x : State) → IsLeftSince g old events k x
        → IsLeftSince g old (events ++ more) k x }
    ensures left_second { (g : Geometry) (old : MachineState) (events more : List Event) (k : ℕ) (x : State) → IsLegal g old events
        → IsSoundCoreState g old.core → IsLeftSince g (end_state old events) more k x
        → IsLeftSince g old (events ++ more) (length events + k) x }
{}

/// The messages that a run answers are the first of those that were logged before it and in it, in log order. So the changes that were
/// logged and unanswered at its start, followed by whatever log a later crash leaves, begin with every change that was answered.
pub fn answered_changes_are_in_the_log()
    ensures reply_pairs { (g : Geometry) (old : MachineState) (events : List Event) → IsLegal g old events
        → ticket_replies (answered_messages old events) ≡ answered events }
    ensures in_order { (g : Geometry) (old : MachineState) (events : List Event) → IsLegal g old events
        → old.core.logged ++ logged_messages old events ≡ answered_messages old events ++ (end_state old events).core.logged }
    ensures crash { (g : Geometry) (old : MachineState) (events : List Event) (k after : ℕ) (ms : List Msg) → IsLegal g old events
        → k ≤ after → IsLogAfter old events after ms
        → (rest : List Msg) × (recorded old.core.logged ++ ms ≡ answered_changes old (take k events) ++ rest) }
{}

/// Where nothing waited, was held or was in `doubt` in the beginning: what a crash leaves in the log when k events have
/// ended is the changes that a serial history of what had arrived carried out. That is all that was logged by then, followed
/// by the first j of the messages that ran and were not logged, for some j. What is logged in the first k events or more begins
/// with all that is answered in the first k. Each prefix of `doubt` in the end is the changes among the first j of those that ran,
/// for some j, and these, after what was logged, are a serial history, too.
pub fn a_crash_leaves_a_serial_history()
    ensures left { (g : Geometry) (old : MachineState) (events : List Event) (k : ℕ) (ms : List Msg) → IsLegal g old events
        → IsIdle old.core → old.core.doubt ≡ [] → IsLogAfter old events k ms
        → (j : ℕ) × IsSerialHistory g old.core.committed (arrived (take k events))
        (logged_messages old (take k events) ++ take j (end_state old (take k events)).core.ran)
        × (ms ≡ recorded (logged_messages old (take k events) ++ take j (end_state old (take k events)).core.ran)) }
    ensures begins { (g : Geometry) (old : MachineState) (events : List Event) (k after : ℕ) → IsLegal g old events → IsIdle old.core
        → k ≤ after → (rest : List Replied) × (logged_messages old (take after events) ≡ answered_messages old (take k events) ++ rest) }
    ensures doubt { (g : Geometry) (old : MachineState) (events : List Event) (k : ℕ) → IsLegal g old events → IsIdle old.core
        → old.core.doubt ≡ []
        → (j : ℕ) × IsSerialHistory g old.core.committed (arrived events)
        (logged_messages old events ++ take j (end_state old events).core.ran)
        × (recorded (take j (end_state old events).core.ran) ≡ take k (end_state old events).core.doubt) }
{}

/// Whatever event comes, what a message in flight can read of the committed state stays as it is: what is at its place, below it
/// and above it.
pub fn messages_in_flight_see_no_change()
    ensures { (g : Geometry) (old : MachineState) (event : Event) (e : Entry) → IsAllowed g old event → IsSoundCoreState g old.core
        → Contains old.core.in_flight e → AgreeOn g (are_related (path_of g e.1)) event.state_after.core.committed old.core.committed }
{}

/// Only a grant dispatches a message, and only a return gives one back.
pub fn only_grants_and_returns_change_what_is_in_flight()
    ensures { (g : Geometry) (old : MachineState) (event : Event) → IsAllowed g old event → dispatches_or_returns event.step ≡ false
        → event.state_after.core.in_flight ≡ old.core.in_flight }
{}

/// The number of messages in flight grows and falls with that of full hands (those with a job or a result). So nothing is in flight
/// in the end if nothing was in the beginning and every hand is empty in the end.
pub fn messages_in_flight_are_in_hands()
    ensures number { (g : Geometry) (old : MachineState) (events : List Event) → IsLegal g old events
        → length (end_state old events).core.in_flight + full_hands old.hands
        ≡ length old.core.in_flight + full_hands (end_state old events).hands }
    ensures none { (g : Geometry) (old : MachineState) (events : List Event) → IsLegal g old events → old.core.in_flight ≡ []
        → full_hands (end_state old events).hands ≡ 0 → (end_state old events).core.in_flight ≡ [] }
{}

/// If the incarnations so far may leave a state, and one more begins in it, all of them may leave the state to which its log leads
/// from there. What a crash of a run may leave comes of such a log. The log of each incarnation begins with every change that was
/// answered in it (`HoldsAnswered`).
pub fn incarnations_follow_one_another()
    ensures first { (g : Geometry) → IsLeftByIncarnations g [] empty }
    ensures next { (g : Geometry) (incarnations : List Incarnation) (incarnation : Incarnation) (x : State) (log : List Msg)
        → IsLeftByIncarnations g incarnations x
        → IsLogOf g x incarnation log → IsLeftByIncarnations g (incarnations ++ incarnation ∷ []) (state_after_all g x log) }
    ensures run { (g : Geometry) (start : MachineState) (events : List Event) (ended : ℕ) (x : State) → IsIdle start.core
        → IsLegal g start events → IsLeftSince g start events ended x
        → (log : List Msg) × IsLogOf g start.core.committed (Ran start events ended) log
        × (x ≡ state_after_all g start.core.committed log) }
    ensures answered { (g : Geometry) (x : State) (incarnations : List Incarnation) (logs : List (List Msg))
        → AreLogsOf g x incarnations logs
        → AllHoldAnswered incarnations logs }
{}

/// While the device works and something waits or is held, something can be done. Where nothing is held, the waiting message with the
/// least ticket is conflict-free, so that it lacks at most room in the log, and a checkpoint makes room.
pub fn something_can_be_done()
    ensures least { (g : Geometry) (w : CoreState) (e : Entry) (rest : List Entry) → IsSoundCoreState g w → held w ≡ []
        → w.waiting ≡ e ∷ rest → is_conflict_free g w e ≡ true }
    ensures next { (g : Geometry) (w : CoreState) → IsSoundCoreState g w → w.failed ≡ false → IsBusy w → CanGoOn g w }
{}

/// A waiting message is conflict-free exactly if no message keeps it back. As long as it waits, as many keep it back as did at first, less
/// the related ones that have been answered. This holds for each part of a run, so no message that arrives later keeps it back.
pub fn later_messages_keep_none_back()
    ensures none { (g : Geometry) (w : CoreState) (e : Entry) → is_conflict_free g w e ≡ (kept_back_by g w e == 0) }
    ensures run { (g : Geometry) (old : MachineState) (events : List Event) (e : Entry) → IsLegal g old events
        → IsSoundCoreState g old.core → Contains old.core.waiting e
        → AllByRecursion (λ event. Contains event.state_after.core.waiting e) events
        → kept_back_by g (end_state old events).core e
        + count_by (λ a. are_related_entries g e (entry a)) (answered_messages old events) ≡ kept_back_by g old.core e }
{}

/// A message takes five steps: it is dispatched, runs, is given back, is logged and is answered. The steps that messages take in a run, and
/// those to come at its end, are those to come at its start, and five for each message that arrives. So, without arrivals, only so many
/// events do one of these. From a start with nothing waiting, nothing held and every hand empty there are at most five for each arrival.
pub fn each_message_takes_five_steps()
    ensures steps { (g : Geometry) (old : MachineState) (events : List Event) → IsLegal g old events
        → steps_in events + steps_to_come (end_state old events) ≡ steps_to_come old + 5 * length (arrived events) }
    ensures events { (g : Geometry) (old : MachineState) (events : List Event) → IsLegal g old events
        → useful_events events + steps_to_come (end_state old events) ≤ steps_to_come old + 5 * length (arrived events) }
    ensures idle { (g : Geometry) (old : MachineState) (events : List Event) → IsLegal g old events → IsIdle old.core
        → full_hands old.hands ≡ 0 → useful_events events ≤ 5 * length (arrived events) }
{}

/// Each ticket is in as many hands as there are messages in flight with it, whatever comes, if it was so before. At a start with nothing in
/// flight and every hand empty it is so.
pub fn hands_hold_what_is_in_flight()
    ensures start { (w : MachineState) → w.core.in_flight ≡ [] → full_hands w.hands ≡ 0 → HandsHold w }
    ensures event { (g : Geometry) (old : MachineState) (event : Event) → IsAllowed g old event → HandsHold old
        → HandsHold event.state_after }
{}

/// From a sound machine state whose hands have what is in flight, with at least one hand and a device that works: if anything waits or is
/// held, at least one event other than an arrival is allowed, and leaves less to do. Whichever such events come, there are no more than
/// work is left, and there is another one until nothing waits and nothing is held. Some legal run of them ends so. So whatever has happened
/// since a start with nothing waiting, nothing held and every hand empty, each message that arrived can be answered, once, as long as the
/// device works. Checkpoints are made online, of n pieces each, for any number n that a cut may have.
pub fn all_can_be_answered()
    ensures step { (g : Geometry) (n : ℕ) → n ≤ piece_count g → (w : MachineState) → IsSoundCoreState g w.core
        → w.core.failed ≡ false → HandsHold w → 0 < length w.hands → IsBusy w.core → CanStep g n w }
    ensures any { (g : Geometry) (n : ℕ) → n ≤ piece_count g → (w : MachineState) (events : List Event) → IsSoundCoreState g w.core
        → HandsHold w → 0 < length w.hands → IsLegal g w events → EachLeavesLess g n w events
        → (end_state w events).core.failed ≡ false
        → (length events + work_left g n (end_state w events) ≤ work_left g n w)
        × (IsBusy (end_state w events).core → CanStep g n (end_state w events)) }
    ensures drain { (g : Geometry) (n : ℕ) → n ≤ piece_count g → (w : MachineState) → IsSoundCoreState g w.core
        → w.core.failed ≡ false → HandsHold w → 0 < length w.hands → CanDrain g n w }
    ensures answered { (g : Geometry) (n : ℕ) → n ≤ piece_count g → (start : MachineState) (events : List Event)
        → IsLegal g start events → IsIdle start.core → full_hands start.hands ≡ 0 → 0 < length start.hands
        → (end_state start events).core.failed ≡ false → CanAnswerAll g n start events }
{}
