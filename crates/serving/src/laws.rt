//! What holds of a server that runs many messages at once: laws of the definitions alone. No function here does anything; its
//! contract is the law.

ghost use Rattle.std.specs.Prelude.{◌≡◌, ◌≢◌, ◌+◌, ◌*◌, ◌<◌, ◌≤◌, ◌++◌, ◌∷◌, ℕ, Bool, true, false, List, [], length, map, take, Option, Some, Ok, Err, IfSome};
ghost use Rattle.std.specs.Io.KnownBytes.{Appends, IsAtEnd};
ghost use Rattle.std.specs.List.{AllByRecursion, Contains};
ghost use Rattle.affinity.specs.declared.geometry.Geometry.{Geometry};
ghost use Rattle.disk.specs.CrashImages.{IsCrashImage, left_since};
ghost use Rattle.disk.specs.Device.{moment_number};
ghost use Rattle.histories.specs.Events.{arrive};
ghost use Rattle.histories.specs.Runs.{logged_messages};
ghost use Rattle.histories.specs.CoreState.{Entry, most_tickets, IsIdle};
ghost use Rattle.histories.specs.declared.outcomes.ArriveRefusal.TheVariants as arrivals;
ghost use Rattle.histories.specs.declared.outcomes.Outcome.TheVariants as outcomes;
ghost use Rattle.protocol.specs.Grammar.{message_of};
ghost use Rattle.protocol.specs.Messages.{is_in_range};
ghost use Rattle.protocol.specs.FirstLine.{GivesLine, LosesLineStart};
ghost use Rattle.protocol.specs.declared.messages.Msg.{Msg};
ghost use Rattle.protocol.specs.Replies.{reply_line};
ghost use Rattle.protocol.specs.declared.replies.Reply.{Reply};
ghost use Rattle.protocol.specs.declared.replies.Reply.TheVariants.{Done};
ghost use Rattle.meaning.specs.TicketOrder.{serial_replies};
ghost use Rattle.meaning.specs.Output.{output_lines, state_after_lines};
ghost use Rattle.meaning.specs.Step.{state_after_all};
ghost use Rattle.meaning.specs.State.{State};
ghost use Rattle.scheduler.specs.CoreView.{CoreView, RecoversNow, core_state_of};
ghost use Rattle.serving.specs.Ends.{EndsWith, IsQuiesced, committed_in};
ghost use Rattle.serving.specs.Exchange.{exchange};
ghost use Rattle.serving.specs.Progress.{ServingProgress};
ghost use Rattle.serving.specs.Restart.{BytesRecover};
ghost use Rattle.serving.specs.History.{AreInHistory, RecoversToHistory};
ghost use Rattle.serving.specs.HoldsSent.{HoldsSent};
ghost use Rattle.serving.specs.MaySend.{MaySend, SendsNoReply};
ghost use Rattle.serving.specs.Session.{NoneUnanswered};
ghost use Rattle.serving.specs.Start.{Start};
ghost use Rattle.serving.specs.Lines.{AreKnown, Line, admitted, has_answer, answer_text, ticketed};
ghost use Rattle.scheduler.specs.Machine.{MachineView, machine_of};
ghost use Rattle.scheduler.specs.DeviceEvents.{device_after, events_of};
ghost use Rattle.serving.specs.Runs.{RunsBetween, unanswered, HasRunLines};
ghost use Rattle.serving.specs.HasServed.{HasServed};
ghost use Rattle.serving.specs.Turns.{AreTurns, IsInBounds, LoopView, Turn, busy_turns, lines_read, lines_sent, pieces, slots, turns_a_line, turns_an_answer, turns_left};
ghost use Rattle.serving.specs.declared.server.ServeFault.TheVariants as faults;
ghost use Rattle.serving.specs.declared.session.Activity.TheVariants as activities;

use disk::Disk;

/// If each reply is the one that the serial server gives to the message with its ticket, and each `Line` states rightly what is known of
/// its line (`AreKnown`), then the lines that have an answer are answered as by the serial server. The messages of lines lead to the
/// state to which the lines lead it.
pub fn known_lines_are_serial()
    ensures output { (g : Geometry) (x : State) (n : ℕ) (ls : List (List ℕ)) (replies : List (ℕ × Reply)) (sent_lines unsent : List Line)
        → ((reply : ℕ × Reply) → Contains replies reply → Contains (serial_replies g x (ticketed n (admitted g ls))) reply)
        → AreKnown g replies n ls (sent_lines ++ unsent) → AllByRecursion (λ line. has_answer line ≡ true) sent_lines
        → map answer_text sent_lines ≡ take (length sent_lines) (output_lines g x ls) }
    ensures state { (g : Geometry) (x : State) (ls : List (List ℕ)) → state_after_all g x (admitted g ls) ≡ state_after_lines g x ls }
{}

/// Two segments of a run, the second of which begins where the first ends, are together one segment.
pub fn segments_join<D: Disk>()
    ensures { (old mid new : MachineView) (arriving more : List Entry) (replies others : List (ℕ × Reply))
        → RunsBetween D.keeps old mid arriving replies
        → RunsBetween D.keeps mid new more others → RunsBetween D.keeps old new (arriving ++ more) (replies ++ others) }
{}

/// How many messages wait or are held grows by the arrivals, less the answered ones, and the number of slots stays the same. So a
/// message isn't refused for want of a slot while fewer lines are read and not answered in the output than there are slots.
pub fn unanswered_are_arrived_less_answered<D: Disk>()
    ensures count { (old new : MachineView) (arriving : List Entry) (replies : List (ℕ × Reply))
        → RunsBetween D.keeps old new arriving replies
        → unanswered (core_state_of new.core) + length replies ≡ unanswered (core_state_of old.core) + length arriving }
    ensures slots { (old new : MachineView) (arriving : List Entry) (replies : List (ℕ × Reply))
        → RunsBetween D.keeps old new arriving replies
        → new.core.slots ≡ old.core.slots }
    ensures a_slot { (start now : MachineView) (unsent : List Line) (input unread : Option (List ℕ)) (drained : Bool)
        (before written : Option (List ℕ)) (m : Msg) → IsIdle (core_state_of start.core)
        → ServingProgress D.keeps start now unsent input unread drained before written → length unsent < start.core.slots
        → (arrive now.core.geometry (core_state_of now.core) m).0 ≢ outcomes.ArriveRefused arrivals.Full }
{}

/// No more messages wait or are held than there are lines that were read and are not answered in the output.
pub fn each_unanswered_message_has_its_line<D: Disk>()
    ensures { (start now : MachineView) (unsent : List Line) (input unread : Option (List ℕ)) (drained : Bool)
        (before written : Option (List ℕ)) → IsIdle (core_state_of start.core)
        → ServingProgress D.keeps start now unsent input unread drained before written
        → unanswered (core_state_of now.core) ≤ length unsent }
{}

/// A server in whose core nothing waited or was held at the start has written what the serial server writes, however many messages ran at
/// once: at the end of the input all of it; where a read failed, the answers to the whole lines that were read (`LosesLineStart`: what was
/// read of a further line, without its newline, is lost); where a line found no ticket, the answers to the lines before it; where the
/// device failed, a prefix of it in whole lines. In the first three cases nothing waits or is held, and the core has committed the state
/// that the serial server has after the answered lines. One legal run led to all that was written (`run`). `RecoversNow`: whatever a crash
/// leaves now recovers to the committed state with a prefix of the messages in `doubt`.
pub fn serving_ends_as_the_serial_server<D: Disk>()
    ensures end_of_input { (start now : MachineView) (input unread : Option (List ℕ)) (drained : Bool) (before written : Option (List ℕ))
        → IsIdle (core_state_of start.core) → ServingProgress D.keeps start now [] input unread drained before written
        → now.core.failed ≡ false → IsAtEnd unread → EndsWith start.core now.core (exchange input unread before written) (Ok tt) }
    ensures read { (start now : MachineView) (input unread remaining before written : Option (List ℕ)) → IsIdle (core_state_of start.core)
        → ServingProgress D.keeps start now [] input unread false before written → now.core.failed ≡ false
        → IfSome unread (λ bs. LosesLineStart bs remaining)
        → EndsWith start.core now.core (exchange input remaining before written) (Err faults.Read) }
    ensures exhausted { (start now : MachineView) (input unread remaining : Option (List ℕ)) (drained : Bool)
        (before written : Option (List ℕ)) (line : List ℕ) (m : Msg) → IsIdle (core_state_of start.core)
        → ServingProgress D.keeps start now [] input unread drained before written → now.core.failed ≡ false → now.core.next ≡ most_tickets
        → IfSome unread (λ bs. GivesLine line bs remaining) → message_of line ≡ Some m → is_in_range start.core.geometry m ≡ true
        → EndsWith start.core now.core (exchange input remaining before written) (Err faults.Exhausted) }
    ensures device { (start now : MachineView) (unsent : List Line) (input unread : Option (List ℕ)) (drained : Bool)
        (before written : Option (List ℕ)) → IsIdle (core_state_of start.core)
        → ServingProgress D.keeps start now unsent input unread drained before written → now.core.failed ≡ true → IsQuiesced now.core
        → EndsWith start.core now.core (exchange input unread before written) (Err faults.Device) }
    ensures run { (start now : MachineView) (unsent : List Line) (input unread : Option (List ℕ)) (drained : Bool)
        (before written : Option (List ℕ)) → IsIdle (core_state_of start.core)
        → ServingProgress D.keeps start now unsent input unread drained before written → (now.core.failed ≡ false → now.core.doubt ≡ [])
        → (D.keeps → RecoversNow now.core) → length unsent ≤ start.core.slots
        → HasServed D.keeps start now.core unsent input before written }
{}

/// Where `doubt` was empty in the beginning, the device holds what was answered. Each line that was written for a message with a ticket is
/// of a message that was logged in the run, with that ticket and that reply. After a crash at any moment since event number k ended, the
/// device recovers to the state after all that was logged by then, perhaps with more of the messages that arrived. After a crash that
/// comes once the server has ended, it recovers in the same sense to the state after all that the run logged.
pub fn what_was_sent_is_on_the_device<D: Disk>()
    ensures logged { (start : MachineView) (new : CoreView) (input : Option (List ℕ)) (consumed : List (List ℕ))
        → IsIdle (core_state_of start.core) → start.core.doubt ≡ [] → (h : HasRunLines D.keeps start new input consumed) → D.keeps
        → (k : ℕ) (c : List ℕ) → k ≤ length h.segment.device_events
        → left_since new.medium (moment_number (device_after start.core.medium (take k h.segment.device_events))) c
        → RecoversToHistory start.core.geometry (committed_in start.core) (ticketed start.core.next (admitted start.core.geometry consumed))
        (logged_messages (machine_of start) (take k (events_of h.segment.device_events))) c }
    ensures at_end { (start : MachineView) (new : CoreView) (input : Option (List ℕ)) (consumed : List (List ℕ))
        → IsIdle (core_state_of start.core) → start.core.doubt ≡ [] → (h : HasRunLines D.keeps start new input consumed) → D.keeps
        → (c : List ℕ) → IsCrashImage new.medium c
        → RecoversToHistory start.core.geometry (committed_in start.core) (ticketed start.core.next (admitted start.core.geometry consumed))
        (logged_messages (machine_of start) (events_of h.segment.device_events)) c }
    ensures sent { (start : MachineView) (new : CoreView) (unsent : List Line) (input before written : Option (List ℕ))
        → IsIdle (core_state_of start.core) → (h : HasServed D.keeps start new unsent input before written)
        → AreInHistory start.core.geometry (logged_messages (machine_of start) (events_of h.run.segment.device_events))
        start.core.next h.consumed (map answer_text h.sent_lines) }
{}

/// What may be sent is on the device: once it is sent, whatever a crash leaves of the device, as it was then, holds all that was sent.
pub fn what_may_be_sent_is_on_the_device<D: Disk>()
    ensures { (s : Start) (sent later : Option (List ℕ)) (now : CoreView) (bytes : List ℕ) → MaySend D.keeps (Some s) sent now bytes
        → D.keeps → Appends sent later bytes → (c : List ℕ) → IsCrashImage now.medium c
        → HoldsSent s.core.geometry (committed_in s.core) s.core.slots s.core.next s.input s.before later c }
{}

/// What may be sent is recovered: once it is sent, whatever a crash leaves of the device, as it was then, recovers to a state with each
/// line that was sent, and with some of the lines after them, of no more than there are slots: where one is left out, so is each later one
/// related to it.
pub fn what_may_be_sent_is_recovered<D: Disk>()
    ensures { (s : Start) (sent later : Option (List ℕ)) (now : CoreView) (bytes : List ℕ) → MaySend D.keeps (Some s) sent now bytes
        → D.keeps → Appends sent later bytes → (c : List ℕ) → IsCrashImage now.medium c
        → BytesRecover s.core.geometry s.core.slots (committed_in s.core) s.input s.before later c }
{}

/// A session gets on: a turn of its loop that meets no fault may have waited for a worker, or leaves less to do but for the lines that it
/// reads. So of any number of turns, one after the other, only so many wait for no worker: those that are left to do at first
/// (`turns_left`), and a fixed number for each line that they read, or for each answer that they send and for each slot (`turns_a_line`).
/// While one of the lines that are outstanding at first isn't answered, fewer turns wait for no worker than `turns_an_answer`, a number
/// that depends on the device and the slots alone. After a turn that did nothing, in which no line is unanswered, the next one has read a
/// line, if the loop goes on.
pub fn a_session_gets_on()
    ensures turns { (m : LoopView) (later : List LoopView) (turns : AreTurns m later)
        → busy_turns later ≤ turns_left (pieces m) m + turns_a_line (pieces m) * lines_read m later turns }
    ensures sent { (m : LoopView) (later : List LoopView) (turns : AreTurns m later)
        → busy_turns later ≤ turns_left (pieces m) m + turns_a_line (pieces m) * (lines_sent m later turns + slots m) }
    ensures answered { (m : LoopView) (later : List LoopView) (turns : AreTurns m later) → IsInBounds m.session
        → lines_sent m later turns < m.session.outstanding → busy_turns later < turns_an_answer (pieces m) (slots m) }
    ensures idle { (old new : LoopView) (turn : Turn old new) → old.last ≡ activities.Idle
        → NoneUnanswered old.session × (old.session.outstanding < turn.outstanding) }
{}

/// Nothing may be sent too early: as long as each message that has arrived is still in the core, waiting or held, no call may send a reply
/// to a message in range, alone or among other lines. The only lines that may be sent then report that a line is no message, or that a
/// message is out of range. So none reports that a message was carried out.
pub fn nothing_is_sent_before_it_is_answered<D: Disk>()
    ensures none { (s : Start) (sent : Option (List ℕ)) (now : CoreView) (bytes : List ℕ)
        → unanswered (core_state_of now) + s.core.next ≡ now.next
        → MaySend D.keeps (Some s) sent now bytes → SendsNoReply bytes }
    ensures done { (s : Start) (sent : Option (List ℕ)) (now : CoreView) → unanswered (core_state_of now) + s.core.next ≡ now.next
        → MaySend D.keeps (Some s) sent now (reply_line Done) → ⊥ }
{}
