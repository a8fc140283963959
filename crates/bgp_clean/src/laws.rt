//! Laws of cleaning. Each is the contract of a function that does nothing.

ghost use Rattle.std.specs.Prelude.{◌≡◌, ◌≤◌, ℕ, Bool, false, List, length, Ok};
ghost use Rattle.bgp_wire.specs.Prelude.{AreOctets, Row};
ghost use Rattle.bgp_frame.specs.Frame as frame;
ghost use Rattle.bgp_frame.specs.Prelude.{IsFrame};
ghost use Rattle.bgp_open.specs.declared.context.Context.{Context};
ghost use Rattle.bgp_terms.specs.declared.refreshes.Refreshes.{Refreshes};
ghost use Rattle.bgp_update.specs.declared.update.Update.{Update};
ghost use Rattle.bgp_update.specs.Prelude.{written_body};
ghost use Rattle.bgp_msg.specs.declared.message.Message.{Message};
ghost use Rattle.bgp_clean.specs.Prelude.{cleaned_with, no_limits, refuses_in, IsCleanStream, IsCleanWith};

/// What is passed on of a message is one or more messages that are accepted without a note in the same context, and
/// unchanged where they are cleaned again; none is longer than the message; and a receiver learns from them what RFC
/// 7606 has the receiver of the message learn: whichever announcements are refused, and whatever ROUTE-REFRESH an OPEN may
/// offer.
pub fn what_is_handed_on_is_clean()
    ensures { (offers : Refreshes) (ctx : Context) (drops : ℕ → Bool) (refuses : Update → Bool) (first : Bool) (m : frame.Message) (octets : List ℕ) (ns : List Message)
        → AreOctets octets → IsFrame m octets → cleaned_with offers ctx drops refuses first m ≡ Ok ns → IsCleanWith offers ctx drops refuses first m ns }
{}

/// Where no limit is set, no announcement is refused that can be written.
pub fn nothing_is_refused_without_limits()
    ensures { (ctx : Context) (u : Update) → length (written_body ctx u) ≤ 4077 → refuses_in ctx no_limits u ≡ false }
{}

/// So it is with the messages of a stream: its cleaned stream is a sequence of whole messages that are accepted without
/// a note.
pub fn a_cleaned_stream_is_clean()
    ensures { (ctx : Context) (drops : ℕ → Bool) (refuses : Update → Bool) (ms : List frame.Message) (octets : List ℕ)
        → AreOctets octets → Row IsFrame ms octets → IsCleanStream ctx drops refuses ms }
{}
