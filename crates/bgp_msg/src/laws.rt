//! Laws of messages and streams. Each is the contract of a function that does nothing.

ghost use Rattle.std.specs.Prelude.{◌≡◌, ◌≤◌, List, ℕ, length, None};
ghost use Rattle.bgp_wire.specs.Prelude.{AreOctets};
ghost use Rattle.bgp_frame.specs.Frame as frame;
ghost use Rattle.bgp_frame.specs.Prelude.{IsFrame, HasOneReading};
ghost use Rattle.bgp_open.specs.declared.context.Context.{Context};
ghost use Rattle.bgp_update.specs.declared.note.Note.{Note};
ghost use Rattle.bgp_msg.specs.declared.message.Message.{Message};
ghost use Rattle.bgp_msg.specs.declared.outcome.Outcome.TheVariants.{Took};
ghost use Rattle.bgp_msg.specs.Prelude.{out_of, stream_rules, canonical, invalid_of, CanBeWritten, HasMessageRanges, IsTakenAsItself};

/// Each stream of octets has exactly one list of outcomes and one end, in each context.
pub fn streams_have_one_reading()
    ensures { (ctx : Context) (stream : List ℕ) → AreOctets stream → HasOneReading (stream_rules ctx) stream }
{}

/// A message that is accepted can be written where it was read, and is no longer than it was.
pub fn a_taken_message_can_be_written()
    ensures { (ctx : Context) (m : frame.Message) (octets : List ℕ) (said : Message) (notes : List Note)
        → AreOctets octets → IsFrame m octets → out_of ctx m ≡ Took said notes → CanBeWritten ctx said octets }
{}

/// A valid message that is written, no longer than a message can be, is accepted as itself.
pub fn a_valid_message_is_taken_as_itself()
    ensures { (ctx : Context) (m : Message)
        → HasMessageRanges m → invalid_of ctx m ≡ None → length (canonical ctx m) ≤ 4096 → IsTakenAsItself ctx m }
{}
