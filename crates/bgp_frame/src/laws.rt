//! Laws of frames, headers and streams. Each is the contract of a function that does nothing.

ghost use Rattle.std.specs.Prelude.{◌≡◌, ◌↔◌, ℕ, Bool, List, ◌++◌, length, Result, Ok};
ghost use Rattle.bgp_wire.specs.Prelude.{AreOctets, IsPrefixFree};
ghost use Rattle.bgp_frame.specs.Head.{Header};
ghost use Rattle.bgp_frame.specs.declared.fault.HeadFault.{HeadFault};
ghost use Rattle.bgp_frame.specs.declared.grammar.WideGrammar.{WideGrammar};
ghost use Rattle.bgp_frame.specs.declared.kind.WideKind.{WideKind};
ghost use Rattle.bgp_frame.specs.Prelude.{head_of, head_of_in, HeaderIn, Message, MessageIn, IsFrame, IsFrameIn, IsWhole, IsWholeIn, Takes, TakesIn, HasOneReading, as_it_is, HasOneReadingIn, wide_types};

/// No message begins another, and the octets of a message have one kind and one body.
pub fn frames_are_prefix_free()
    ensures plain { IsPrefixFree IsFrame }
    ensures wide { (g : WideGrammar) → IsPrefixFree (IsFrameIn (wide_types g)) }
{}

/// 19 octets begin some message exactly where their header has no fault.
pub fn headers_begin_messages()
    ensures plain { (h : List ℕ) → length h ≡ 19 → AreOctets h → ((header : Header) × (head_of h ≡ Ok header)) ↔ ((rest : List ℕ) × IsWhole (h ++ rest)) }
    ensures wide { (g : WideGrammar) (h : List ℕ) → length h ≡ 19 → AreOctets h → ((header : HeaderIn WideKind) × (head_of_in (wide_types g) h ≡ Ok header)) ↔ ((rest : List ℕ) × IsWholeIn (wide_types g) (h ++ rest)) }
{}

/// The number of octets that a framer consumes is unique.
pub fn one_count_is_taken()
    ensures plain { (held piece : List ℕ) (n m : ℕ) → Takes held piece n → Takes held piece m → n ≡ m }
    ensures wide { (g : WideGrammar) (held piece : List ℕ) (n m : ℕ) → TakesIn (wide_types g) held piece n → TakesIn (wide_types g) held piece m → n ≡ m }
{}

/// Each stream of octets has exactly one list of messages and faults and one end, whichever of them end it.
pub fn streams_have_one_reading()
    ensures plain { (resets : Result Message HeadFault → Bool) (stream : List ℕ) → AreOctets stream → HasOneReading (as_it_is resets) stream }
    ensures wide { (g : WideGrammar) (resets : Result (MessageIn WideKind) HeadFault → Bool) (stream : List ℕ) → AreOctets stream → HasOneReadingIn (wide_types g) (as_it_is resets) stream }
{}
