//! Laws of the guard. Each is the contract of a function that does nothing.

ghost use Rattle.std.specs.Prelude.{List};
ghost use Rattle.std.specs.List.{AllByRecursion};
ghost use Rattle.bgp_guard.specs.declared.rules.Rules.{Rules};
ghost use Rattle.bgp_guard.specs.declared.side.Side.{Side};
ghost use Rattle.bgp_guard.specs.Prelude.{Event, life, HandsOn, IsOctetIn, RunsOrHasReason};

/// Whatever happens, in whatever order, what a side was given is a prefix of the cleaned form of what the other sent:
/// whole messages, in order, interleaved with KEEPALIVEs of the guard's own, and then nothing or one NOTIFICATION of
/// its own, which never follows one of the other side. While the guard runs it is all of that but for what is queued.
pub fn a_guard_hands_on_what_is_clean()
    ensures { (rules : Rules) (events : List Event) (side : Side) → AllByRecursion IsOctetIn events → HandsOn (life rules events) side }
{}

/// It runs until a side errs, sends a NOTIFICATION, closes or can't be reached, or an OPEN is missing for too long: so
/// what a side was given, where none of that has happened, is all of what the other sent but for what is queued.
pub fn a_guard_ends_for_a_reason()
    ensures { (rules : Rules) (events : List Event) → RunsOrHasReason (life rules events).guard.stage rules events }
{}
