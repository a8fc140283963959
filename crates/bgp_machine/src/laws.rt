//! Laws of whole lives, and of how octets are cut into pieces. Each is the contract of a function that does nothing.

ghost use Rattle.std.specs.Prelude.{◌≡◌, ◌↔◌, ℕ, List};
ghost use Rattle.std.specs.List.{flat_map};
ghost use Rattle.bgp_wire.specs.Prelude.{AreOctets};
ghost use Rattle.bgp_frame.specs.Prelude.{all_octets, Run, Runs};
ghost use Rattle.bgp_open.specs.Prelude.{Settings};
ghost use Rattle.bgp_machine.specs.declared.action.Action.{Action};
ghost use Rattle.bgp_machine.specs.declared.event.Event.{Event};
ghost use Rattle.bgp_machine.specs.Prelude.{Machine, fresh, after_event, IsAtRest, Piece, joined, Cuts, CanBeFed, by_octets, by_one_step, by_look, by_pull, CanBePulled, Call, Life, born, Lives, BeginsByOpenAndKeepalive};
ghost use Rattle.bgp_machine.specs.declared.state.State.TheVariants as state;

/// Whatever the calls, in whatever order: where a session is Established, the octets that it has read since its
/// connection is up begin with an OPEN that it accepted, from which it has its context, and then a KEEPALIVE.
pub fn established_is_behind_open_and_keepalive()
    ensures { (s : Settings) (calls : List Call) (life : Life) → Lives (born s) calls life
        → life.session.standing.state ≡ state.Established → BeginsByOpenAndKeepalive s life.session.standing.context life.taken }
{}

/// Octets that are fed in pieces, with `step` after each `feed` until it gives nothing, do what they do one by one: the
/// same actions in the same order, and the same session after them, with nothing left to do.
pub fn cuts_do_as_octet_by_octet()
    ensures { (x : Machine) (pieces : List Piece) (actions : List Action) (y : Machine) → IsAtRest x → AreOctets (joined pieces)
        → Cuts pieces x actions y → (by_octets x (joined pieces) ≡ record { actions = actions; session = y }) × IsAtRest y }
{}

/// How octets are cut into pieces changes nothing: where the same octets are fed in two cuttings, with `step` after
/// each `feed` until it gives nothing, the same actions are done in the same order, and the session is the same after
/// them.
pub fn cuts_change_nothing()
    ensures { (x : Machine) (pieces others : List Piece) (actions others_actions : List Action) (y z : Machine) → IsAtRest x → AreOctets (joined pieces)
        → joined pieces ≡ joined others → Cuts pieces x actions y → Cuts others x others_actions z → (actions ≡ others_actions) × (y ≡ z) }
{}

/// Of the steps after a `feed` until one gives nothing, at most the first gives something: one `step` after each `feed`
/// does what they do together.
pub fn one_step_behind_a_feed_is_enough()
    ensures { (x : Machine) (pieces : List Piece) (actions : List Action) (y : Machine) → Cuts pieces x actions y ↔ Runs by_one_step pieces x actions y }
{}

/// A new session has nothing left to do, and an event leaves a session so.
pub fn events_leave_nothing_to_do()
    ensures fresh { (s : Settings) → IsAtRest (fresh s) }
    ensures event { (x : Machine) (event : Event) → IsAtRest x → IsAtRest (after_event x event) }
{}

/// Octets can be fed in whatever pieces they arrive: each `feed` consumes some of them, and then some number of steps
/// give something.
pub fn any_pieces_can_be_fed()
    ensures { (x : Machine) (pieces : List (List ℕ)) → IsAtRest x → AreOctets (flat_map (λ piece. piece) pieces) → CanBeFed x pieces }
{}

/// Octets that are pulled in pieces, call after call until one consumes nothing and finds nothing, do what they do one
/// by one; and so they do where `look` is called on each piece, and the session continues as each look says, or is fed
/// where it finds nothing.
pub fn pulls_do_as_octet_by_octet()
    ensures pull { (x : Machine) (runs : List Run) (actions : List Action) (y : Machine) → IsAtRest x → AreOctets (all_octets runs)
        → Runs by_pull runs x actions y → (by_octets x (all_octets runs) ≡ record { actions = actions; session = y }) × IsAtRest y }
    ensures look { (x : Machine) (runs : List Run) (actions : List Action) (y : Machine) → IsAtRest x → AreOctets (all_octets runs)
        → Runs by_look runs x actions y → (by_octets x (all_octets runs) ≡ record { actions = actions; session = y }) × IsAtRest y }
{}

/// Any pieces, pulled until nothing more is consumed, do what `feed` and `step` do with the same octets in any pieces:
/// the same actions in the same order, and the same session after them. So do looks.
pub fn pulls_do_as_feeds()
    ensures pull { (x : Machine) (runs : List Run) (pieces : List Piece) (actions others : List Action) (y z : Machine) → IsAtRest x → AreOctets (all_octets runs)
        → all_octets runs ≡ joined pieces → Runs by_pull runs x actions y → Cuts pieces x others z → (actions ≡ others) × (y ≡ z) }
    ensures look { (x : Machine) (runs : List Run) (pieces : List Piece) (actions others : List Action) (y z : Machine) → IsAtRest x → AreOctets (all_octets runs)
        → all_octets runs ≡ joined pieces → Runs by_look runs x actions y → Cuts pieces x others z → (actions ≡ others) × (y ≡ z) }
{}

/// Octets can be pulled in whatever pieces they arrive: some number of pulls of each consume all of it that is
/// consumed.
pub fn any_pieces_can_be_pulled()
    ensures { (x : Machine) (pieces : List (List ℕ)) → IsAtRest x → AreOctets (flat_map (λ piece. piece) pieces) → CanBePulled x pieces }
{}
