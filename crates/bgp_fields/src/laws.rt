//! Laws of the fields of a message. Each is the contract of a function that does nothing.

ghost use Rattle.std.specs.Prelude.{◌≡◌, ◌≤◌, ◌++◌, ℕ, List, [], Err, Some, length, drop};
ghost use Rattle.bgp_wire.specs.Prelude.{AreOctets};
ghost use Rattle.bgp_frame.specs.Frame as frame;
ghost use Rattle.bgp_frame.specs.Prelude.{IsFrame, head_of};
ghost use Rattle.bgp_frame.specs.declared.fault.HeadFault.{HeadFault};
ghost use Rattle.bgp_frame.specs.declared.notification.Notification.{Notification};
ghost use Rattle.bgp_open.specs.declared.context.Context.{Context};
ghost use Rattle.bgp_paths.specs.declared.families.PathFamilies.{PathFamilies};
ghost use Rattle.bgp_update.specs.declared.note.Note.{Note};
ghost use Rattle.bgp_update.specs.declared.routes.Routes.{Routes};
ghost use Rattle.bgp_update.specs.declared.update.Update.{Update};
ghost use Rattle.bgp_msg.specs.declared.message.Message.{Message};
ghost use Rattle.bgp_msg.specs.declared.outcome.Outcome.TheVariants.{Reset, Took, Withdraw};
ghost use Rattle.bgp_msg.specs.Prelude.{out_of};
ghost use Rattle.bgp_msg.specs.declared.message.Message.TheVariants as message;
ghost use Rattle.bgp_fields.specs.Prelude.{fields_of, AllRead, AreTheOctets, ArePlaced, HasPlace, header_place, path_fields, refresh_fields, refresh_rest, refresh_row, reset_place, ShowsRoutes, ShowsWithdrawal};

/// The fields of a message are its octets, whatever they are: each field begins where the one before it ends and has at least one octet; none is
/// returned twice and none left out.
pub fn the_fields_are_the_message()
    ensures { (ctx : Context) (octets : List ℕ) → AreTheOctets octets (fields_of ctx octets) }
{}

/// So are those of a message whose routes have path identifiers (RFC 7911).
pub fn the_fields_with_path_identifiers_are_the_message()
    ensures { (ctx : Context) (families : PathFamilies) (octets : List ℕ) → AreTheOctets octets (path_fields ctx families octets) }
{}

/// The fields of a ROUTE-REFRESH that is accepted are its octets in the same way.
pub fn the_fields_of_a_refresh_are_its_octets()
    ensures { (ctx : Context) (octets : List ℕ) → AreTheOctets octets (refresh_fields ctx octets) }
{}

/// The fields of a ROUTE-REFRESH that is accepted, which has at least four octets after its header: those of the header, AFI, Message Subtype and SAFI,
/// and one of all octets after these, if there are any.
pub fn the_fields_of_a_refresh()
    ensures { (ctx : Context) (octets : List ℕ) → 23 ≤ length octets → refresh_fields ctx octets ≡ refresh_row ++ refresh_rest (drop 23 octets) }
{}

/// Where a message is accepted without a note, each field of it was read: none is `Unread`. Segments of confederations that AS4_PATH drops, and
/// duplicates of large communities, are fields like others.
pub fn an_accepted_message_is_read()
    ensures { (ctx : Context) (m : frame.Message) (octets : List ℕ) (said : Message)
        → AreOctets octets → IsFrame m octets → out_of ctx m ≡ Took said [] → AllRead (fields_of ctx octets) }
{}

/// The prefix fields of an UPDATE that is accepted are its routes: those of Withdrawn Routes, of MP_UNREACH_NLRI and MP_REACH_NLRI by family, and of
/// NLRI. An attribute that is discarded has none.
pub fn the_prefix_fields_are_the_routes()
    ensures { (ctx : Context) (m : frame.Message) (octets : List ℕ) (u : Update) (notes : List Note)
        → AreOctets octets → IsFrame m octets → out_of ctx m ≡ Took (message.Update u) notes → ShowsRoutes octets (fields_of ctx octets) u }
{}

/// The same for an UPDATE that is treated as a withdrawal: its prefix fields are the routes that are withdrawn.
pub fn the_prefix_fields_are_what_is_withdrawn()
    ensures { (ctx : Context) (m : frame.Message) (octets : List ℕ) (routes : Routes) (notes : List Note)
        → AreOctets octets → IsFrame m octets → out_of ctx m ≡ Withdraw routes notes → ShowsWithdrawal octets (fields_of ctx octets) routes }
{}

/// Each reset has a span: octets of the message, at least one, that cause it.
pub fn each_reset_has_a_place()
    ensures { (ctx : Context) (m : frame.Message) (octets : List ℕ) (n : Notification)
        → AreOctets octets → IsFrame m octets → out_of ctx m ≡ Reset n → HasPlace (length octets) (reset_place ctx m) }
{}

/// Each note on an UPDATE that is accepted has a span: octets of the message, at least one. A note that an attribute is missing has none.
pub fn each_note_has_a_place()
    ensures { (ctx : Context) (m : frame.Message) (octets : List ℕ) (u : Update) (notes : List Note)
        → AreOctets octets → IsFrame m octets → out_of ctx m ≡ Took (message.Update u) notes → ArePlaced (length octets) m.body notes }
{}

/// So has each note on an UPDATE that is treated as a withdrawal.
pub fn each_note_on_a_withdrawal_has_a_place()
    ensures { (ctx : Context) (m : frame.Message) (octets : List ℕ) (routes : Routes) (notes : List Note)
        → AreOctets octets → IsFrame m octets → out_of ctx m ≡ Withdraw routes notes → ArePlaced (length octets) m.body notes }
{}

/// Each fault of a header has a span within its 19 octets.
pub fn each_header_fault_has_a_place()
    ensures { (octets : List ℕ) (f : HeadFault) → 19 ≤ length octets → head_of octets ≡ Err f → HasPlace 19 (Some (header_place octets f)) }
{}
