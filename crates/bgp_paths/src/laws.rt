//! Laws of path identifiers. Each is the contract of a function that does nothing.

ghost use Rattle.std.specs.Prelude.{◌≡◌, ◌↔◌, ◌<◌, ◌≤◌, ◌^◌, [], List, ℕ, Some, length, map};
ghost use Rattle.std.specs.List.{AllByRecursion};
ghost use Rattle.bgp_wire.specs.Prelude.{AreOctets};
ghost use Rattle.bgp_prefix.specs.Prelude.{PrefixValue, run_of};
ghost use Rattle.bgp_attr.specs.Prelude.{tlvs_of};
ghost use Rattle.bgp_update.specs.Prelude.{Parts, parts_of};
ghost use Rattle.bgp_paths.specs.declared.families.PathFamilies.{PathFamilies};
ghost use Rattle.bgp_paths.specs.declared.families.Width.{Width};
ghost use Rattle.bgp_paths.specs.Prelude.{FieldNumbers, body_with, field_with, numbers_of, paired, parts_with, path_run_of, plain_attribute, plain_body, plain_field, plain_parts, plain_routes, routes_with, tlv_with, width_of};

/// A run without its path identifiers has the same prefixes, in their order, one for each path identifier; and it is prefixes alone exactly where the run
/// is routes with path identifiers alone (RFC 7911, section 3).
pub fn runs_lose_their_identifiers_alone()
    ensures prefixes { (width : Width) (b : List ℕ) → AreOctets b
        → (run_of (width_of width) (plain_routes (width_of width) b)).0 ≡ map (λ r. r.prefix) (path_run_of (width_of width) b).0 }
    ensures whole { (width : Width) (b : List ℕ) → AreOctets b
        → ((run_of (width_of width) (plain_routes (width_of width) b)).1 ≡ []) ↔ ((path_run_of (width_of width) b).1 ≡ []) }
{}

/// The attributes of a field without path identifiers are those of the field, in their order, each without its own; what follows the last whole one is
/// the same.
pub fn attributes_stay_in_their_order()
    ensures { (f : PathFamilies) (field : List ℕ) → length field < 2 ^ 16
        → tlvs_of (plain_field f field) ≡ (map (plain_attribute f) (tlvs_of field).0, (tlvs_of field).1) }
{}

/// The parts of a body without path identifiers are those of the body, each without its own.
pub fn bodies_keep_their_parts()
    ensures { (f : PathFamilies) (body : List ℕ) (p : Parts) → AreOctets body → parts_of body ≡ Some p
        → parts_of (plain_body f body) ≡ Some (plain_parts f p) }
{}

/// A body without path identifiers is no longer than the body.
pub fn bodies_grow_no_longer()
    ensures { (f : PathFamilies) (body : List ℕ) → AreOctets body → length (plain_body f body) ≤ length body }
{}

/// Prefixes that are written with path identifiers are read back, in their order, each with its own (RFC 7911, section 3).
pub fn written_routes_are_read_back()
    ensures back { (width : Width) (ns : List ℕ) (b : List ℕ) → AllByRecursion (λ n. n < 2 ^ 32) ns → AreOctets b → (run_of (width_of width) b).1 ≡ []
        → path_run_of (width_of width) (routes_with (width_of width) ns b) ≡ (paired ns (run_of (width_of width) b).0, []) }
    ensures prefixes { (ns : List ℕ) (ps : List PrefixValue) → map (λ r. r.prefix) (paired ns ps) ≡ ps }
    ensures numbers { (ns : List ℕ) (ps : List PrefixValue) → length ns ≡ length ps → numbers_of (paired ns ps) ≡ ns }
{}

/// The attributes of a field that is written with path identifiers are those of the field, in their order, each with its own; what follows the last whole one
/// is the same.
pub fn written_attributes_stay_in_their_order()
    ensures { (f : PathFamilies) (ns : FieldNumbers) (field : List ℕ) → length (field_with f ns field) < 2 ^ 16
        → tlvs_of (field_with f ns field) ≡ (map (tlv_with f ns) (tlvs_of field).0, (tlvs_of field).1) }
{}

/// The parts of a body that is written with path identifiers are those of the body, each with its own.
pub fn written_bodies_keep_their_parts()
    ensures { (f : PathFamilies) (ns : FieldNumbers) (body : List ℕ) (p : Parts) → parts_of body ≡ Some p → length (body_with f ns body) < 2 ^ 16
        → parts_of (body_with f ns body) ≡ Some (parts_with f ns p) }
{}
