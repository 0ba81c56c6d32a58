ghost use Rattle.std.specs.Prelude.{◌≡◌, Some, None, replicate, slice_set};
ghost use Rattle.mpl_value.specs.declared.known.Known.{Known};
ghost use Rattle.mdf_match.specs.Ports.{missing_in, ticket_of};

/// Two ports of which the second is filled first.
pub fn two_ports()
    ensures first { (a : Known) → ticket_of (slice_set (replicate 2 None) 1 (Some a)) 4 ≡ None }
    ensures left { (a : Known) → missing_in (slice_set (replicate 2 None) 1 (Some a)) ≡ 1 }
    ensures last { (a b : Known) → ticket_of (slice_set (slice_set (replicate 2 None) 1 (Some a)) 0 (Some b)) 4 ≡ Some (record { actor = 4 }) }
{}
