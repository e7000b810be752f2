ghost use Rattle.poly_exact.specs.Laws.{InsideIsOpen, OutsideIsOpen, BoundaryHasBothSides, RingHasInside};

/// The laws of the points round a ring.
pub fn laws_of_rings()
    ensures inside_is_open { InsideIsOpen }
    ensures outside_is_open { OutsideIsOpen }
    ensures boundary_has_both_sides { BoundaryHasBothSides }
    ensures ring_has_inside { RingHasInside }
{}
