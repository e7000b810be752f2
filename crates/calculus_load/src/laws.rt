//! Laws of table files.
ghost use Rattle.calculus_load.specs.Laws.{PrintedIsRead, CalculusHasNoFault};
ghost use Rattle.calculus_load.specs.Laws.{LoadIsOne, LoadedHasNoFault, LoadHasAnswer};

/// The canonical table file of a calculus whose names may stand in a file is read as that calculus, which has no fault
/// but out of memory.
pub fn printed_table_is_read()
    ensures same { PrintedIsRead }
    ensures no_fault { CalculusHasNoFault }
{}

/// A table file has one answer at most, out of memory aside: one calculus, or one fault.
pub fn load_is_one()
    ensures fault { LoadIsOne }
    ensures none { LoadedHasNoFault }
{}

/// A table file has one answer at least: each text is that of a calculus, or has a fault that isn't out of memory.
pub fn load_has_answer()
    ensures { LoadHasAnswer }
{}
