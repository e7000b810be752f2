//! Laws of classes.
ghost use Rattle.tract_classes.specs.BuiltIn.{HaveSizes, HaveBases, SinglesHaveBases};
ghost use Rattle.tract_classes.specs.Parts.{PartsExist, PartsAreOne, PartsArePartition, MemberIsItsPart};
ghost use Rattle.tract_classes.specs.Laws.{ClassFaultIsOne, ClosedClassHasNoFault, ClassFileHasAnswer};

/// The classes of RCC-8 have 148, 158 and 160 members, and in each built-in class each base relation is a member by
/// itself.
pub fn laws_of_built_in_classes()
    ensures sizes { HaveSizes }
    ensures bases { HaveBases }
    ensures singles { SinglesHaveBases }
{}

/// A set has parts, in one way, and they are a partition of it into members; a member has itself as its one part.
pub fn laws_of_parts()
    ensures parts_exist { PartsExist }
    ensures parts_are_one { PartsAreOne }
    ensures parts_are_partition { PartsArePartition }
    ensures member_is_its_part { MemberIsItsPart }
{}

/// A class file has one answer, out of memory aside: it is that of one closed class, or it has one fault.
pub fn class_file_has_one_answer()
    ensures one { ClassFaultIsOne }
    ensures none { ClosedClassHasNoFault }
    ensures answer { ClassFileHasAnswer }
{}
