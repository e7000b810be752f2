//! Laws of the relations of drawn polygons.
ghost use Rattle.geo_sound.specs.Laws.{TableIsOfRules, RingsCompose, DemoRingsAreSimple, DemoCanHold};
ghost use Rattle.geo_sound.specs.Laws.{FactsCanHold, SceneIsOne, SceneIsThere, ClosedIsClosure};

/// The table of RCC-8 is that of six rules of parts and of areas apart, and the relations of three rings
/// compose by it. The rectangles of a demonstration are rings, and so its network can hold; and so can the
/// facts of polygons alone.
pub fn laws_of_drawings()
    ensures rules { TableIsOfRules }
    ensures rings { RingsCompose }
    ensures rectangles { DemoRingsAreSimple }
    ensures demo { DemoCanHold }
    ensures facts { FactsCanHold }
{}

/// Polygons draw one network at most, and one at least where they are regions; and it is its own closure.
pub fn laws_of_scenes()
    ensures one { SceneIsOne }
    ensures there { SceneIsThere }
    ensures closure { ClosedIsClosure }
{}
