ghost use Rattle.qsr_top.specs.Laws.{OutputIsOne, OutputIsThere, WordsFit, SceneIsAnswered, PolygonsAgree};

/// For what words ask for, documents and the bytes of a source one text and one status are permitted: one at most,
/// and one at least where the documents that the words name are there, the class and the polygons fit the calculus,
/// as words make them, and no polygons are asked for. Where polygons are drawn it can't be that nothing is permitted.
pub fn output_is_one()
    ensures one { OutputIsOne }
    ensures there { OutputIsThere }
    ensures words { WordsFit }
    ensures scene { SceneIsAnswered }
{}

/// Facts of polygons alone never conflict: over RCC-8, where the network of the source states nothing, `solve` never
/// answers no, whatever polygons are asked for.
pub fn polygons_agree()
    ensures { PolygonsAgree }
{}
