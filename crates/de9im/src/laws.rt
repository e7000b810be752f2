//! Laws of matrices, and of the texts of patterns.
ghost use Rattle.de9im.specs.Laws.{MatrixIsOne, PatternAsksAsText, WrongPlaceIsOne, PatternIsNotWrong};

/// Two rings have one matrix at most.
pub fn rings_have_one_matrix()
    ensures { MatrixIsOne }
{}

/// A pattern asks what its text asks. A text is wrong at one place at most, and that of a pattern nowhere.
pub fn laws_of_patterns()
    ensures asks { PatternAsksAsText }
    ensures place { WrongPlaceIsOne }
    ensures none { PatternIsNotWrong }
{}
