//! What the documents give to a search: a calculus with a class that guides it, and polygons.
ghost use Rattle.std.specs.Prelude.{IfOk};
ghost use Rattle.qsr_words.specs.Asked.{solve};
ghost use Rattle.qsr_words.specs.Requests.{solve_of, IsSearch};
ghost use Rattle.qsr_inputs.specs.Inputs.{CanGuide, IsOnRcc8};
ghost use Rattle.qsr_inputs.specs.Given.{DocumentsGive};
ghost use Rattle.qsr_inputs.specs.Told.{documents_of};
ghost use Rattle.qsr_inputs.specs.Readings.{Fetches};

use crate::classes::{GuidedCalculus, calculus_and_class};
use crate::polygons::{Polygons, polygons_asked};
use crate::stops::Stop;
use qsr_outside::Shelf;
use qsr_words::Solve;
use std::alloc::Global;
use std::marker::Model;

/// What the documents give to a search: a calculus with a class that guides, and polygons.
#[derive(Drop)]
pub struct Searched {
    pub guided: GuidedCalculus,
    pub polygons: Polygons,
}

impl Model for Searched {
    ghost use Rattle.qsr_inputs.specs.Inputs.{Searched};

    ghost Value = { Searched };

    ghost view = { λ s. record { guided = s.guided; polygons = s.polygons } };
}

/// The calculus, the class and the polygons that the words name.
pub fn read_searched<F: Shelf>(
    alloc: Global,
    shelf: &mut F,
    request: &Solve,
) -> Result<Searched, Stop>
    requires { IsSearch (solve_of request.now) }
    ensures given { Fetches F.documents F.faults F.given F.absent_openings
        (documents_of (solve (solve_of request.now))) (DocumentsGive (solve (solve_of request.now)))
        shelf.old shelf.new result }
    ensures guides { IfOk result (λ searched. CanGuide searched.guided) }
    ensures rcc8 { IfOk result (λ searched.
        IsOnRcc8 searched.guided.calculus searched.polygons) }
{
    let guided = calculus_and_class(
        alloc,
        shelf,
        request.calculus.as_str(),
        request.class.as_str(),
    )?;
    let polygons = polygons_asked(alloc, shelf, &request.polygons)?;
    Ok(Searched { guided, polygons })
}
