ghost use Rattle.std.specs.Prelude.{◌<◌};
ghost use Rattle.calculus_table.specs.Rel.{Has, IsWithout};

use calculus_table::Rel;

/// The members of `a` but `r`, which is one.
#[inline(always)]
pub fn without(a: Rel, r: u32) -> Rel
    requires member { Has a r }
    requires below { r < 64 }
    ensures { IsWithout a r result }
{
    Rel::of(a.word() & !(1 << r))
}
