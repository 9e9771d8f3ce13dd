// The record's law: over every run of a newly opened machine, its record is the true history.
// Nothing is computed here: each function's contract is a theorem, and its answer is always 0. With no answer
// there would be no code that a must-fail edit could turn.
#![tactic(auto)]

ghost use Rattle.std.specs.Prelude.{◌≡◌};
ghost use Rattle.law.specs.Bound.{BoundIsExact};
ghost use Rattle.law.specs.Facts.{Facts};
ghost use Rattle.law.specs.Laws.{OpeningLaw};

// Whatever is done with a newly opened machine, the law holds at every moment.
pub fn law_of_opening<T>() -> u8
    ensures value { result ≡ 0 }
    ensures law { OpeningLaw T }
{
    0 // for the law
}

// The four facts beside the law hold of every event in every world.
pub fn facts_beside_the_law<T>() -> u8
    ensures value { result ≡ 0 }
    ensures facts { Facts T }
{
    0 // for the facts
}

// With a cycle of one turn less than twice the threads, the law fails.
pub fn bound_is_exact() -> u8
    ensures value { result ≡ 0 }
    ensures bound { BoundIsExact }
{
    0 // for the bound
}
