// Worked examples of the machine: tickets and turns, openings, takes at their limits, and three runs call by call.
// Nothing is computed here: the function's contract is a theorem, and its answer is always 0, which a
// must-fail edit turns.
#![tactic(auto)]

ghost use Rattle.std.specs.Prelude.{◌≡◌};
ghost use Rattle.examples.specs.Examples.{Examples};

// Every worked example holds, for every type of elements.
pub fn worked_examples<T>() -> u8
    ensures value { result ≡ 0 }
    ensures examples { Examples T }
{
    0 // for the examples
}
