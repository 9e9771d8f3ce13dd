// How many slots and threads a bench has.
ghost use Rattle.std.specs.Prelude.{◌≡◌, MatchResult};
ghost use Rattle.turns.specs.Shapes.{Few};
ghost use Rattle.turns.specs.declared.refusal.ShapeRefusal.TheVariants.{BadShape};

use super::refusal::ShapeRefusal;

// Slots and threads, each from 1 to 64: no other shape exists, so no later code tests them.
#[derive(Clone, Copy)]
pub struct Shape {
    slots: u8,
    threads: u8,
    ghost few: { Few slots × Few threads },
}

impl Shape {
    // The shape of these numbers; refused exactly when one of them lies outside 1 to 64.
    pub fn new(slots: u8, threads: u8) -> Result<Shape, ShapeRefusal>
        ensures { MatchResult result (λ s. (s.slots ≡ slots) × (s.threads ≡ threads)) (λ e. (e ≡ BadShape) × (Few slots × Few threads → ⊥)) }
    {
        match (slots, threads) {
            (1..=64, 1..=64) => Ok(Shape { slots, threads }),
            _ => Err(ShapeRefusal::BadShape),
        }
    }

    pub fn slots(&self) -> u8
        ensures { result ≡ self.now.slots }
    {
        self.slots
    }

    pub fn threads(&self) -> u8
        ensures { result ≡ self.now.threads }
    {
        self.threads
    }
}
