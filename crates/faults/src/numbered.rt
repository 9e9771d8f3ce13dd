// What every kind of refusal has.
ghost use Rattle.std.specs.Prelude.{◌≡◌, ℕ};

use super::fault::Fault;

pub trait Numbered: Copy {
    // The number that users are told. Each impl casts its own enum, since a cast needs the concrete type.
    ghost told: { Self → ℕ };

    fn number(self) -> u8
        ensures { result ≡ told self };

    // The refusal with its place.
    final fn at(self, place: usize) -> Fault<Self>
        ensures { result ≡ record { refusal = self; place = place } }
    {
        Fault {
            refusal: self,
            place,
        }
    }
}
