// A refusal, and the place of the record that it speaks of.
ghost use Rattle.std.specs.Prelude.{◌≡◌};
ghost use Rattle.outcomes.specs.Kinds.{number_of, kind_of, kind_back};
ghost use Rattle.outcomes.specs.Outcome.{Refusal as RefusalOf, refusal};

use crate::Kind;
use std::marker::Model;

// Why a call is refused, and at which record.
#[derive(Clone, Copy)]
pub struct Refusal {
    kind: Kind,
    place: usize,
}

// Clauses see the refusal's number and the place.
impl Model for Refusal {
    ghost Value = { RefusalOf };

    ghost view = { λ r. record { number = number_of r.kind; place = r.place } };

    ghost inverse = { λ v. record { kind = kind_of v.number; place = v.place } };

    ghost inverse_ok = { λ a h. λ i. record { kind = kind_back a.kind i; place = a.place } };
}

impl Refusal {
    // The refusal of the record at a place.
    pub fn at(kind: Kind, place: usize) -> Refusal
        ensures { result ≡ refusal (number_of kind) place }
    {
        Refusal { kind, place }
    }

    pub fn kind(self) -> Kind
        ensures { number_of result ≡ self.number }
    {
        self.kind
    }

    pub fn number(self) -> u8
        ensures { result ≡ self.number }
    {
        Kind::number(self.kind)
    }

    pub fn place(self) -> usize
        ensures { result ≡ self.place }
    {
        self.place
    }
}

// The refusal of a call as a whole, at place 0.
impl From<Kind> for Refusal {
    ghost from_gives = { λ k r. r ≡ refusal (number_of k) 0 };

    fn from(kind: Kind) -> Refusal {
        Refusal { kind, place: 0 }
    }
}
