// A refusal, and the list that it speaks of.
ghost use Rattle.std.specs.Prelude.{◌≡◌};
ghost use Rattle.outcomes.specs.Kinds.{number_of};
ghost use Rattle.outcomes.specs.Outcome.{refusal};
ghost use Rattle.joined.specs.Refusals.{ListRefusal as ListRefusalOf, of_list};

use outcomes::{Kind, Refusal};
use std::marker::Model;

// A refusal, and the index of the list that it speaks of.
#[derive(Clone, Copy)]
pub struct ListRefusal {
    refusal: Refusal,
    index: u64,
}

// Clauses see the refusal's number, its place and the index.
impl Model for ListRefusal {
    ghost Value = { ListRefusalOf };

    ghost view = { λ r. of_list r.index r.refusal };

    ghost inverse = { λ v. record { refusal = record { number = v.number; place = v.place }; index = v.index } };
}

impl ListRefusal {
    // A refusal of the list with this index.
    pub fn of(index: u64, refusal: Refusal) -> ListRefusal
        ensures { result ≡ of_list index refusal }
    {
        ListRefusal { refusal, index }
    }

    pub fn number(self) -> u8
        ensures { result ≡ self.number }
    {
        self.refusal.number()
    }

    pub fn place(self) -> usize
        ensures { result ≡ self.place }
    {
        self.refusal.place()
    }

    pub fn index(self) -> u64
        ensures { result ≡ self.index }
    {
        self.index
    }
}

// The refusal of a call as a whole, which speaks of no list.
impl From<Kind> for ListRefusal {
    ghost from_gives = { λ k r. r ≡ of_list 0 (refusal (number_of k) 0) };

    fn from(kind: Kind) -> ListRefusal {
        ListRefusal::of(0, Refusal::from(kind))
    }
}
