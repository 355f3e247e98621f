// How many items a row counts: 4,096 at most.

ghost use Rattle.std.specs.Prelude.{◌≡◌, ◌≤◌};
ghost use Rattle.triplets.specs.Judged.{summed};

use fdoca::Reason;
use sdas::MOST;
use std::marker::Model;

#[derive(Clone, Copy)]
pub(crate) struct Count {
    items: usize,
}

impl Model for Count {
    ghost use Rattle.std.specs.Prelude.{ℕ, ◌≤◌};

    ghost Value = { ℕ };

    ghost view = { λ c. c.items };

    ghost invariant = { λ c. c.items ≤ 4096 };

    ghost inverse = { λ n. record { items = n } };
}

impl Count {
    pub(crate) fn of(items: usize) -> Count
        requires { items ≤ 4096 }
        ensures { result ≡ items }
    {
        Count { items }
    }

    pub(crate) fn items(self) -> usize
        ensures { (result ≡ self) × (result ≤ 4096) }
    {
        self.items
    }

    // The count with n more items.
    pub(crate) fn plus(self, n: usize) -> Result<Count, Reason>
        ensures { result ≡ summed self n }
    {
        if MOST - self.items < n {
            return Err(Reason::TooManyItems);
        }
        Ok(Count {
            items: self.items + n,
        })
    }
}
