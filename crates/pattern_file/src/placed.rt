// Something at an entry of a file: a call, a fault or a refusal.
ghost use Rattle.std.specs.Prelude.{ℕ, Result as Outcome};

/// What was found, with the entry at which it was.
#[derive(Clone, Copy, PartialEq, Eq, Debug)]
pub struct Placed<T> {
    pub entry: usize,
    pub item: T,
}

/// Adds to an error the entry at which it was found.
pub trait AtEntry<T, E>: Sized {
    ghost use Rattle.pattern_file.specs.declared.placed.Placed.{Placed as Found};

    ghost places: { Self → ℕ → Outcome T (Found E) → Type 0 };

    fn at(self, entry: usize) -> Result<T, Placed<E>>
        ensures { places self entry result };
}

impl<T, E> AtEntry<T, E> for Result<T, E> {
    ghost use Rattle.std.specs.Prelude.{◌≡◌};
    ghost use Rattle.pattern_file.specs.Faults.{placed};

    ghost places = { λ found n r. r ≡ placed found n };

    fn at(self, entry: usize) -> Result<T, Placed<E>> {
        self.map_err(|item| Placed { entry, item })
    }
}
