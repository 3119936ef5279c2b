// What calls of a reader or a writer handed over. It stands in proofs alone.

ghost use Rattle.std.specs.Prelude.{◌≡◌, ℕ, List, [], ◌∷◌, ◌++◌};
ghost use Rattle.std.specs.Borrow.{ftrue};
ghost use Rattle.std.specs.Coded.{coded_ℕ, coded_list};

use std::marker::Model;

/// One piece for each call, in their order. It takes no memory, and its functions do nothing when the program runs.
#[derive(Drop)]
pub struct History {
    pub ghost pieces: { List (List ℕ) } by { coded_list (coded_list coded_ℕ) },
}

impl Model for History {
    ghost also_owns = { λ _. ftrue };
}

impl History {
    /// Of no call.
    pub fn new() -> History
        ensures { result.pieces ≡ [] }
    {
        History {}
    }

    /// A call more, which handed over this piece.
    pub fn note(&mut self, _piece: &[u8])
        ensures { self.new.pieces ≡ self.old.pieces ++ _piece.now ∷ [] }
    {}
}
