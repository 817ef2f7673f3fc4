//! Two kinds of entry that are not `Copy`: one goes by priority and mark, the other by receipt.
ghost use Rattle.std.specs.Prelude.{◌&&◌, ◌||◌, [], ◌∷◌, ◌==◌, nat_lt};
ghost use Rattle.std.proofs.Common.{rules};

use ordered::Ranked;

#[derive(PartialEq, Eq, PartialOrd, Ord, Drop)]
pub struct Waiting {
    pub priority: u8,
    pub mark: u8,
}

impl Ranked for Waiting {
    ghost key = { λ w. w.priority ∷ w.mark ∷ [] };

    ghost precedes = { λ x y. nat_lt x.priority y.priority || (x.priority == y.priority && nat_lt x.mark y.mark) };

    ghost none_precedes_itself = { Prim.search rules };

    ghost just_one_precedes = { Prim.search rules };

    ghost precedence_carries = { Prim.search rules };

    fn before(&self, other: &Waiting) -> bool {
        self < other
    }
}

#[derive(PartialEq, Eq, PartialOrd, Ord, Drop)]
pub struct Held {
    pub receipt: u8,
}

impl Ranked for Held {
    ghost key = { λ h. h.receipt ∷ [] };

    ghost precedes = { λ x y. nat_lt x.receipt y.receipt };

    ghost none_precedes_itself = { Prim.search rules };

    ghost just_one_precedes = { Prim.search rules };

    ghost precedence_carries = { Prim.search rules };

    fn before(&self, other: &Held) -> bool {
        self < other
    }
}

/// Whether the receipts of a row are these, in their order.
pub fn has(row: &[Held], receipts: &[u8]) -> bool {
    row.iter()
        .map(|held| held.receipt)
        .eq(receipts.iter().copied())
}
