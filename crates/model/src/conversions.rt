// A comparison from its tag in files, and its tag.
ghost use Rattle.std.specs.Prelude.{◌≡◌};
ghost use Rattle.std.proofs.Math.ListN.{get_elem?};
ghost use Rattle.model.specs.Result.{found, misfit};
ghost use Rattle.model.specs.Expression.{comparisons};
ghost use Rattle.model.specs.Atom.{tag_of};

use crate::{Comparison, Misfit};

// A tag above 3 has no comparison.
impl TryFrom<u8> for Comparison {
    type Error = Misfit;

    ghost try_from_gives = { λ tag r. r ≡ found (get_elem? comparisons tag) misfit };

    #[tactic(auto, unfolding(crate::specs::Result::found))]
    fn try_from(tag: u8) -> Result<Self, Misfit> {
        match tag {
            0 => Ok(Comparison::Equal),
            1 => Ok(Comparison::Unequal),
            2 => Ok(Comparison::Less),
            3 => Ok(Comparison::AtMost),
            _ => Err(Misfit),
        }
    }
}

impl From<Comparison> for u32 {
    ghost from_gives = { λ kind tag. tag ≡ tag_of kind };

    #[tactic(auto, unfolding(crate::specs::Atom::tag_of))]
    fn from(kind: Comparison) -> u32 {
        match kind {
            Comparison::Equal => 0,
            Comparison::Unequal => 1,
            Comparison::Less => 2,
            Comparison::AtMost => 3,
        }
    }
}
