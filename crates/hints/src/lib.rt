// The masks that a hint call hands out: the legal moves, or, where pruning is asked, those that are worth trying.
#![tactic(auto)]

ghost use Rattle.std.specs.Prelude.{◌≡◌};
ghost use Rattle.rules.specs.Answers.{masks_for};

use rules::{Judged, Masks};

#[tactic(auto, unfolding(rules::specs::Answers::masks_for))]
pub fn masks_for(p: Judged, pruned: bool) -> Masks
    ensures { result ≡ masks_for pruned p.position }
{
    if pruned {
        prune::pruned(p)
    } else {
        legal::masks(p)
    }
}
