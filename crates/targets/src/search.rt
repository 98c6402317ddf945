// The search for the annotation at an index.
ghost use Rattle.std.specs.Prelude.{◌≡◌, ◌==◌};
ghost use Rattle.std.specs.List.{position_from};

use annotations::reading::Annotated;

// The first place in the list of an annotation of the instruction at `index`.
pub fn position(annotations: &[Annotated], index: usize) -> Option<usize>
    ensures { result ≡ position_from (λ a. a.index == index) 0 annotations.now }
{
    let mut at = 0;
    loop {
        if annotations.len() <= at {
            break None;
        }
        if annotations[at].index == index {
            break Some(at);
        }
        at += 1;
    }
}
