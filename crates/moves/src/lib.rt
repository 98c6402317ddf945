// What comes of one instruction on a path of a block, as a type; and the instructions that assign.
#![tactic(auto)]

pub mod assignments;

use goals::Progress;
use paths::Path;

// What comes of an instruction: the path goes on, or has ended.
#[derive(Clone, Copy)]
pub enum Moved {
    On(Path, Progress),
    Ended(Progress),
}
