// What a load or a store does to a path of a block: the address is a term above the path's top, forgotten once its goal is derived.
#![tactic(auto)]

ghost use Rattle.std.specs.Prelude.{◌≡◌, [], ◌∷◌, ◌<◌};
ghost use Rattle.model.specs.Goals.{address_term, goal_of, readable, writable, goes, onward, loading};
ghost use Rattle.model.specs.Expression.{register_count};
ghost use Rattle.goals.specs.Judging.{Reached};
ghost use Rattle.paths.specs.Walking.{path_of};
ghost use Rattle.moves.specs.Moves.{RoomFor};
ghost use Rattle.accesses.specs.Accesses.{access_claim_at, access_claim, AddressJudged, Accesses, Loads};

use claims::Claim;
use derivation::Grounds;
use goals;
use goals::Progress;
use model::Right;
use moves::{Moved, assignments};
use nodes::Operation;
use paths::Path;
use refusals::Refused;

// What an access by a right claims of the node of its address.
fn access_claim(right: Right, address: usize) -> Claim
    ensures { result ≡ access_claim_at right address }
{
    match right {
        Right::Read => Claim::Readable(address),
        Right::Write => Claim::Writable(address),
    }
}

// Derives the goal that a right allows the access at a + i.
fn address_goal(
    grounds: &Grounds,
    ws: &mut [u32],
    path: Path,
    right: Right,
    a: u8,
    i: u32,
    progress: Progress,
) -> Result<Progress, Refused>
    requires register { a < register_count }
    requires room_for { RoomFor ws.old path 1 }
    requires reached { Reached grounds.now.bytes.now progress }
    ensures { AddressJudged ws.old ws.new grounds.now.bytes.now grounds.now.regions.now path (access_claim right (address_term (path_of ws.old path) a i)) progress result }
{
    let top = path.top;
    assignments::put_with(ws, path, Operation::Sum, a, i);
    let claim = access_claim(right, top + 1);
    goals::goal(grounds, ws, path.raised(top + 2), claim, progress)
}

// The path whose register d is the next variable.
fn loaded(ws: &mut [u32], path: Path, d: u8) -> Path
    requires register { d < register_count }
    requires room_for { RoomFor ws.old path 1 }
    ensures { Loads ws.old ws.new path d result }
{
    let top = path.top;
    terms::put_variable(ws, top, path.variables as u32);
    let raised = path.raised(top + 1);
    let written = raised.with_variable().written(d, top);
    written.stepped(path.counter + 1)
}

// d := Mem[a + i]
pub fn load(
    grounds: &Grounds,
    ws: &mut [u32],
    path: Path,
    d: u8,
    a: u8,
    i: u32,
    progress: Progress,
) -> Result<Moved, Refused>
    requires registers { (d < register_count) × (a < register_count) }
    requires room_for { RoomFor ws.old path 1 }
    requires reached { Reached grounds.now.bytes.now progress }
    ensures { Accesses ws.old ws.new grounds.now.bytes.now grounds.now.regions.now (goes (goal_of (path_of ws.old path) (readable (address_term (path_of ws.old path) a i)) ∷ []) (onward (loading (path_of ws.old path) d) ∷ [])) path progress result }
{
    let right = Right::Read;
    let after = address_goal(grounds, ws, path, right, a, i, progress)?;
    Ok(Moved::On(loaded(ws, path, d), after))
}

// Mem[a + i] := d
pub fn store(
    grounds: &Grounds,
    ws: &mut [u32],
    path: Path,
    a: u8,
    i: u32,
    progress: Progress,
) -> Result<Moved, Refused>
    requires register { a < register_count }
    requires room_for { RoomFor ws.old path 1 }
    requires reached { Reached grounds.now.bytes.now progress }
    ensures { Accesses ws.old ws.new grounds.now.bytes.now grounds.now.regions.now (goes (goal_of (path_of ws.old path) (writable (address_term (path_of ws.old path) a i)) ∷ []) (onward (path_of ws.old path) ∷ [])) path progress result }
{
    let right = Right::Write;
    let after = address_goal(grounds, ws, path, right, a, i, progress)?;
    Ok(Moved::On(path.stepped(path.counter + 1), after))
}
