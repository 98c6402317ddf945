// The regions of a policy, one by one from its two arrays: check 5. That both arrays are there is for the caller to see.
#![tactic(auto)]

ghost use Rattle.std.specs.Prelude.{◌≡◌, ◌+◌, ◌*◌, ◌≤◌, ◌<◌, length, IfOk};
ghost use Rattle.model.specs.Policy.{most_regions, region_at, region_fits, regions_from};
ghost use Rattle.policy_regions.specs.Regions.{region_read, regions_result, Fitting};

use limits::MOST_REGIONS;
use lists::Few;
use model::{Refusal, Region, Sizes};

// The regions of a policy.
pub type Regions = Few<Region, MOST_REGIONS>;

// What stands in memory where no region is.
const NO_REGION: Region = Region {
    base: 0,
    size: 0,
    rights: 0,
};

// Region j of so many.
#[tactic(auto, unfolding(model::specs::Policy::region_at))]
fn region(bytes: &[u8], count: usize, j: usize) -> Region
    requires { (count ≤ most_regions) × ((j < count) × (12 + 8 * count ≤ length bytes.now)) }
    ensures { result ≡ region_at bytes.now count j }
{
    let base = fields::word(bytes, 12 + 4 * j);
    let extent = fields::word(bytes, 12 + 4 * count + 4 * j);
    Region {
        base,
        size: extent / 4,
        rights: extent % 4,
    }
}

// The region has a right, a length of 1 or more, and lies below M.
#[tactic(auto, unfolding(model::specs::Policy::region_fits))]
fn fits(region: Region, memory: u32) -> bool
    ensures { result ≡ region_fits memory region }
{
    let end = u64::from(region.base) + u64::from(region.size);
    (1 <= region.rights) & (1 <= region.size) & (end <= u64::from(memory))
}

// Region j, if it fits.
fn read_region(bytes: &[u8], sizes: Sizes, j: usize) -> Result<Region, Refusal>
    requires { (sizes.regions ≤ most_regions) × ((j < sizes.regions) × (12 + 8 * sizes.regions ≤ length bytes.now)) }
    ensures { result ≡ region_read bytes.now sizes j }
{
    let next = region(bytes, sizes.regions, j);
    if fits(next, sizes.memory) {
        return Ok(next);
    }
    Err(Refusal::BadRegion(j))
}

// The regions, one by one.
pub fn read_regions(bytes: &[u8], sizes: Sizes) -> Result<Regions, Refusal>
    requires { (sizes.regions ≤ most_regions) × (12 + 8 * sizes.regions ≤ length bytes.now) }
    ensures read { regions_result result ≡ regions_from bytes.now sizes sizes.regions 0 }
    ensures fitting { IfOk result (λ regions. Fitting sizes regions) }
{
    let mut regions = Few::new(NO_REGION);
    for j in 0..sizes.regions {
        regions.push(read_region(bytes, sizes, j)?);
    }
    Ok(regions)
}
