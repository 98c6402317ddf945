// What stays fixed while a routine is judged: a policy with its bytes, a package, and where its annotations stand.
#![tactic(auto)]

ghost use Rattle.std.specs.Prelude.{◌≡◌};
ghost use Rattle.policy.specs.Policy.{listed};
ghost use Rattle.claims.specs.Regions.{RegionList};
ghost use Rattle.targets.specs.Targets.{AllAhead};
ghost use Rattle.setting.specs.Fixed.{PolicyFits, AnnotationsFit};

use annotations::reading::Annotated;
use derivation::Grounds;
use header::package::Package;
use model::Region;
use policy::Policy;

// What arrivals go by: the package, which has passed check 12, where its annotations stand, which have passed checks 10 and 11, and the policy's
// regions.
#[derive(Clone, Copy)]
pub struct Tables<'a> {
    pub routine: Package<'a>,
    pub annotations: &'a [Annotated],
    pub regions: &'a [Region],
    pub ghost annotations_fit: { AnnotationsFit routine.bytes.now routine.header annotations.now },
    pub ghost regions_fit: { RegionList regions.now },
    pub ghost targets_ahead: { AllAhead routine.bytes.now routine.header annotations.now },
}

impl<'a> Tables<'a> {
    // What goals are derived by.
    pub fn grounds(&self) -> Grounds<'a>
        ensures { (result.bytes.now ≡ self.now.routine.bytes.now) × (result.regions.now ≡ self.now.regions.now) }
    {
        Grounds {
            bytes: self.routine.bytes,
            regions: self.regions,
        }
    }
}

// The policy, which has passed checks 3 to 6, and the tables, which have its regions.
#[derive(Clone, Copy)]
pub struct Setting<'a> {
    pub conditions: &'a [u8],
    pub policy: Policy,
    pub tables: Tables<'a>,
    pub ghost policy_fits: { PolicyFits conditions.now policy },
    pub ghost same_regions: { tables.regions.now ≡ listed policy.regions },
}
