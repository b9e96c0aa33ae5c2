//! What a conductor works with but doesn't change.
ghost use Rattle.std.specs.Prelude.{◌≡◌};

use air_base::Form;
use chunk_program::Plans;
use station::Station;
use std::alloc::Global;

/// The station at which cycles start, and the plans and the form in which they are aired.
#[derive(Drop)]
pub struct Means<'a, R> {
    pub wait: &'a R,
    pub alloc: Global,
    pub station: &'a Station,
    pub plans: &'a Plans,
    pub form: Form,
}

impl<'a, R> Means<'a, R> {
    /// The means with these fields.
    pub fn new(
        wait: &'a R,
        alloc: Global,
        station: &'a Station,
        plans: &'a Plans,
        form: Form,
    ) -> Means<'a, R>
        ensures station { result.station.now ≡ station.now }
        ensures plans { result.plans.now ≡ plans.now }
        ensures form { result.form ≡ form }
    {
        Means {
            wait,
            alloc,
            station,
            plans,
            form,
        }
    }
}
