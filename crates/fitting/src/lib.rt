// Whether the table of a run that is handed in fits. (02, No. 5: "A table or state refused by 13 is
// refused here too.")

#![tactic(auto)]

ghost use Rattle.std.specs.Prelude.{◌≡◌};
ghost use Rattle.fitting.specs.Fits.{run_fits};

use run::Run;
use table::Refusal;
use verdict::Fits;

#[tactic(auto, unfolding(crate::specs::Fits::run_fits))]
pub fn run_fits(r: Run) -> Fits
    ensures { result ≡ run_fits r }
{
    if !soundness::run_sound(r.table, r.state) {
        return Fits::No(Refusal::Unsound);
    }
    verdict::fits_of(r.table)
}
