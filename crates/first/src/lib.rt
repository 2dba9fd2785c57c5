// The first call of a search, with the plan alone.
// The buffers to write come one by one: one is read while another is written, which a struct of them would not let be proved.
// What is only read comes one by one as well, as C hands it over (see `search`).
// Why numbers and settings stay two stands at the top of `walk`.
#![tactic(auto)]

ghost use Rattle.settings.specs.Settings.{settings_of};
ghost use Rattle.lending.specs.Work.{work};
ghost use Rattle.finds.specs.Whole.{CallsFirst, Copyable};

use recount::tables::Tables;
use settings::Settings;
use tries::{Spent, Unreached, call};
use words::copy;

// The plan is copied to the work tables, and the first call made with it.
pub fn first_call(
    plan: &[u8],
    plan_terms: &[u8],
    numbers: &[u8],
    s: Settings,
    tables: &mut [u8],
    terms: &mut [u8],
    tried: &mut [u8],
    tallies: &mut [u8],
    marks: &mut [u8],
) -> Result<Spent, Unreached>
    requires { Copyable plan.now plan_terms.now tables.old terms.old (work tried.old tallies.old marks.old) }
    ensures { CallsFirst (settings_of s) plan.now plan_terms.now numbers.now result
        tables.old tables.new terms.old terms.new
        (work tried.old tallies.old marks.old)
        (work tried.new tallies.new marks.new) }
{
    copy(&plan[..format::TABLES], tables);
    copy(&plan_terms[..format::TERMS], terms);
    let t = Tables { tables, terms };
    let begun = Spent { used: 0, flips: 0 };
    call(&t, numbers, begun, s, tried, tallies, marks)
}
