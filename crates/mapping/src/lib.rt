// From the mapper's two lists to a plan file: the call's C interface. include/mapper.h declares it.
#![tactic(auto)]

ghost use Rattle.std.specs.Prelude.{◌≡◌};
ghost use Rattle.entries.specs.Judging.{refusal_numbers};
ghost use Rattle.mapping.specs.Answered.{refused_by};
ghost use Rattle.mapping.specs.Mapping.{refusal_for, length_for, plan_after};

use draft::put_plan;
use entries::{Refusal, judge};

// The bytes of the largest plan file.
const LEAST_ROOM: usize = 54446;

// A refusal's number with its list (1 sites, 2 zones, 0 neither) and row, from 1; or 0, and the length of the file.
// The C interface hands it over as it is, so that refusal and list are numbers in it and no enums.
#[repr(C)]
#[derive(Clone, Copy)]
pub struct Mapped {
    pub refusal: u32,
    pub list: u32,
    pub row: usize,
    pub length: usize,
}

fn refused(refusal: u32, list: u32, row: usize) -> Mapped
    ensures { result ≡ record { refusal = refusal; list = list; row = row; length = 0 } }
{
    Mapped {
        refusal,
        list,
        row,
        length: 0,
    }
}

impl From<Refusal> for Mapped {
    ghost from_gives = { λ refusal m. m ≡ refused_by (refusal_numbers refusal) };

    fn from(refusal: Refusal) -> Mapped {
        match refusal {
            Refusal::Site(at) => refused(u32::from(at.fault), 1, at.row),
            Refusal::Zone(at) => refused(u32::from(at.fault), 2, at.row),
            Refusal::Size => refused(4, 0, 0),
        }
    }
}

#[unsafe(no_mangle)]
pub extern "C" fn planner_map_csv(sites: &[u8], zones: &[u8], plan: &mut [u8]) -> Mapped
    ensures refusal_value { (result.refusal ≡ (refusal_for sites.now zones.now plan.old).number)
        × (result.list ≡ (refusal_for sites.now zones.now plan.old).list)
        × (result.row ≡ (refusal_for sites.now zones.now plan.old).row)
        × (result.length ≡ length_for sites.now zones.now plan.old) }
    ensures plan_after { plan.new ≡ plan_after sites.now zones.now plan.old }
{
    if plan.len() < LEAST_ROOM {
        return refused(21, 0, 0);
    }
    match judge(sites, zones) {
        Err(refusal) => Mapped::from(refusal),
        Ok(n) => Mapped {
            refusal: 0,
            list: 0,
            row: 0,
            length: put_plan(plan, sites, zones, n),
        },
    }
}
