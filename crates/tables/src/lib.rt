// Rows written into lent tables as a plan says, those without texts of the event: regions, members named one by one, what is open. n rows are in use.

#![tactic(auto)]

ghost use Rattle.std.specs.Prelude.{◌≡◌, ◌<◌};
ghost use Rattle.plan.specs.After.{region_row, member_of, open_region_of};
ghost use Rattle.tables.specs.Whole.{added_in, both_in, regions_in, members_in, opened_row, opened_in, open_regions_in};

use definition::RegionId;
use opens::opened;
use plan::{MemberPlan, OpenPlan, OpenRegion, OpenRegionPlan, RegionPlan};
use rows::put;

/// An element that opens, as the open elements keep its own name: how long that is, and a row of it.
#[derive(Clone, Copy)]
pub struct OpenedName {
    pub length: u32,
    pub row: [u8; 64],
}

// The row n, if there is one for it.
#[tactic(auto, unfolding(crate::specs::Whole::added_in))]
fn put_if<T: Copy>(rows: &mut [T], n: usize, row: Option<T>)
    ensures { rows.new ≡ added_in (λ r. r) row n rows.old }
{
    if let Some(row) = row {
        put(rows, n, row);
    }
}

// Up to two rows, from the row n on.
#[tactic(auto, unfolding(crate::specs::Whole::both_in, plan::specs::Decided::one_there))]
fn put_two<T: Copy>(rows: &mut [T], n: usize, one: Option<T>, two: Option<T>)
    requires { n < 65536 }
    ensures { rows.new ≡ both_in (λ r. r) one two n rows.old }
{
    put_if(rows, n, one);
    put_if(rows, n + usize::from(one.is_some()), two);
}

#[tactic(auto, unfolding(plan::specs::After::region_row))]
fn region_row(i: RegionId) -> [u32; 8]
    ensures { result ≡ region_row i }
{
    [i.0, 0, 0, 0, 0, 0, 0, 0]
}

#[tactic(auto, unfolding(crate::specs::Whole::regions_in, crate::specs::Whole::both_in, crate::specs::Whole::added_in, plan::specs::Decided::one_there))]
pub fn change_regions(regions: &mut [[u32; 8]], n: usize, p: &RegionPlan)
    requires { n < 65536 }
    ensures { regions.new ≡ regions_in p.now n regions.old }
{
    put_two(regions, n, p.one.map(region_row), p.two.map(region_row));
}

#[tactic(auto, unfolding(plan::specs::After::member_of, plan::specs::After::member_row))]
fn member_row(p: MemberPlan) -> [u32; 8]
    ensures { result ≡ member_of p }
{
    [p.list.number(), p.owner, p.value, 0, 0, 0, 0, 0]
}

/// Both members that are named one by one, from the row n on.
#[tactic(auto, unfolding(crate::specs::Whole::members_in, crate::specs::Whole::both_in, crate::specs::Whole::added_in, plan::specs::Decided::one_there))]
pub fn add_two(
    members: &mut [[u32; 8]],
    n: usize,
    one: &Option<MemberPlan>,
    two: &Option<MemberPlan>,
)
    requires { n < 65536 }
    ensures { members.new ≡ members_in one.now two.now n members.old }
{
    put_two(members, n, one.map(member_row), two.map(member_row));
}

// The tag is a number, as the row gets it: C lends rows of numbers.
#[tactic(auto, unfolding(crate::specs::Whole::opened_row))]
fn opened_row(tag: u32, p: OpenPlan, name: &OpenedName) -> [u32; 8]
    ensures { result ≡ opened_row tag p name.now }
{
    let inside = opened(p.state, p.transition, tag);
    [
        inside.tag,
        inside.state.0,
        inside.transition.0,
        name.length,
        0,
        0,
        0,
        0,
    ]
}

/// Where no element opens, no row is written: the count alone says what is open. The tag is a number, as the row gets it.
#[tactic(auto, unfolding(crate::specs::Whole::opened_in, crate::specs::Whole::added_in))]
pub fn change_opened(
    opened: &mut [[u32; 8]],
    n: usize,
    tag: u32,
    p: OpenPlan,
    name: &Option<OpenedName>,
)
    ensures { opened.new ≡ opened_in tag p name.now n opened.old }
{
    if let Some(name) = name {
        put(opened, n, opened_row(tag, p, name));
    }
}

#[tactic(auto, unfolding(plan::specs::After::open_region_of, definition::specs::Change::open_region_row))]
fn open_region_row(p: OpenRegion) -> [u32; 8]
    ensures { result ≡ open_region_of p }
{
    [p.region.0, p.tag.number(), 0, 0, 0, 0, 0, 0]
}

#[tactic(auto, unfolding(crate::specs::Whole::open_regions_in, crate::specs::Whole::both_in, crate::specs::Whole::added_in, plan::specs::Decided::one_there))]
pub fn change_open_regions(regions: &mut [[u32; 8]], p: &OpenRegionPlan)
    requires { p.now.kept < 65536 }
    ensures { regions.new ≡ open_regions_in p.now regions.old }
{
    put_two(
        regions,
        p.kept as usize,
        p.one.map(open_region_row),
        p.two.map(open_region_row),
    );
}
