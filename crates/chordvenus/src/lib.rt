// The edge: every public call as a C function, for callers that are not written in Rattle. Each function calls one public function and
// has its answer flattened to numbers (crate `answers`); include/chordvenus.h says what each call does. No thinking stands here: what a
// call promises is its own crate's matter, and every field of an answer is given by that promise.
#![tactic(auto)]

ghost use Rattle.std.specs.Prelude.{◌≡◌};
ghost use Rattle.wish.specs.Wish.{wish_bits};
ghost use Rattle.wishes.specs.Wishes.{wishing};
ghost use Rattle.rules.specs.Exact.{exact_plan};
ghost use Rattle.rules.specs.Doubled.{every_rotation_plan, doubled_plan};
ghost use Rattle.rules.specs.Quick.{quick_plan};
ghost use Rattle.planner.specs.Planned.{planned, planned_up_to};
ghost use Rattle.records.specs.Write.{written};
ghost use Rattle.switch.specs.Editions.{first_edition, second_edition};
ghost use Rattle.plans.specs.Read.{opening, step_at};
ghost use Rattle.checker.specs.Check.{check_plan};
ghost use Rattle.length.specs.Length.{plan_length};
ghost use Rattle.joining.specs.Join.{joining};
ghost use Rattle.moving.specs.Move.{movable, moving};
ghost use Rattle.wavelengths.specs.Report.{reported};
ghost use Rattle.grating.specs.Grating.{grating_planned};
ghost use Rattle.quiet.specs.Planned.{quiet_planned};
ghost use Rattle.least.specs.Least.{least_of};
ghost use Rattle.room.specs.declared.Planner.TheVariants.{Exact, Doubled, Quick};
ghost use Rattle.room.specs.Room.{roomed};
ghost use Rattle.lookup.specs.Lookup.{spot_of, found_of};
ghost use Rattle.shop.specs.Shopped.{shopped};
ghost use Rattle.tasks.specs.Read.{reading};
ghost use Rattle.answers.specs.Flat.{version, flat, flat_step, flat_wish, flat_part, Crosses, CarriesFlat, flat_wide, RescuesFlat};
ghost use Rattle.rescue.specs.Rescue.{rescuing};

use answers::{Cv2Step, CvAnswer, CvPart, CvStep};

// The version of the archive, for a caller to hold against its header's.
#[unsafe(no_mangle)]
pub extern "C" fn cv_version() -> u64
    ensures { result ≡ version }
{
    answers::version()
}

// The same number, and in the name too: a program refers to the name that its header has, so that with an archive of another version it
// does not link. Whoever changes the version changes this name.
#[unsafe(no_mangle)]
pub extern "C" fn cv_interface_1() -> u64
    ensures { result ≡ version }
{
    answers::version()
}

// One wish: its code, and its slots as total.
#[unsafe(no_mangle)]
pub extern "C" fn cv_wish(bits: u32) -> CvAnswer
    ensures { result ≡ flat_wish (wish_bits bits) }
{
    CvAnswer::from(wish::of_bits(bits))
}

// A wish list to a demand.
#[unsafe(no_mangle)]
pub extern "C" fn cv_wishes(n: usize, list: &[u8], cells: &mut [u32]) -> CvAnswer
    ensures { Crosses (wishing first_edition n list.now cells.old) result cells.new }
{
    CvAnswer::from(wishes::wishes(n, list, cells))
}

// The exact plan.
#[unsafe(no_mangle)]
pub extern "C" fn cv_exact(n: usize, cells: &[u32], plan: &mut [u8]) -> CvAnswer
    ensures { Crosses (planned first_edition n cells.now (exact_plan 64 n cells.now) plan.old) result plan.new }
{
    CvAnswer::from(exact::exact_plan(n, cells, plan))
}

// The doubled plan.
#[unsafe(no_mangle)]
pub extern "C" fn cv_doubled(n: usize, cells: &[u32], plan: &mut [u8]) -> CvAnswer
    ensures { Crosses (planned first_edition n cells.now (doubled_plan 64 n cells.now) plan.old) result plan.new }
{
    CvAnswer::from(doubled::doubled_plan(n, cells, plan))
}

// The doubled plan by the rule of every rotation.
#[unsafe(no_mangle)]
pub extern "C" fn cv_doubled_every_rotation(n: usize, cells: &[u32], plan: &mut [u8]) -> CvAnswer
    ensures { Crosses (planned first_edition n cells.now (every_rotation_plan 64 n cells.now) plan.old) result plan.new }
{
    CvAnswer::from(doubled::doubled_plan_every_rotation(n, cells, plan))
}

// The quick cover.
#[unsafe(no_mangle)]
pub extern "C" fn cv_quick(n: usize, cells: &[u32], plan: &mut [u8]) -> CvAnswer
    ensures { Crosses (planned_up_to 1024 first_edition n cells.now (quick_plan 64 n cells.now) plan.old) result plan.new }
{
    CvAnswer::from(quick::quick_plan(n, cells, plan))
}

// The records that always suffice for the exact plan, from N and T alone.
#[unsafe(no_mangle)]
pub extern "C" fn cv_exact_room(n: usize, longest: u64) -> CvAnswer
    ensures { result ≡ flat (roomed first_edition Exact n longest) }
{
    CvAnswer::from(room::exact_room(n, longest))
}

// For the doubled plan, by either rule.
#[unsafe(no_mangle)]
pub extern "C" fn cv_doubled_room(n: usize, longest: u64) -> CvAnswer
    ensures { result ≡ flat (roomed first_edition Doubled n longest) }
{
    CvAnswer::from(room::doubled_room(n, longest))
}

// For the quick cover.
#[unsafe(no_mangle)]
pub extern "C" fn cv_quick_room(n: usize, longest: u64) -> CvAnswer
    ensures { result ≡ flat (roomed first_edition Quick n longest) }
{
    CvAnswer::from(room::quick_room(n, longest))
}

// The same for switches of up to 128 ports: the exact plan.
#[unsafe(no_mangle)]
pub extern "C" fn cv2_exact_room(n: usize, longest: u64) -> CvAnswer
    ensures { result ≡ flat (roomed second_edition Exact n longest) }
{
    CvAnswer::from(room::exact_room_second(n, longest))
}

// The doubled plan.
#[unsafe(no_mangle)]
pub extern "C" fn cv2_doubled_room(n: usize, longest: u64) -> CvAnswer
    ensures { result ≡ flat (roomed second_edition Doubled n longest) }
{
    CvAnswer::from(room::doubled_room_second(n, longest))
}

// The quick cover.
#[unsafe(no_mangle)]
pub extern "C" fn cv2_quick_room(n: usize, longest: u64) -> CvAnswer
    ensures { result ≡ flat (roomed second_edition Quick n longest) }
{
    CvAnswer::from(room::quick_room_second(n, longest))
}

// The planners for switches of up to 128 ports: the exact plan.
#[unsafe(no_mangle)]
pub extern "C" fn cv2_exact(n: usize, cells: &[u32], plan: &mut [u8]) -> CvAnswer
    ensures { Crosses (planned second_edition n cells.now (exact_plan 128 n cells.now) plan.old) result plan.new }
{
    CvAnswer::from(exact::exact_plan_second(n, cells, plan))
}

// The doubled plan.
#[unsafe(no_mangle)]
pub extern "C" fn cv2_doubled(n: usize, cells: &[u32], plan: &mut [u8]) -> CvAnswer
    ensures { Crosses (planned second_edition n cells.now (doubled_plan 128 n cells.now) plan.old) result plan.new }
{
    CvAnswer::from(doubled::doubled_plan_second(n, cells, plan))
}

// The doubled plan by the rule of every rotation.
#[unsafe(no_mangle)]
pub extern "C" fn cv2_doubled_every_rotation(n: usize, cells: &[u32], plan: &mut [u8]) -> CvAnswer
    ensures { Crosses (planned second_edition n cells.now (every_rotation_plan 128 n cells.now) plan.old) result plan.new }
{
    CvAnswer::from(doubled::doubled_plan_every_rotation_second(n, cells, plan))
}

// The quick cover.
#[unsafe(no_mangle)]
pub extern "C" fn cv2_quick(n: usize, cells: &[u32], plan: &mut [u8]) -> CvAnswer
    ensures { Crosses (planned_up_to 1024 second_edition n cells.now (quick_plan 128 n cells.now) plan.old) result plan.new }
{
    CvAnswer::from(quick::quick_plan_second(n, cells, plan))
}

// The doubled plan for the grating fabric.
#[unsafe(no_mangle)]
pub extern "C" fn cv_grating_doubled(n: usize, cells: &[u32], plan: &mut [u8]) -> CvAnswer
    ensures { Crosses (grating_planned first_edition n cells.now plan.old) result plan.new }
{
    CvAnswer::from(grating::grating_doubled(n, cells, plan))
}

// The quiet plan for the grating fabric: no wavelength on more inputs of a setting than the limit.
#[unsafe(no_mangle)]
pub extern "C" fn cv_grating_quiet(n: usize, cells: &[u32], limit: u64, plan: &mut [u8]) -> CvAnswer
    ensures { Crosses (quiet_planned first_edition n cells.now limit plan.old) result plan.new }
{
    CvAnswer::from(quiet::quiet_plan(n, cells, limit, plan))
}

// The least total that a plan within the limit can have.
#[unsafe(no_mangle)]
pub extern "C" fn cv_grating_least(n: usize, cells: &[u32], limit: u64) -> CvAnswer
    ensures { result ≡ flat (least_of first_edition n cells.now limit) }
{
    CvAnswer::from(least::least_within(n, cells, limit))
}

// What the records of a plan do on the grating fabric.
#[unsafe(no_mangle)]
pub extern "C" fn cv_grating_report(n: usize, plan: &[u8], report: &mut [u8]) -> CvAnswer
    ensures { Crosses (reported first_edition n plan.now report.old) result report.new }
{
    CvAnswer::from(wavelengths::grating_report(n, plan, report))
}

// A plan from anywhere against a demand.
#[unsafe(no_mangle)]
pub extern "C" fn cv_check(n: usize, cells: &[u32], plan: &[u8]) -> CvAnswer
    ensures { result ≡ flat (check_plan first_edition n cells.now plan.now) }
{
    CvAnswer::from(checker::check_plan(n, cells, plan))
}

// The length of a plan where switching takes d slots.
#[unsafe(no_mangle)]
pub extern "C" fn cv_length(n: usize, plan: &[u8], d: u16) -> CvAnswer
    ensures { result ≡ flat (plan_length first_edition d n plan.now) }
{
    CvAnswer::from(length::plan_length(n, plan, d))
}

// A plan with its equal settings joined, into a second buffer.
#[unsafe(no_mangle)]
pub extern "C" fn cv_join(n: usize, plan: &[u8], joined: &mut [u8]) -> CvAnswer
    ensures { Crosses (joining first_edition n plan.now joined.old) result joined.new }
{
    CvAnswer::from(joining::join_plan(n, plan, joined))
}

// One record written at the start of a lent buffer.
#[unsafe(no_mangle)]
pub extern "C" fn cv_write(hold: u16, n: usize, outputs: &[u8; 64], plan: &mut [u8]) -> CvAnswer
    ensures { Crosses (written first_edition hold n outputs.now plan.old) result plan.new }
{
    CvAnswer::from(records::write_record(hold, n, outputs, plan))
}

// A plan opened for n.
#[unsafe(no_mangle)]
pub extern "C" fn cv_open(n: usize, plan: &[u8]) -> CvAnswer
    ensures { result ≡ flat (opening first_edition n plan.now) }
{
    CvAnswer::from(plans::open_plan(n, plan))
}

// The step at record `at` of a plan opened for n.
#[unsafe(no_mangle)]
pub extern "C" fn cv_step_at(n: usize, plan: &[u8], at: usize) -> CvStep
    ensures { result ≡ flat_step (step_at first_edition n plan.now at) }
{
    CvStep::from(plans::step_at(n, plan, at))
}

// The record in force at a slot of two plans.
#[unsafe(no_mangle)]
pub extern "C" fn cv_in_force(n: usize, tonight: &[u8], standby: &[u8], slot: u64) -> CvPart
    ensures { result ≡ flat_part (found_of first_edition (spot_of first_edition n tonight.now standby.now slot)) }
{
    CvPart::from(lookup::find(n, tonight, standby, slot))
}

// The new demand of a batch that was stopped after its first records.
#[unsafe(no_mangle)]
pub extern "C" fn cv_carry_over(
    n: usize,
    asked: &[u32],
    plan: &[u8],
    first: usize,
    wished: &[u32],
    cells: &mut [u32],
) -> CvAnswer
    ensures { CarriesFlat first_edition n asked.now plan.now first wished.now cells.old result cells.new }
{
    CvAnswer::from(carry::carry_over(n, asked, plan, first, wished, cells))
}

// The open-shop plan of a demand where switching takes d.
#[unsafe(no_mangle)]
pub extern "C" fn cv_shop(n: usize, cells: &[u32], d: u16, tasks: &mut [u8]) -> CvAnswer
    ensures { Crosses (shopped n d cells.now tasks.old) result tasks.new }
{
    CvAnswer::from(shop::shop_plan(n, cells, d, tasks))
}

// A schedule of tasks, read.
#[unsafe(no_mangle)]
pub extern "C" fn cv_tasks(n: usize, tasks: &[u8]) -> CvAnswer
    ensures { result ≡ flat (reading n tasks.now) }
{
    CvAnswer::from(tasks::read_tasks(n, tasks))
}

// The second edition's calls, for switches of up to 128 ports: a wish list to a demand.
#[unsafe(no_mangle)]
pub extern "C" fn cv2_wishes(n: usize, list: &[u8], cells: &mut [u32]) -> CvAnswer
    ensures { Crosses (wishing second_edition n list.now cells.old) result cells.new }
{
    CvAnswer::from(wishes::wishes_second(n, list, cells))
}

// A plan from anywhere against a demand.
#[unsafe(no_mangle)]
pub extern "C" fn cv2_check(n: usize, cells: &[u32], plan: &[u8]) -> CvAnswer
    ensures { result ≡ flat (check_plan second_edition n cells.now plan.now) }
{
    CvAnswer::from(checker::check_plan_second(n, cells, plan))
}

// The length of a plan where switching takes d slots.
#[unsafe(no_mangle)]
pub extern "C" fn cv2_length(n: usize, plan: &[u8], d: u16) -> CvAnswer
    ensures { result ≡ flat (plan_length second_edition d n plan.now) }
{
    CvAnswer::from(length::plan_length_second(n, plan, d))
}

// A plan with its equal settings joined, into a second buffer.
#[unsafe(no_mangle)]
pub extern "C" fn cv2_join(n: usize, plan: &[u8], joined: &mut [u8]) -> CvAnswer
    ensures { Crosses (joining second_edition n plan.now joined.old) result joined.new }
{
    CvAnswer::from(joining::join_plan_second(n, plan, joined))
}

// One record written at the start of a lent buffer.
#[unsafe(no_mangle)]
pub extern "C" fn cv2_write(hold: u16, n: usize, outputs: &[u8; 128], plan: &mut [u8]) -> CvAnswer
    ensures { Crosses (written second_edition hold n outputs.now plan.old) result plan.new }
{
    CvAnswer::from(records::write_record_second(hold, n, outputs, plan))
}

// A plan opened for n.
#[unsafe(no_mangle)]
pub extern "C" fn cv2_open(n: usize, plan: &[u8]) -> CvAnswer
    ensures { result ≡ flat (opening second_edition n plan.now) }
{
    CvAnswer::from(plans::open_second(n, plan))
}

// The step at record `at` of a plan opened for n.
#[unsafe(no_mangle)]
pub extern "C" fn cv2_step_at(n: usize, plan: &[u8], at: usize) -> Cv2Step
    ensures { result ≡ flat_wide (step_at second_edition n plan.now at) }
{
    Cv2Step::from(plans::step_second(n, plan, at))
}

// A plan of the first edition as one of the second, into a second buffer.
#[unsafe(no_mangle)]
pub extern "C" fn cv_to_second(n: usize, plan: &[u8], moved: &mut [u8]) -> CvAnswer
    ensures { Crosses (moving first_edition second_edition n plan.now moved.old) result moved.new }
{
    CvAnswer::from(moving::to_second(n, plan, moved))
}

// A plan of the second edition as one of the first.
#[unsafe(no_mangle)]
pub extern "C" fn cv_to_first(n: usize, plan: &[u8], moved: &mut [u8]) -> CvAnswer
    ensures { Crosses (moving movable first_edition n plan.now moved.old) result moved.new }
{
    CvAnswer::from(moving::to_first(n, plan, moved))
}

// A damaged plan rescued, and the list of what was dropped.
#[unsafe(no_mangle)]
pub extern "C" fn cv_rescue(
    n: usize,
    cells: &[u32],
    damaged: &[u8],
    plan: &mut [u8],
    dropped: &mut [u8],
) -> CvAnswer
    ensures { RescuesFlat (rescuing first_edition n cells.now damaged.now plan.old dropped.old) result plan.new dropped.new }
{
    CvAnswer::from(rescue::rescue_plan(n, cells, damaged, plan, dropped))
}
