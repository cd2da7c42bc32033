// Whether sbr_grid() can carry a record.
ghost use Rattle.std.specs.Prelude.{◌≡◌, false, ◌&&◌, ◌||◌, ◌+◌, ◌≤◌, leb, eqb};
ghost use Rattle.sbr_grid.specs.Grid.{view_of};
ghost use Rattle.sbr_writer.specs.Write.{small, all_are, class_fits, numbers_fit, lists_fit, fields_fit_of, writable};

use sbr_grid::{FrameClass, SbrGrid};

// The stored lengths fit two bits.
#[tactic(auto, unfolding(crate::specs::Write::every))]
fn small(rel: &[u8]) -> bool
    ensures { result ≡ small rel.now }
{
    rel.iter().all(|r| *r <= SbrGrid::MAX_RAW_REL)
}

// The flags are all b.
#[tactic(auto, unfolding(crate::specs::Write::every))]
fn all_are(b: bool, flags: &[bool]) -> bool
    ensures { result ≡ all_are b flags.now }
{
    flags.iter().all(|flag| *flag == b)
}

// The envelope count, the border bytes and the counts of lengths are within a record's limits.
fn numbers_fit(g: &SbrGrid) -> bool
    ensures { result ≡ numbers_fit g.now }
{
    1 <= g.num_env
        && g.num_env <= SbrGrid::MAX_NUM_ENV
        && g.var_bord_0 <= SbrGrid::MAX_VAR_BORD
        && g.var_bord_1 <= SbrGrid::MAX_VAR_BORD
        && g.num_rel_0 <= SbrGrid::MAX_REL_BORD
        && g.num_rel_1 <= SbrGrid::MAX_REL_BORD
}

// So are the stored lengths, and the pointer.
fn lists_fit(g: &SbrGrid) -> bool
    requires { (g.now.num_rel_0 ≤ 4) × (g.now.num_rel_1 ≤ 4) }
    ensures { result ≡ lists_fit g.now }
{
    small(g.leading()) && small(g.trailing()) && g.pointer as usize <= g.num_env
}

// What no class can send is refused first, in fields that the class does not send too.
fn fields_fit(g: &SbrGrid) -> bool
    ensures { result ≡ fields_fit_of (view_of g.now) }
{
    numbers_fit(g) && lists_fit(g)
}

// FixFix sends the logarithm of its envelope count: 1, 2 or 4.
fn is_sent_count(num_env: usize) -> bool
    ensures { result ≡ (eqb num_env 1 || eqb num_env 2 || eqb num_env 4) }
{
    matches!(num_env, 1 | 2 | 4)
}

// All flags of FixFix are the one that it sends.
#[tactic(auto, using(crate::proofs::Writable::fixfix_view, crate::proofs::Writable::first_flag))]
fn fix_fix_fits(g: &SbrGrid) -> bool
    ensures { result ≡ class_fits FrameClass.FixFix (view_of g.now) }
{
    is_sent_count(g.num_env) && all_are(g.freq_res[0], g.resolutions())
}

// A list has a length for each envelope but one, as many as two bits can count.
fn one_side_fits(count: usize, num_env: usize) -> bool
    requires { count ≤ 4 }
    ensures { result ≡ (eqb (count + 1) num_env && leb num_env 4) }
{
    count + 1 == num_env && num_env <= SbrGrid::MAX_SIDE_REL + 1
}

// The same of two lists together.
fn two_sides_fit(leading: usize, trailing: usize, num_env: usize) -> bool
    requires { (leading ≤ 4) × (trailing ≤ 4) }
    ensures { result ≡ (eqb (leading + trailing + 1) num_env && leb leading 3 && leb trailing 3) }
{
    leading + trailing + 1 == num_env
        && leading <= SbrGrid::MAX_SIDE_REL
        && trailing <= SbrGrid::MAX_SIDE_REL
}

// The counts are those that the class can send.
fn class_fits(g: &SbrGrid) -> bool
    requires { (g.now.num_rel_0 ≤ 4) × (g.now.num_rel_1 ≤ 4) }
    ensures { result ≡ class_fits g.now.frame_class (view_of g.now) }
{
    match g.frame_class {
        FrameClass::FixFix => fix_fix_fits(g),
        FrameClass::FixVar => one_side_fits(g.num_rel_1, g.num_env),
        FrameClass::VarFix => one_side_fits(g.num_rel_0, g.num_env),
        FrameClass::VarVar => two_sides_fit(g.num_rel_0, g.num_rel_1, g.num_env),
    }
}

// Every test, of a record that is lent: one handed on by value would be copied.
pub(crate) fn is_writable(g: &SbrGrid) -> bool
    ensures { result ≡ writable (view_of g.now) }
{
    fields_fit(g) && class_fits(g)
}

// The same of one by value.
pub fn writable(g: SbrGrid) -> bool
    ensures { result ≡ writable (view_of g) }
{
    is_writable(&g)
}
