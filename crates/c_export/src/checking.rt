// Checking what other editors return (document 02, §13).
ghost use Rattle.std.specs.Prelude.{◌≡◌};
ghost use Rattle.layout.specs.Check.{bodies_checked, files_checked, checked};
ghost use Rattle.c_export.specs.Crossing.{which_number, yes_number, check_of};

use crate::answer::Check;
use layout::answer::{Checked, Which};
use layout::record::SourceChannel;

// The number of what a refusal speaks of.
fn which_number(which: Which) -> u8
    ensures { result ≡ which_number which }
{
    match which {
        Which::Neither => 0,
        Which::BeforeFile => 1,
        Which::AfterFile => 2,
        Which::BeforeBody => 3,
        Which::AfterBody => 4,
    }
}

// 1 for yes.
fn yes_number(yes: bool) -> u8
    ensures { result ≡ yes_number yes }
{
    if yes {
        return 1;
    }
    0
}

fn check_of(c: Checked) -> Check
    ensures { result ≡ check_of c }
{
    let which = c.which;
    let n = which_number(which);
    let yes = yes_number(c.yes);
    Check {
        number: c.number,
        place: c.place,
        which: n,
        yes,
        unlike: c.unlike,
    }
}

// Whether two bodies differ in the record of a group and source channel of the first only.
#[unsafe(no_mangle)]
pub extern "C" fn casm_check(before: &[u8], after: &[u8], group: usize, source: u8) -> Check
    ensures { result ≡ check_of (checked (bodies_checked before.now after.now group source)) }
{
    check_of(casm::checking::check_bodies(before, after, group, SourceChannel(source)))
}

// The same of two style files.
#[unsafe(no_mangle)]
pub extern "C" fn casm_check_files(before: &[u8], after: &[u8], group: usize, source: u8) -> Check
    ensures { result ≡ check_of (checked (files_checked before.now after.now group source)) }
{
    check_of(casm::checking::check_files(before, after, group, SourceChannel(source)))
}
