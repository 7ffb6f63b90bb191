// Checking what other editors return (document 02, §13).
ghost use Rattle.std.specs.Prelude.{◌≡◌};
ghost use Rattle.layout.specs.Check.{bodies_checked, files_checked, checked};
ghost use Rattle.c_export.specs.Crossing.{check_of};

use c_export::answer::Check;

// Whether two bodies differ in the record of a group and source channel of the first only.
#[unsafe(no_mangle)]
pub extern "C" fn casm_check(before: &[u8], after: &[u8], group: usize, source: u8) -> Check
    ensures { result ≡ check_of (checked (bodies_checked before.now after.now group source)) }
{
    c_export::checking::casm_check(before, after, group, source)
}

// The same of two style files.
#[unsafe(no_mangle)]
pub extern "C" fn casm_check_files(before: &[u8], after: &[u8], group: usize, source: u8) -> Check
    ensures { result ≡ check_of (checked (files_checked before.now after.now group source)) }
{
    c_export::checking::casm_check_files(before, after, group, source)
}
