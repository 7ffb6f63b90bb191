// The help: each command in a line, with an example each.
#![tactic(auto)]

use tool_out::Out;

const HELP: &[u8] = b"casm tells what the CASM section of a style file holds.

  casm report FILE                        the file in words
  casm check FILE..                       one line a file, then counts
  casm plays FILE PART [CHORD]            who plays under a chord, or under each
  casm note FILE PART CHANNEL CHORD NOTE  where a note is placed
  casm edit FILE PART CHANNEL FIELD=VALUE.. -o OUT    one channel changed
  casm verify BEFORE AFTER PART CHANNEL   whether only that channel differs
  casm page FILE                          the report as one HTML page
  casm list FILE                          the salvage list in numbers
  casm help                               this page

Examples
  casm report ballad.sty
  casm check masters/*.sty
  casm plays ballad.sty 'Main A' F#m7
  casm note ballad.sty 'Main A' 11 F C3
  casm edit ballad.sty 'Main A' 11 high-key=F -o new.sty
  casm verify ballad.sty new.sty 'Main A' 11
  casm page ballad.sty > ballad.html
  casm list ballad.sty

With report, check and plays, --json gives the same facts for programs.
Channels are 1-16; C3 is note 60; chords are written C, F#m7, Bb7sus.
Exit status: 0 sound or done; 1 damaged or the answer is no; 2 cannot be done.
FILE is only read; edit alone writes, to OUT, and to FILE only with --in-place.
";

pub fn put_help(out: &mut Out) {
    out.text(HELP);
}
