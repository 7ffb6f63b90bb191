// The table of a record's sets, a line for each.
#![tactic(auto)]

use tool_out::Out;
use tool_page_sets::{NOTES, RULE, SETTINGS, head, put_setting};
use tool_rows::row::Row;
use tool_words::names::set;

// What a shown set is called; `all` where there is one.
pub fn put_set_name(out: &mut Out, which: usize, shown: usize) {
    if shown == 1 {
        out.text(b"all");
        return;
    }
    out.text(set((which % 256) as u8));
}

// A cell of the table of sets; a rule and a range are not broken.
fn put_cell(out: &mut Out, row: &Row, which: usize, n: usize) {
    out.text(b"<td data-l=\"");
    out.text(head(n));
    out.byte(b'"');
    if n == RULE || n == NOTES {
        out.text(b" class=\"nw\"");
    }
    out.byte(b'>');
    put_setting(out, row, which, n);
    out.text(b"</td>");
}

fn put_set(out: &mut Out, row: &Row, which: usize, shown: usize) {
    out.text(b"<tr><th scope=\"row\">");
    put_set_name(out, which, shown);
    out.text(b"</th>");
    for n in RULE..SETTINGS {
        put_cell(out, row, which, n);
    }
    out.text(b"</tr>");
}

pub fn put_sets(out: &mut Out, row: &Row, shown: usize) {
    out.text(
        b"<table class=\"sets\"><thead><tr><th scope=\"col\">set</th><th scope=\"col\">rule</th><th scope=\"col\">table</th><th scope=\"col\">high key</th><th scope=\"col\">notes</th><th scope=\"col\">retrigger</th></tr></thead><tbody>",
    );
    for which in 0..shown {
        put_set(out, row, which, shown);
    }
    out.text(b"</tbody></table>");
}
