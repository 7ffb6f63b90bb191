// The fields and values that an edit is asked for, set in a row.
use crate::Asked;
use tool_bytes::part;
use tool_change::{Unset, rule_of, set_field};
use tool_ends::{Argument, Cannot, Host, begin, complain, end, quoted};
use tool_field::{Field, Named, NoField, Set, parse_field, put_fields};
use tool_out::Out;
use tool_rows::row::Row;
use tool_value::expected::put_expected;

fn end_fields(rt: &impl Host, out: &mut Out, is_second: bool) -> Cannot {
    out.text(b"; the fields are ");
    put_fields(out, is_second);
    end(rt, out);
    Cannot
}

fn complain_no_field(rt: &impl Host, is_second: bool) -> Cannot {
    let mut out = begin(rt, b"edit");
    out.text(b"no FIELD=VALUE");
    end_fields(rt, &mut out, is_second)
}

fn complain_unknown(rt: &impl Host, name: &[u8], is_second: bool) -> Cannot {
    let mut out = begin(rt, b"edit");
    out.text(b"no field ");
    quoted(&mut out, name);
    end_fields(rt, &mut out, is_second)
}

fn complain_edition(rt: &impl Host, name: &[u8]) -> Cannot {
    let mut out = begin(rt, b"edit");
    quoted(&mut out, name);
    out.text(b" is a field of the second edition, and this channel is of the first");
    end_fields(rt, &mut out, false)
}

fn complain_second_table(rt: &impl Host) -> Cannot {
    complain(
        rt,
        b"edit",
        b"second-table is out of reach of an edit, which neither reads nor writes a Cntt",
    )
}

fn complain_no_value(rt: &impl Host, word: &[u8]) -> Cannot {
    let mut out = begin(rt, b"edit");
    out.text(b"no value in ");
    quoted(&mut out, word);
    out.text(b"; expected FIELD=VALUE");
    end(rt, &mut out);
    Cannot
}

// The field that a name means in a row, or what is wrong with it.
fn field_named(rt: &impl Host, new: &Row, name: &[u8]) -> Result<Named, Cannot> {
    let second = new.is_second();
    match parse_field(name) {
        Err(NoField::SecondTable) => Err(complain_second_table(rt)),
        Err(NoField::Unknown) => Err(complain_unknown(rt, name, second)),
        Ok(named) => {
            if named.is_second_only() && !second {
                return Err(complain_edition(rt, name));
            }
            Ok(named)
        }
    }
}

// The set that is named with a value which it does not have: only a table's values are a set's own.
fn told_set(second: bool, named: Named, set: Set) -> Option<Set> {
    if !second {
        return None;
    }
    if named.field == Field::Table {
        return Some(set);
    }
    named.set
}

fn complain_value(rt: &impl Host, new: &Row, named: Named, set: Set, value: &[u8]) -> Cannot {
    let second = new.is_second();
    let mut out = begin(rt, b"edit");
    out.text(b"no ");
    named
        .field
        .put_called(&mut out, told_set(second, named, set));
    out.text(b" ");
    quoted(&mut out, value);
    out.text(b"; expected ");
    put_expected(&mut out, named.field.kind(second, rule_of(new, set)));
    end(rt, &mut out);
    Cannot
}

// Sets what a word says, where it is a rule or where it is not.
fn set_word(rt: &impl Host, new: &mut Row, word: &[u8], is_rule: bool) -> Result<(), Cannot> {
    let Some(at) = word.iter().position(|b| *b == b'=') else {
        return Err(complain_no_value(rt, word));
    };
    let value = part(word, at.saturating_add(1), word.len());
    let named = field_named(rt, new, part(word, 0, at))?;
    if (named.field == Field::Rule) != is_rule {
        return Ok(());
    }
    match set_field(rt.alloc(), new, named, value) {
        Ok(()) => Ok(()),
        Err(Unset::NoMemory) => Err(complain(rt, b"edit", b"there is no memory left")),
        Err(Unset::NoValue(set)) => Err(complain_value(rt, new, named, set, value)),
    }
}

fn set_all(rt: &impl Host, new: &mut Row, asked: &Asked, is_rule: bool) -> Result<(), Cannot> {
    for i in 0..tool_ends::arg_count(rt) {
        if asked.is_field(rt, i) {
            set_word(rt, new, Argument::at(rt, i).text(), is_rule)?;
        }
    }
    Ok(())
}

// Sets every field that is asked for, the rules first, for they choose the names of the tables.
pub fn set_fields(rt: &impl Host, new: &mut Row, asked: &Asked) -> Result<(), Cannot> {
    if !asked.has_fields() {
        return Err(complain_no_field(rt, new.is_second()));
    }
    set_all(rt, new, asked, true)?;
    set_all(rt, new, asked, false)
}
