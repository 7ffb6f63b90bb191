// Words that stand in a field of fixed length, spaces behind them.
ghost use Rattle.std.specs.Prelude.{◌≤◌, length};

// A text without the spaces at its end.
pub fn trimmed<'a>(text: &'a [u8]) -> &'a [u8]
    ensures { length result.now ≤ length text.now }
{
    match text.iter().rposition(|b| *b != b' ') {
        Some(k) => &text[..k + 1],
        None => b"",
    }
}
