//! Lines and columns.
ghost use Rattle.std.specs.Prelude.{◌≡◌};
ghost use Rattle.std.specs.Str.{chars};
ghost use Rattle.cd_replies.specs.Position.{characters_before as before_of, line_after};
ghost use Rattle.cd_replies.specs.Position.{column_after};

/// The line and the column, both from 1, at which a byte of a text stands: one more than the line
/// feeds before it, and one more than the characters between the last of these, or the start, and
/// it.
pub fn place(text: &str, at: usize) -> (usize, usize)
    ensures line { result.0 ≡ line_after (before_of at (chars text.now)) }
    ensures column { result.1 ≡ column_after (before_of at (chars text.now)) }
{
    let mut left = at;
    let mut line = 1;
    let mut column = 1;
    for c in text.chars() {
        if left == 0 {
            break;
        }
        left = left.saturating_sub(c.len_utf8());
        let ends_line = c == '\n';
        if ends_line {
            line += 1;
            column = 1;
        } else {
            column += 1;
        }
    }
    (line, column)
}
