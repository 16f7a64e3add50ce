ghost use Rattle.std.specs.Prelude.{◌≡◌, ◌<◌, Some, None, MatchBool};
ghost use Rattle.cd_lex.specs.Inner.Commenting.{begins as begins_of, within as within_of, step_of};
ghost use Rattle.cd_lex.specs.Inner.Commenting.{left_from};

use crate::cursor::Cursor;

/// Takes off the characters that close the comment that stands open before this text, and says
/// whether it is closed.
pub(crate) fn close_comment(cursor: &mut Cursor<'_>) -> bool
    ensures { MatchBool result (left_from (within_of 0) cursor.old ≡ Some cursor.new)
        (left_from (within_of 0) cursor.old ≡ None) }
{
    let _most = cursor.bytes();
    let mut state = within(0);
    while let Some(c) = cursor.take() {
        match state.step(c) {
            Some(next) => state = next,
            None => return true,
        }
    }
    false
}

// Where a text stands within a comment.
#[derive(Clone, Copy)]
struct CommentState {
    // How many comments stand open around the innermost one.
    around: usize,
    before: Before,
}

// What stands directly before the text and may begin a pair there.
#[derive(Clone, Copy)]
enum Before {
    Nothing,
    Parenthesis,
    Star,
}

impl CommentState {
    // The state after one more character. None where that closes the outermost comment.
    fn step(self, c: char) -> Option<CommentState>
        requires countable { self.around < 18446744073709551615 }
        ensures { result ≡ step_of self c }
    {
        match self.before {
            Before::Parenthesis if c == '*' => Some(within(self.around + 1)),
            Before::Star if c == ')' && self.around == 0 => None,
            Before::Star if c == ')' => Some(within(self.around - 1)),
            _ => Some(CommentState {
                around: self.around,
                before: begins(c),
            }),
        }
    }
}

// The state after a whole pair.
fn within(around: usize) -> CommentState
    ensures { result ≡ within_of around }
{
    CommentState {
        around,
        before: Before::Nothing,
    }
}

// What a character may begin.
fn begins(c: char) -> Before
    ensures { result ≡ begins_of c }
{
    match c {
        '(' => Before::Parenthesis,
        '*' => Before::Star,
        _ => Before::Nothing,
    }
}
